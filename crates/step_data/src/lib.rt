//! Steps of a thread as data, each a plan of the meaning.
#![tactic(auto)]

mod action;
mod around;
mod asking;
mod assigning;
mod block;
mod calling;
mod class_making;
mod declared;
mod fit_part;
mod goal;
mod level;
mod making;
mod meeting;
mod pending;
mod round;
mod task;
mod waiting;

pub use action::Action;
pub use around::Around;
pub use asking::Asking;
pub use assigning::{Assigning, Kept};
pub use block::{BlockRest, Declaring};
pub use calling::{Binding, Calling, Old, Requesting};
pub use class_making::ClassMaking;
pub use declared::Declared;
pub use fit_part::FitPart;
pub use goal::Goal;
pub use level::Level;
pub use making::{Creating, Making};
pub use meeting::{Defining, Elements, Follow, Given, Meeting};
pub use pending::Pending;
pub use round::{Counting, ForLoop, Round};
pub use task::Task;
pub use waiting::Waiting;
