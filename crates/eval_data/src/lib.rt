//! Steps of the evaluation of expressions as data, each a plan of the meaning.
#![tactic(auto)]

mod applying;
mod asked_type;
mod asking;
mod chooser;
mod class_test;
mod collecting;
mod fitting;
mod flow;
mod frame;
mod here;
mod matching;
mod need;
mod nest;
mod parts;
mod search;
mod selected;
mod step;
mod strict;
mod test_part;
mod waiting;
mod wanted;

pub use applying::{Applying, Naming};
pub use asked_type::AskedType;
pub use asking::{Asking, Verdict};
pub use chooser::{Chooser, Elements};
pub use class_test::ClassTest;
pub use collecting::{Collecting, Then};
pub use fitting::{Filling, Passing};
pub use flow::Flow;
pub use frame::{After, Frame, Level, TruthUse, Use};
pub use here::{Held, Here};
pub use matching::{Met, MetCase, MetDefinition};
pub use need::Need;
pub use nest::Nest;
pub use parts::Parts;
pub use search::{Search, Sets, Source};
pub use selected::Selected;
pub use step::Step;
pub use strict::Strict;
pub use test_part::TestPart;
pub use wanted::Wanted;
