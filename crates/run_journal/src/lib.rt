//! The journal of a run: threads, questions, answers and entries, and lists of them.
#![tactic(auto)]

mod answer;
mod answer_list;
mod deed;
mod entry;
mod entry_list;
mod host_answer;
mod question;
mod thread;
mod write;
mod write_list;

pub use answer::Answer;
pub use answer_list::AnswerList;
pub use deed::Deed;
pub use entry::Entry;
pub use entry_list::EntryList;
pub use host_answer::HostAnswer;
pub use question::Question;
pub use thread::Thread;
pub use write::Write;
pub use write_list::WriteList;
