//! Journals as texts: a file's sizes, events and verdicts, a line for each.
#![tactic(auto)]

mod collecting;
mod errors;
mod events;
mod files;
mod fitting;
mod lines;
mod numbers;
mod reading;
mod rows;
mod sizes;
mod verdicts;
mod versions;
mod writing;

pub use errors::JournalError;
pub use files::JournalFile;
pub use reading::read;
pub use versions::VERSION;
pub use writing::write;
