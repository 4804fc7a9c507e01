//! Accepted sources: from the bytes of a text to its typed program, or the one line that says why it is refused.
//! All commands read a source by `read_source`; what an accepted source is stands in `specs/Accepted.antt`.
#![tactic(auto)]

mod errors;
mod laws;
mod lines;
mod reading;

pub use errors::SourceError;
pub use laws::one_verdict;
pub use lines::refusal_line;
pub use reading::read_source;
