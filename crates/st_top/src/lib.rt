//! The top call: words in, an output or one line of refusal out, and a status that tells how the call ended. Each command
//! goes through the public promises of the crates below.
#![tactic(auto)]

mod calls;
mod commands;
mod errors;
mod heads;
mod journals;
mod left;
mod limits;
mod outcomes;
mod outputs;
mod putting;
mod runs;
mod sources;
mod statuses;
mod writing;

pub use calls::{strobe, strobe_on_text, strobe_plain};
pub use errors::Refusal;
pub use limits::MOST_JOURNAL_BYTES;
pub use outcomes::Outcome;
pub use outputs::{json_of, report_of};
pub use statuses::{
    STATUS_INPUT, STATUS_NO_MEMORY, STATUS_READ_FAULT, STATUS_WORDS, STATUS_WRITE_FAULT,
};
pub use writing::refuse_without_memory;
