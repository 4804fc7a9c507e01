//! What the rows call, with source texts: runs, what is known of them afterwards, audits, and threads' machines.

mod accounts;
mod amounts;
mod errors;
mod machines;
mod runs;

pub use accounts::{Account, account_for, finding_of, word_after};
pub use amounts::Amounts;
pub use errors::Unrun;
pub use machines::{Tell, first_other};
pub use runs::run_text;
