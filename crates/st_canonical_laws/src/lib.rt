//! The canonical text of a tree reads back: the law, and a call that prints a tree and reads it again.
#![tactic(auto)]

mod laws;
mod rereading;

pub use laws::canonical_text_reads_back;
pub use rereading::reread;

#[cfg(test)]
mod sources;
#[cfg(test)]
mod tests;
