//! Rows of words, of journals' texts and of reports, and what is read and written of them: tests alone. They stand apart from the crates that they
//! test, since a crate is proved again whole with its tests.
#![tactic(auto)]

#[cfg(test)]
mod tests;
