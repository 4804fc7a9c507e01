//! Rows of texts, and what `parse` and `read_source` answer to them: tests alone. They stand apart from the crates that they test, since a crate
//! is proved again whole with its tests.
#![tactic(auto)]

#[cfg(test)]
mod tests;
