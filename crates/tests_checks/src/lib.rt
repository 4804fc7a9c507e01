//! Rows of checks, and what the evaluator asks and answers: tests alone. They stand apart from the evaluator, since a crate is proved again
//! whole with its tests.
#![tactic(auto)]

#[cfg(test)]
mod tests;
