//! Rows over source texts: what a run leaves, what an audit finds, and what a thread's machine tells. Tests alone, with the calls that they share: they
//! stand apart from what they test, since a crate is proved again whole with its tests.
#![tactic(auto)]

#[cfg(test)]
mod tests;
