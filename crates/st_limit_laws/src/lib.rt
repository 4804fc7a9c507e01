//! What the parser's limits come to for its tree, and for the rules of types: laws, no code that runs.
#![tactic(auto)]

mod laws;

pub use laws::{few_of_each, within_limits};
