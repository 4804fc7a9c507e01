//! Rows of the program, over files and a sink in memory: tests alone. They stand apart from the top call, since a crate is proved again whole
//! with its tests.
#![tactic(auto)]

#[cfg(test)]
mod tests;
