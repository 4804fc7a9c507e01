//! A large source from a number: two threads, each of which turns so many times and launches a check every 16th.
#![tactic(auto)]

mod generating;
mod pieces;

pub use generating::{MOST_TURNS, generate};
