//! A typed program as a judge of its checks: what the crates of the heap ask of a program that they cannot name.
#![tactic(auto)]

mod judging;

pub use judging::TypedJudge;
