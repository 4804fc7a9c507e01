//! Drives a snapshot heap for tests and measurements: what each call of the heap asks is tested here, once for all of them.
#![tactic(auto)]

mod driver;
#[cfg(test)]
mod tests;

pub use driver::{Driven, Failed, Refused};
