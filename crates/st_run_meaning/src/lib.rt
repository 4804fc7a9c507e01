//! The run of a program on one thread, as a seed chooses whose turn it is: a model of its own, with no copies and no stamps. The one
//! call is of laws, and computes nothing.
#![tactic(auto)]

mod laws;
mod limits;

pub use laws::laws_of_schedules;
pub use limits::{INCREMENT, LOW_BITS, MULTIPLIER};
