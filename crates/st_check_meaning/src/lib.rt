//! What a check means: its plain value on a heap, and the cells that it reads. The one call is of laws, and computes nothing.
#![tactic(auto)]

mod laws;
mod limits;

pub use laws::laws_of_checks;
pub use limits::MOST_DEPTH;
