//! What each thread of a program does: one request of the heap after another, as the replies say, to its end. The right run of a
//! whole program stands here too. The one call is of laws, and computes nothing.
#![tactic(auto)]

mod laws;
mod limits;

pub use laws::laws_of_threads;
pub use limits::{CALL_COST, MOST_OPEN_CALLS, TURN_COST};
