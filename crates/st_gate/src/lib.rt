//! The gate: it keeps mutators out while one thread is alone with the table.
//! Mutators enter and leave; one that closes the gate waits until every other is out.
#![tactic(auto)]

mod closing;
mod entering;
mod kinds;
mod laws;

pub use closing::{close_gate, open_gate};
pub use entering::{enter, leave};
pub use kinds::{Alone, Inside};
