//! Scheduled runs: every program on one thread, its threads and its checks taking turns as a seed says. The heap is the snapshot heap, the
//! threads are machines, the checks are evaluators; all memory is taken at the opening.
#![tactic(auto)]

mod agents;
mod answering;
mod checks;
mod closing;
mod opening;
mod retiring;
mod running;
mod runs;
mod seats;
mod turns;
mod typed_runs;

pub use runs::run_resolved;
pub use typed_runs::run_scheduled;
