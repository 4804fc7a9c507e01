//! Whether a journal and its verdicts are right for a program, and where the first wrong place is. Nothing is asked of where they come from.
//!
//! An audit goes over the events forwards, with one heap. First a replay finds the first event that is not legal. Then each thread's own
//! events are compared with what its code asks for, event by event. Then the versions that the pool lost are found, by stamps, active checks
//! and rows as the events go by, and only for the checks that claim to be abandoned. At last the heap is built once more, and each check is
//! evaluated when its launch is met. So the heap of a launch is never replayed from nothing. The cost is linear in the events, times the number of
//! threads or lanes at most, plus the reads of all checks. `audit` is what others call.
#![tactic(auto)]

mod audits;
mod counts;
mod differences;
mod evaluations;
mod findings;
mod heaps;
mod laws;
mod ledgers;
mod losses;
mod rows;
mod strays;
mod verdicts;

pub use audits::{audit, audit_program};
pub use findings::Finding;
pub use laws::laws_of_findings;
