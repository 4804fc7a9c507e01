//! A run in progress.

use crate::agents::Agent;
use crate::checks::ActiveCheck;
use crate::seats::Seat;
use st_eval::Eval;
use st_events::{End, Verdict};
use st_snap::SnapHeap;

/// Where a run stands. All its memory is taken at the opening.
#[derive(Drop)]
pub(crate) struct Running {
    pub heap: SnapHeap,
    /// By number of the thread.
    pub seats: Vec<Seat>,
    /// The active checks, in order of number.
    pub checks: Vec<ActiveCheck>,
    /// The evaluators of the idle lanes.
    pub idle: Vec<Eval>,
    /// The verdict of check `n` stands at `n - 1` once it is retired.
    pub verdicts: Vec<Verdict>,
    /// Who can take the next turn, while it is chosen.
    pub ready: Vec<Agent>,
    /// Room for the ends of the threads.
    pub ends: Vec<End>,
    /// The number by which the last turn was chosen.
    pub x: u64,
}
