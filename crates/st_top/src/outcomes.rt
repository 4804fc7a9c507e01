//! What a call of the program leaves.

use st_events::Ran;

/// What a call of the program leaves.
#[derive(Drop)]
pub struct Outcome {
    /// How the call ended: 0, 4, 1 or 8 where the output was written whole, of which a run has the first that applies of 4
    /// (a thread that does not come to its end), 1 (a check that fails or faults), 8 (a check without an answer) and 0, and
    /// an audit 1 where it found something, else 0; 2 where the words are refused; 3 where the source or the journal is; 5
    /// where a read failed; 6 where a write of the output failed; 7 where there was no memory.
    pub status: u8,
    /// What the run left, where there was one: with `run` and `demo`, and the statuses 0, 1, 4, 6 and 8.
    pub ran: Option<Ran>,
}
