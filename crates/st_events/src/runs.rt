//! What a run leaves.
ghost use Rattle.std.specs.Prelude.{};

use crate::events::Event;
use crate::verdicts::{End, Verdict};
use std::marker::Model;

/// All that a run leaves, from which every output is written. Contracts see it as lists and a number.
#[derive(Drop)]
pub struct Ran {
    /// All events, in the order of their tickets.
    pub journal: Vec<Event>,
    /// The verdict of check `n` stands at `n - 1`.
    pub verdicts: Vec<Verdict>,
    /// The end of each thread, in the order of the thread blocks.
    pub ends: Vec<End>,
    /// How many copies of the pool are free at the end.
    pub free: u32,
}

impl Model for Ran {
    ghost use Rattle.st_events.specs.Ran.{RanLists};

    ghost Value = { RanLists };

    ghost view = { λ r. record { journal = r.journal.items; verdicts = r.verdicts.items; ends = r.ends.items; free = r.free } };
}
