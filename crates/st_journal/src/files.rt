//! What a journal file holds.

use st_events::{Event, Sizes, Verdict};
use std::marker::Model;

/// What a journal text tells. Contracts see lists.
#[derive(Drop)]
pub struct JournalFile {
    /// The sizes of the run.
    pub sizes: Sizes,
    /// All events, in the order of their tickets.
    pub events: Vec<Event>,
    /// The verdict of check `n` stands at `n - 1`.
    pub verdicts: Vec<Verdict>,
}

impl Model for JournalFile {
    ghost use Rattle.st_journal.specs.Format.{FileLists};

    ghost Value = { FileLists };

    ghost view = { λ f. record { sizes = f.sizes; events = f.events.items; verdicts = f.verdicts.items } };
}
