//! What a line after the second tells.

use st_events::{Event, Verdict};

/// What a line after the second tells.
#[derive(Clone, Copy)]
pub(crate) enum Row {
    /// An event.
    Event(Event),
    /// The verdict of the check of this number.
    Verdict { number: u32, verdict: Verdict },
    /// The last line: how many events and verdicts the lines before it tell.
    End { events: u32, verdicts: u32 },
}
