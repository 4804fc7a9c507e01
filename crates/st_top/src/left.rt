//! What a command leaves before it is written.

use st_events::Ran;
use std::marker::Model;

/// What a command leaves that was done. Contracts see lists.
#[derive(Drop)]
pub(crate) struct Left {
    /// All that it writes.
    pub(crate) output: Vec<u8>,
    /// The status that the call ends with once all of it is written.
    pub(crate) status: u8,
    /// The run, if there was one.
    pub(crate) ran: Option<Ran>,
}

impl Model for Left {
    ghost use Rattle.st_top.specs.Deeds.{Left as LeftLists};

    ghost Value = { LeftLists };

    ghost view = { λ left. record { output = left.output.items; status = left.status; ran = left.ran } };
}
