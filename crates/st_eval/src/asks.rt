//! What an evaluation asks for, or answers.

use st_events::Plain;

/// What comes next in an evaluation.
#[derive(Clone, Copy, Debug, PartialEq, Eq)]
pub enum Ask {
    /// It needs the word of this cell, and goes on by it.
    Read {
        /// The object's number, from 1.
        obj: u32,
        /// From 0, in the order of the object's class.
        field: u8,
    },
    /// The check is over, with this value.
    Done(Plain),
}
