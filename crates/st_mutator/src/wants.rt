//! What a thread asks for, or how it ended.

use st_events::{Args, End};

/// What a thread needs next. The reply to it is handed to the next call.
#[derive(Clone, Copy, Debug, PartialEq, Eq)]
pub enum Want {
    /// A new object of this class, from 1. The reply is the object's number.
    New {
        class: u8,
    },
    /// The word of a cell, which is the reply.
    Load {
        obj: u32,
        field: u8,
    },
    /// A word to be stored in a cell. The reply is 0.
    Store {
        obj: u32,
        field: u8,
        value: u64,
    },
    /// Where the word of the cell is `expect`, `value` is to be stored there. The reply is 1 where it was, else 0.
    Cas {
        obj: u32,
        field: u8,
        expect: u64,
        value: u64,
    },
    /// The launch of a check. The reply is 0.
    Launch {
        /// The number of the check statement, from 0 in source order.
        site: u16,
        args: Args,
    },
    /// The thread has ended so.
    End(End),
}
