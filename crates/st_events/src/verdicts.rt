//! What a check answers, and how a thread ends.

use crate::events::Site;

/// The value of a check on one heap.
#[derive(Clone, Copy, Debug, PartialEq, Eq)]
pub enum Plain {
    /// The expression is true.
    Holds,
    /// The expression is false.
    Fails,
    /// A field of null was read, at the `.`.
    Null(Site),
    /// A division or remainder by zero, at the operator.
    Divide(Site),
    /// A result outside the range of a 64-bit signed number, at the operator.
    Overflow(Site),
    /// The budget of predicate calls ran out.
    Spent,
    /// Predicate calls were nested too deep.
    Deep,
}

/// The answer of a launched check.
#[derive(Clone, Copy, Debug, PartialEq, Eq)]
pub enum Verdict {
    /// The value of the check on the heap as it stood at its launch.
    Plain(Plain),
    /// The version of this object that the check reads was lost in the full pool of copies.
    Abandoned {
        /// The object's number, from 1.
        obj: u32,
    },
}

/// How a thread came to its end.
#[derive(Clone, Copy, Debug, PartialEq, Eq)]
pub enum End {
    /// At the end of its block.
    Finished,
    /// A field of null was read or written, at the `.`.
    Null(Site),
    /// A division or remainder by zero, at the operator.
    Divide(Site),
    /// A result outside the range of a 64-bit signed number, at the operator.
    Overflow(Site),
    /// The thread had made all objects of its region, at `new`.
    HeapFull(Site),
    /// The charge for events ran out.
    EventsSpent,
    /// Procedure calls were nested too deep, at the name.
    ProcDeep(Site),
}
