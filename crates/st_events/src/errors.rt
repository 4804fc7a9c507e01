//! Why a call does not succeed: the answers that several crates share, and those of `replay`.
ghost use Rattle.std.specs.Prelude.{◌≡◌};
ghost use Rattle.st_events.specs.declared.errors.ReplayError.TheVariants.{Memory};

use std::alloc::{AllocError, AllocFailed};

/// Memory was asked for and refused. Nothing that was lent has changed.
#[derive(Clone, Copy, Debug, PartialEq, Eq)]
pub struct NoMemory;

/// As many checks are active as there are lanes.
#[derive(Clone, Copy, Debug, PartialEq, Eq)]
pub struct NoLane;

/// The version of an object that a check would read was lost, since the pool of copies was full at a change.
#[derive(Clone, Copy, Debug, PartialEq, Eq)]
pub struct Lost {
    /// The object's number, from 1.
    pub obj: u32,
}

impl From<AllocError> for NoMemory {
    fn from(_error: AllocError) -> NoMemory {
        NoMemory
    }
}

impl<T: Drop> From<AllocFailed<T>> for NoMemory {
    fn from(_error: AllocFailed<T>) -> NoMemory {
        NoMemory
    }
}

/// The first reason that applies, in the order of this list, where an event is not legal after those before it.
#[derive(Clone, Copy, Debug, PartialEq, Eq)]
pub enum Why {
    /// There is no such mutator; for a Retire, neither a mutator nor the main thread has the number.
    WrongThread,
    /// The object does not exist; for a New, it is not the next of the mutator's region, or the region is full.
    WrongObject,
    /// The object has no such field; for a New, the class is not declared.
    WrongField,
    /// For a Launch, not one more than the launches before; for a Retire, the check is not active.
    WrongNumber,
    /// There is no such check statement.
    WrongSite,
    /// For a Load, not the heap's word; else a word has not its kind, or the arguments of a check are not its statement's.
    WrongValue,
    /// `done` does not say whether the heap's word was the expected one.
    WrongDone,
    /// As many checks are active as there are lanes.
    NoLane,
}

/// What `replay` answers where it gives no heap.
#[derive(Clone, Copy, Debug, PartialEq, Eq)]
pub enum ReplayError {
    /// Memory was refused.
    Memory,
    /// The event at this place, from 0, is the first that is not legal after those before it, for this first reason.
    NotLegal { place: u32, why: Why },
}

impl From<NoMemory> for ReplayError {
    ghost from_gives = { λ _ e. e ≡ Memory };

    fn from(_error: NoMemory) -> ReplayError {
        ReplayError::Memory
    }
}
