//! Why cases were not tried.

use st_events::NoMemory;
use st_io::FilesFault;
use std::alloc::{AllocError, AllocFailed};
use std::io;

/// Why cases were not tried.
#[derive(Drop)]
pub(crate) enum Trouble {
    /// There was no memory.
    Memory,
    /// A file of cases could not be read, or is too long.
    Unreadable,
    /// The command line, or the standard output, is not as it should be.
    Process,
    /// A line that begins as an order is none.
    NoOrder,
    /// A case begins before the one before it ends, an order stands outside of a case, or a text ends within one.
    Unended,
}

impl Trouble {
    /// What is told of it.
    pub(crate) fn text(&self) -> &'static str {
        match self {
            Trouble::Memory => "no memory",
            Trouble::Unreadable => "a file of cases cannot be read",
            Trouble::Process => "words or output failed",
            Trouble::NoOrder => "a line begins as an order and is none",
            Trouble::Unended => "an order stands outside of a case, or a case has no end",
        }
    }
}

impl From<AllocError> for Trouble {
    fn from(_error: AllocError) -> Trouble {
        Trouble::Memory
    }
}

impl<T: Drop> From<AllocFailed<T>> for Trouble {
    fn from(_error: AllocFailed<T>) -> Trouble {
        Trouble::Memory
    }
}

impl From<NoMemory> for Trouble {
    fn from(_error: NoMemory) -> Trouble {
        Trouble::Memory
    }
}

impl From<FilesFault> for Trouble {
    fn from(fault: FilesFault) -> Trouble {
        match fault {
            FilesFault::Memory => Trouble::Memory,
            FilesFault::Failed | FilesFault::TooLong => Trouble::Unreadable,
        }
    }
}

impl From<io::Error> for Trouble {
    fn from(_error: io::Error) -> Trouble {
        Trouble::Process
    }
}
