//! Why a text is no journal.
ghost use Rattle.std.specs.Prelude.{◌≡◌};
ghost use Rattle.st_journal.specs.declared.errors.JournalError.TheVariants as journal;
ghost use Rattle.st_journal.specs.declared.errors.LineFault.TheVariants as fault;

use std::alloc::{AllocError, AllocFailed};
use thiserror::Error;

/// Why `read` gives no journal.
#[derive(Clone, Copy, Debug, PartialEq, Eq, Error)]
pub enum JournalError {
    /// Memory was asked for and refused.
    #[error("out of memory")]
    Memory,
    /// The first line that is not of the format. A text that stops early has it at the line that is cut or missing.
    #[error("journal line {line}")]
    BadLine {
        /// The line's number, from 1.
        line: u32,
    },
    /// The first line tells another version than the one that is read.
    #[error("journal version")]
    BadVersion,
}

/// Why a line could not be read.
#[derive(Clone, Copy, Debug, PartialEq, Eq)]
pub(crate) enum LineFault {
    /// Memory was asked for and refused.
    Memory,
    /// The line is not of the format.
    Bad,
}

impl LineFault {
    ghost use Rattle.st_journal.specs.Reading.{error_of};

    /// The error that tells this fault, at the line of this number.
    pub(crate) fn at(self, line: u32) -> JournalError
        ensures { result ≡ error_of self line }
    {
        match self {
            LineFault::Memory => JournalError::Memory,
            LineFault::Bad => JournalError::BadLine { line },
        }
    }
}

impl From<AllocError> for JournalError {
    ghost from_gives = { λ _ e. e ≡ journal.Memory };

    fn from(_error: AllocError) -> JournalError {
        JournalError::Memory
    }
}

impl<T: Drop> From<AllocFailed<T>> for JournalError {
    ghost from_gives = { λ _ e. e ≡ journal.Memory };

    fn from(_error: AllocFailed<T>) -> JournalError {
        JournalError::Memory
    }
}

impl From<AllocError> for LineFault {
    ghost from_gives = { λ _ e. e ≡ fault.Memory };

    fn from(_error: AllocError) -> LineFault {
        LineFault::Memory
    }
}

impl<T: Drop> From<AllocFailed<T>> for LineFault {
    ghost from_gives = { λ _ e. e ≡ fault.Memory };

    fn from(_error: AllocFailed<T>) -> LineFault {
        LineFault::Memory
    }
}
