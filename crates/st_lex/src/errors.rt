//! Why a text has no list of tokens.
ghost use Rattle.std.specs.Prelude.{◌≡◌};
ghost use Rattle.st_lex.specs.declared.errors.LexError.TheVariants.{Memory};
ghost use Rattle.st_lex.specs.Errors.{error_at};

use st_events::Site;
use std::alloc::{AllocError, AllocFailed};
use thiserror::Error;

/// Why `tokens` gives no list.
#[derive(Clone, Copy, Debug, PartialEq, Eq, Error)]
pub enum LexError {
    /// Memory was asked for and refused.
    #[error("out of memory")]
    Memory,
    /// A byte that is no blank and begins no comment and no token; a single `&` or `|` is one.
    #[error("{line}:{column} bad byte", line = .at.line, column = .at.column)]
    BadByte {
        /// The place of the byte.
        at: Site,
    },
    /// A number above the largest that a text may name.
    #[error("{line}:{column} long number", line = .at.line, column = .at.column)]
    LongNumber {
        /// The place of its first digit.
        at: Site,
    },
}

/// What is wrong where no token stands.
#[derive(Clone, Copy)]
pub enum Fault {
    /// No token begins with the byte.
    BadByte,
    /// The number that begins here is too large.
    LongNumber,
}

impl Fault {
    /// The error that tells this fault, at a place.
    pub fn at(self, place: Site) -> LexError
        ensures { result ≡ error_at self place }
    {
        match self {
            Fault::BadByte => LexError::BadByte { at: place },
            Fault::LongNumber => LexError::LongNumber { at: place },
        }
    }
}

impl From<AllocError> for LexError {
    ghost from_gives = { λ _ e. e ≡ Memory };

    fn from(_error: AllocError) -> LexError {
        LexError::Memory
    }
}

impl<T: Drop> From<AllocFailed<T>> for LexError {
    ghost from_gives = { λ _ e. e ≡ Memory };

    fn from(_error: AllocFailed<T>) -> LexError {
        LexError::Memory
    }
}
