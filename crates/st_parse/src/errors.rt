//! Why a text has no tree.
ghost use Rattle.std.specs.Prelude.{◌≡◌};
ghost use Rattle.st_parse.specs.declared.errors.ParseError.TheVariants.{Memory};

use st_events::Site;
use st_grammar::What;
use std::alloc::{AllocError, AllocFailed};
use std::fmt;
use thiserror::Error;

/// Why `parse` gives no tree.
#[derive(Clone, Copy, Debug, PartialEq, Eq, Error)]
pub enum ParseError {
    /// Memory was asked for and refused.
    #[error("out of memory")]
    Memory,
    /// The first token such that the tokens up to it begin no text of the grammar; without one, the place after the
    /// last byte of the text.
    #[error("{line}:{column} unexpected", line = .at.line, column = .at.column)]
    Unexpected {
        /// The place of the token.
        at: Site,
    },
    /// The first declaration, parameter, local or check above its limit.
    #[error("{line}:{column} too many {what}", line = .at.line, column = .at.column)]
    TooMany {
        /// What there is too much of.
        what: What,
        /// Of an argument its first mention, of a check the word `check`, of everything else the name.
        at: Site,
    },
    /// A brace that would be open beside `MOST_OPEN_BRACES` others.
    #[error("{line}:{column} too deep", line = .at.line, column = .at.column)]
    TooDeep {
        /// The place of the brace.
        at: Site,
    },
    /// A token after `MOST_TOKENS_BETWEEN` others since the last of `;`, `{`, `}` or the start.
    #[error("{line}:{column} too long", line = .at.line, column = .at.column)]
    TooLong {
        /// The place of the token.
        at: Site,
    },
}

impl From<AllocError> for ParseError {
    ghost from_gives = { λ _ e. e ≡ Memory };

    fn from(_error: AllocError) -> ParseError {
        ParseError::Memory
    }
}

impl<T: Drop> From<AllocFailed<T>> for ParseError {
    ghost from_gives = { λ _ e. e ≡ Memory };

    fn from(_error: AllocFailed<T>) -> ParseError {
        ParseError::Memory
    }
}
