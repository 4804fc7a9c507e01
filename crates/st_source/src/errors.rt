//! Why a text is no source that can be run.
ghost use Rattle.std.specs.Prelude.{◌≡◌};
ghost use Rattle.st_source.specs.Stages.{lex_refusal, parse_refusal, type_refusal};

use st_lex::LexError;
use st_parse::ParseError;
use st_types::TypeError;

/// Why `read_source` gives no program. The first stage that refuses the text says why: its length, then its tokens, then
/// its tree, then its types.
#[derive(Clone, Copy, Debug, PartialEq, Eq)]
pub enum SourceError {
    /// Memory was asked for and refused, at whatever stage. It says nothing of the text.
    Memory,
    /// The text has more than `MOST_SOURCE_BYTES` bytes.
    TooLong,
    /// The text has no tokens; not for want of memory.
    Lex(LexError),
    /// The tokens have no tree within the limits; not for want of memory.
    Parse(ParseError),
    /// The tree breaks a rule of types; not for want of memory.
    Types(TypeError),
}

impl From<LexError> for SourceError {
    ghost from_gives = { λ why refusal. refusal ≡ lex_refusal why };

    fn from(why: LexError) -> SourceError {
        match why {
            LexError::Memory => SourceError::Memory,
            LexError::BadByte { .. } | LexError::LongNumber { .. } => SourceError::Lex(why),
        }
    }
}

impl From<ParseError> for SourceError {
    ghost from_gives = { λ why refusal. refusal ≡ parse_refusal why };

    fn from(why: ParseError) -> SourceError {
        match why {
            ParseError::Memory => SourceError::Memory,
            ParseError::Unexpected { .. }
            | ParseError::TooMany { .. }
            | ParseError::TooDeep { .. }
            | ParseError::TooLong { .. } => SourceError::Parse(why),
        }
    }
}

impl From<TypeError> for SourceError {
    ghost from_gives = { λ why refusal. refusal ≡ type_refusal why };

    fn from(why: TypeError) -> SourceError {
        match why {
            TypeError::Memory => SourceError::Memory,
            TypeError::UnknownName { .. }
            | TypeError::Twice { .. }
            | TypeError::Mismatch { .. }
            | TypeError::WrongCount { .. }
            | TypeError::NotPure { .. }
            | TypeError::NotHere { .. } => SourceError::Types(why),
        }
    }
}
