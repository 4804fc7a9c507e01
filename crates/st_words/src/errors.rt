//! Why words are not read.
ghost use Rattle.std.specs.Prelude.{◌≡◌};
ghost use Rattle.st_words.specs.declared.errors.WordsError.TheVariants.{Memory};

use std::alloc::AllocError;
use thiserror::Error;

/// Why `read_words` gives no command.
#[derive(Clone, Copy, Debug, PartialEq, Eq, Error)]
pub enum WordsError {
    /// Memory was asked for and refused.
    #[error("out of memory")]
    Memory,
    /// The words are none that the program accepts.
    #[error("words refused")]
    Refused,
}

impl From<AllocError> for WordsError {
    ghost from_gives = { λ _ e. e ≡ Memory };

    fn from(_error: AllocError) -> WordsError {
        WordsError::Memory
    }
}
