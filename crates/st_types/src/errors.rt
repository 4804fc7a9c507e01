//! Why a tree is no program.
ghost use Rattle.std.specs.Prelude.{◌≡◌};
ghost use Rattle.st_types.specs.declared.errors.TypeError.TheVariants.{Memory};

use st_events::Site;
use std::alloc::{AllocError, AllocFailed};
use thiserror::Error;

/// A kind as a mismatch tells it.
#[derive(Clone, Copy, Debug, PartialEq, Eq)]
pub enum Wanted {
    /// A number.
    Int,
    /// `true` or `false`.
    Bool,
    /// A reference to an object of this class, from 1.
    Ref(u8),
    /// A reference to an object of any class. Nothing is found to be so.
    AnyRef,
    /// `null`. Nothing is wanted to be so.
    Null,
}

/// The first node, in the order of the walk, that breaks a rule; `at` is its place.
#[derive(Clone, Copy, Debug, PartialEq, Eq, Error)]
pub enum TypeError {
    /// Memory was asked for and refused.
    #[error("no memory")]
    Memory,
    /// Nothing of this name is known here.
    #[error("unknown name")]
    UnknownName {
        at: Site,
    },
    /// The name is declared before, in the same space.
    #[error("declared twice")]
    Twice {
        at: Site,
    },
    /// An expression or value has another kind than the one that is asked there.
    #[error("mismatch")]
    Mismatch {
        /// That of the expression or value.
        at: Site,
        wanted: Wanted,
        found: Wanted,
    },
    /// Another number of arguments than of parameters.
    #[error("wrong count")]
    WrongCount {
        at: Site,
    },
    /// A procedure is called in a predicate or a check.
    #[error("not pure")]
    NotPure {
        at: Site,
    },
    /// A call in an expression of a thread or procedure, or of a predicate as a statement.
    #[error("not here")]
    NotHere {
        at: Site,
    },
}

impl From<AllocError> for TypeError {
    ghost from_gives = { λ _ e. e ≡ Memory };

    fn from(_error: AllocError) -> TypeError {
        TypeError::Memory
    }
}

impl<T: Drop> From<AllocFailed<T>> for TypeError {
    ghost from_gives = { λ _ e. e ≡ Memory };

    fn from(_error: AllocFailed<T>) -> TypeError {
        TypeError::Memory
    }
}
