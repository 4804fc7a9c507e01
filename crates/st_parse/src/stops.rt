//! Why a reader stops.
ghost use Rattle.std.specs.Prelude.{◌≡◌};
ghost use Rattle.st_parse.specs.declared.stops.Stop.TheVariants.{Memory};

use std::alloc::{AllocError, AllocFailed};

/// Why a reader stops. At `Fault` its cursor stands at the fault.
#[derive(Clone, Copy)]
pub enum Stop {
    /// Memory was asked for and refused.
    Memory,
    /// No rule goes on with the next token.
    Fault,
}

impl From<AllocError> for Stop {
    ghost from_gives = { λ _ e. e ≡ Memory };

    fn from(_error: AllocError) -> Stop {
        Stop::Memory
    }
}

impl<T: Drop> From<AllocFailed<T>> for Stop {
    ghost from_gives = { λ _ e. e ≡ Memory };

    fn from(_error: AllocFailed<T>) -> Stop {
        Stop::Memory
    }
}
