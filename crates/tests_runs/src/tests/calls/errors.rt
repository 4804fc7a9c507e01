//! Why a text can't be run.
ghost use Rattle.std.specs.Prelude.{};

use st_events::{NoMemory, ReplayError};
use st_source::SourceError;

/// Why a text can't be run.
#[derive(Clone, Copy, Debug, PartialEq, Eq)]
pub enum Unrun {
    /// The text is no accepted source.
    Source(SourceError),
    /// A number is beyond its limits, or the journal is too long to be read again.
    TooLarge,
    /// The journal can't be replayed.
    Replay(ReplayError),
    Memory,
}

impl From<NoMemory> for Unrun {
    fn from(_no_memory: NoMemory) -> Unrun {
        Unrun::Memory
    }
}

impl From<SourceError> for Unrun {
    fn from(why: SourceError) -> Unrun {
        Unrun::Source(why)
    }
}
