//! What an audit finds.
ghost use Rattle.std.specs.Prelude.{◌≡◌};
ghost use Rattle.st_audit.specs.declared.findings.Finding.TheVariants.{Memory};

use st_events::{NoMemory, Plain};

/// Why a journal and its verdicts are not right for a program: the first reason that applies, in the order of this list.
#[derive(Clone, Copy, Debug, PartialEq, Eq)]
pub enum Finding {
    /// Memory was refused. It tells nothing of the journal.
    Memory,
    /// The number of mutators is not that of the program's threads.
    WrongSizes,
    /// The event at this place, from 0, is the first that is not legal after those before it.
    NotLegal { place: u32 },
    /// Of the threads whose own events are not what their code does, this is the least; and its own event with this number, from 1, is the
    /// first that differs: it is another, or it is missing, or the thread has ended before it.
    NotTrace { thread: u8, event: u32 },
    /// There are so many launches, and so many verdicts, which differ.
    VerdictCount { launches: u32, verdicts: u32 },
    /// The check with this number, from 1, is the least whose verdict is wrong, and this is its plain value.
    WrongVerdict { number: u32, plain: Plain },
}

impl From<NoMemory> for Finding {
    ghost from_gives = { λ _ e. e ≡ Memory };

    fn from(_error: NoMemory) -> Finding {
        Finding::Memory
    }
}
