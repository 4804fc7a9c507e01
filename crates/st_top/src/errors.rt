//! Why a call can come to nothing: each refusal has its line and its status.
ghost use Rattle.std.specs.Prelude.{◌≡◌, IfOk};
ghost use Rattle.st_top.specs.Refusals.{refusal_line as line_of, refusal_status};
ghost use Rattle.st_top.specs.declared.errors.Refusal.TheVariants.{NoMemory as NoMemoryRefusal};

use crate::statuses::{STATUS_INPUT, STATUS_NO_MEMORY, STATUS_READ_FAULT, STATUS_WORDS};
use st_events::NoMemory;
use st_source::{SourceError, refusal_line};
use std::alloc::Global;

/// Why a call comes to nothing. One line is written then.
#[derive(Clone, Copy)]
pub enum Refusal {
    /// The words are none that the program accepts.
    Words,
    /// There was no memory.
    NoMemory,
    /// A file could not be read to its end.
    ReadFault,
    /// The file of the source has more bytes than a source may have.
    SourceTooLong,
    /// The text is no source.
    Source(SourceError),
    /// The file of the journal has more bytes than a journal may have.
    JournalTooLong,
    /// The text is no journal: the line with this number, from 1, is the first that is not of the format.
    JournalLine {
        /// The line's number.
        number: u32,
    },
    /// The journal is of another version.
    JournalVersion,
}

impl Refusal {
    /// The line that is written, with its newline.
    pub(crate) fn line(self, alloc: Global) -> Result<Vec<u8>, NoMemory>
        ensures { IfOk result (λ line. line.items ≡ line_of self) }
    {
        match self {
            Refusal::Words => Ok(b"words refused\n".to_vec(alloc)?),
            Refusal::NoMemory => Ok(NO_MEMORY_LINE.to_vec(alloc)?),
            Refusal::ReadFault => Ok(b"read fault\n".to_vec(alloc)?),
            Refusal::SourceTooLong => Ok(b"source too long\n".to_vec(alloc)?),
            Refusal::Source(why) => refusal_line(alloc, why),
            Refusal::JournalTooLong => Ok(b"journal too long\n".to_vec(alloc)?),
            Refusal::JournalLine { number } => {
                Ok(format!(in alloc; "journal line {number}\n")?.into_bytes())
            }
            Refusal::JournalVersion => Ok(b"journal version\n".to_vec(alloc)?),
        }
    }

    /// The status of a call that was refused.
    pub(crate) fn status(self) -> u8
        ensures { result ≡ refusal_status self }
    {
        match self {
            Refusal::Words => STATUS_WORDS,
            Refusal::NoMemory => STATUS_NO_MEMORY,
            Refusal::ReadFault => STATUS_READ_FAULT,
            Refusal::SourceTooLong
            | Refusal::Source(_)
            | Refusal::JournalTooLong
            | Refusal::JournalLine { .. }
            | Refusal::JournalVersion => STATUS_INPUT,
        }
    }
}

/// The line where there is no memory.
pub(crate) const NO_MEMORY_LINE: &[u8; 10] = b"no memory\n";

impl From<NoMemory> for Refusal {
    ghost from_gives = { λ _ refusal. refusal ≡ NoMemoryRefusal };

    fn from(_error: NoMemory) -> Refusal {
        Refusal::NoMemory
    }
}
