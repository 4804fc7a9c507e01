//! From a file, or from a text, to a program.
ghost use Rattle.std.specs.Prelude.{IfOk, IfErr};
ghost use Rattle.st_io.specs.States.{GoOn};
ghost use Rattle.st_source.specs.Accepted.{IsSourceOf};
ghost use Rattle.st_top.specs.Causes.{IsSourceCause, IsTextCause};
ghost use Rattle.st_top.specs.Programs.{IsOfSource};

use crate::errors::Refusal;
use st_io::{Files, FilesFault};
use st_lex::MOST_SOURCE_BYTES;
use st_source::{SourceError, read_source};
use st_types::Typed;
use std::alloc::Global;

/// The program of the source in the file of this name.
pub(crate) fn read_program<F: Files>(
    alloc: Global,
    files: &mut F,
    name: &str,
) -> Result<Typed, Refusal>
    ensures accepted { IfOk result (λ typed. IsOfSource ((F.state files.old).told name.now) typed.program) }
    ensures cause { IfErr result (IsSourceCause ((F.state files.old).told name.now) (F.state files.old) (F.state files.new)) }
    ensures files { GoOn (F.state files.old) (F.state files.new) }
{
    let mut text = Vec::new(alloc);
    match files.read_whole(name, MOST_SOURCE_BYTES as u32, &mut text) {
        Ok(()) => type_source(alloc, &text),
        Err(FilesFault::Memory) => Err(Refusal::NoMemory),
        Err(FilesFault::Failed) => Err(Refusal::ReadFault),
        Err(FilesFault::TooLong) => Err(Refusal::SourceTooLong),
    }
}

/// The program of the source.
pub(crate) fn type_source(alloc: Global, text: &[u8]) -> Result<Typed, Refusal>
    ensures accepted { IfOk result (λ typed. IsSourceOf text.now typed.program) }
    ensures cause { IfErr result (IsTextCause text.now) }
{
    match read_source(alloc, text) {
        Ok(typed) => Ok(typed),
        Err(why) => {
            if why == SourceError::Memory {
                Err(Refusal::NoMemory)
            } else {
                Err(Refusal::Source(why))
            }
        }
    }
}
