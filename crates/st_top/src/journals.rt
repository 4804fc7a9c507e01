//! From a file to a journal, and the audit of one.
ghost use Rattle.std.specs.Prelude.{◌≤◌, ℕ, List, Option, length, IfOk, IfErr};
ghost use Rattle.st_io.specs.States.{GoOn};
ghost use Rattle.st_journal.specs.Format.{IsFile};
ghost use Rattle.st_top.specs.Causes.{IsJournalCause, IsJournalTextCause};
ghost use Rattle.st_top.specs.Deeds.{IsAudited, IsJournalOf, IsOfJournal};
ghost use Rattle.st_top.specs.Programs.{IsOfSource};

use crate::errors::Refusal;
use crate::left::Left;
use crate::limits::MOST_JOURNAL_BYTES;
use crate::outputs::{NOTHING_FOUND_LINE, make_finding_line};
use crate::statuses::{STATUS_DONE, STATUS_FOUND};
use st_audit::{Finding, audit};
use st_events::NoMemory;
use st_io::{Files, FilesFault};
use st_journal::{JournalError, JournalFile, read};
use st_types::Typed;
use std::alloc::Global;

/// What the journal in the file of this name tells.
pub(crate) fn read_journal<F: Files>(
    alloc: Global,
    files: &mut F,
    name: &str,
) -> Result<JournalFile, Refusal>
    ensures fits { IfOk result IsFile }
    ensures read { IfOk result (IsOfJournal ((F.state files.old).told name.now)) }
    ensures cause { IfErr result (IsJournalCause ((F.state files.old).told name.now) (F.state files.old) (F.state files.new)) }
    ensures files { GoOn (F.state files.old) (F.state files.new) }
{
    let mut text = Vec::new(alloc);
    match files.read_whole(name, MOST_JOURNAL_BYTES, &mut text) {
        Ok(()) => parse_journal(alloc, &text),
        Err(FilesFault::Memory) => Err(Refusal::NoMemory),
        Err(FilesFault::Failed) => Err(Refusal::ReadFault),
        Err(FilesFault::TooLong) => Err(Refusal::JournalTooLong),
    }
}

/// What the text of a journal tells.
#[tactic(auto, using(crate::proofs::ReadingLemmas::read_text_is_its_journal, crate::proofs::ReadingLemmas::read_file_is_one))]
fn parse_journal(alloc: Global, text: &[u8]) -> Result<JournalFile, Refusal>
    requires { length text.now ≤ MOST_JOURNAL_BYTES }
    ensures fits { IfOk result IsFile }
    ensures read { IfOk result (IsJournalOf text.now) }
    ensures cause { IfErr result (IsJournalTextCause text.now) }
{
    match read(alloc, text) {
        Ok(file) => Ok(file),
        Err(JournalError::Memory) => Err(Refusal::NoMemory),
        Err(JournalError::BadLine { line }) => Err(Refusal::JournalLine { number: line }),
        Err(JournalError::BadVersion) => Err(Refusal::JournalVersion),
    }
}

/// What is left of an audit of the journal against the program.
pub(crate) fn audit_journal(
    alloc: Global,
    typed: &Typed,
    file: &JournalFile,
) -> Result<Left, NoMemory>
    requires { IsFile file.now }
    ensures { IfOk result (λ left. (source journal : Option (List ℕ))
        → IsOfSource source typed.now.program
        → IsOfJournal journal file.now
        → IsAudited source journal left) }
{
    let _numbers = typed.resolved();
    let _shape = typed.shape();
    match audit(alloc, typed, &file.sizes, &file.events, &file.verdicts) {
        Ok(()) => Ok(Left {
            output: NOTHING_FOUND_LINE.to_vec(alloc)?,
            status: STATUS_DONE,
            ran: None,
        }),
        Err(finding) => {
            if finding == Finding::Memory {
                return Err(NoMemory);
            }
            Ok(Left {
                output: make_finding_line(alloc, finding)?,
                status: STATUS_FOUND,
                ran: None,
            })
        }
    }
}
