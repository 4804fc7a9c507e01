//! What is written: the output of a command, or the one line of a refusal.
ghost use Rattle.std.specs.Prelude.{◌≡◌, ◌≤◌, ◌⊎◌, None, OnOk, OnErr};
ghost use Rattle.st_top.specs.Endings.{IsToldRefusal};
ghost use Rattle.st_top.specs.Putting.{IsWritten, IsLinePut};
ghost use Rattle.st_top.specs.declared.errors.Refusal.TheVariants as refused;

use crate::errors::{NO_MEMORY_LINE, Refusal};
use crate::left::Left;
use crate::outcomes::Outcome;
use crate::putting::put_text;
use crate::statuses::{STATUS_NO_MEMORY, STATUS_WRITE_FAULT};
use st_io::{Sink, SinkFault};
use std::alloc::Global;

/// Writes what a command leaves.
pub(crate) fn publish<S: Sink>(left: Left, out: &mut S) -> Outcome
    ensures ran { result.ran ≡ left.ran }
    ensures written { IsWritten left.status left.output result.status (S.state out.old) (S.state out.new) }
    ensures sink { (S.state out.old).faults ≤ (S.state out.new).faults }
{
    let Left {
        output,
        status,
        ran,
    } = left;
    let put = put_text(out, &output);
    Outcome {
        status: status_of_put(put, status),
        ran,
    }
}

/// The status of a call whose output was put: its own, or that a write failed.
fn status_of_put(put: Result<(), SinkFault>, own: u8) -> u8
    ensures whole { OnOk put (result ≡ own) }
    ensures cut { OnErr put (result ≡ STATUS_WRITE_FAULT) }
{
    match put {
        Ok(()) => own,
        Err(SinkFault::Failed) => STATUS_WRITE_FAULT,
    }
}

/// Writes the line of a refusal, which is all that a call without an output writes. Where that fails, the refusal stands
/// all the same. Where there is no memory for the line, that is the refusal.
pub(crate) fn refuse<S: Sink>(alloc: Global, refusal: Refusal, out: &mut S) -> Outcome
    ensures told { IsToldRefusal refusal result (S.state out.old) (S.state out.new)
        ⊎ IsToldRefusal refused.NoMemory result (S.state out.old) (S.state out.new) }
    ensures sink { (S.state out.old).faults ≤ (S.state out.new).faults }
{
    match refusal.line(alloc) {
        Ok(line) => put_line(refusal.status(), &line, out),
        Err(_) => refuse_without_memory(out),
    }
}

/// Writes that there is no memory. The program calls it where there is none for the words that `strobe` takes.
pub fn refuse_without_memory<S: Sink>(out: &mut S) -> Outcome
    ensures told { IsToldRefusal refused.NoMemory result (S.state out.old) (S.state out.new) }
    ensures sink { (S.state out.old).faults ≤ (S.state out.new).faults }
{
    put_line(STATUS_NO_MEMORY, NO_MEMORY_LINE, out)
}

/// Puts the one line of a call that comes to nothing.
fn put_line<S: Sink>(status: u8, line: &[u8], out: &mut S) -> Outcome
    ensures status { result.status ≡ status }
    ensures ran { result.ran ≡ None }
    ensures line { IsLinePut line.now (S.state out.old) (S.state out.new) }
    ensures sink { (S.state out.old).faults ≤ (S.state out.new).faults }
{
    let _unheard = out.put(line);
    Outcome { status, ran: None }
}
