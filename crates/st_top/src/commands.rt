//! The commands, each from its words to what it leaves.
ghost use Rattle.std.specs.Prelude.{◌≡◌, ◌≤◌, IfOk, IfErr};
ghost use Rattle.st_gen.specs.Source.{source_text};
ghost use Rattle.st_io.specs.States.{GoOn};
ghost use Rattle.st_top.specs.Causes.{IsSourceCause, IsTextCause};
ghost use Rattle.st_top.specs.Commands.{IsDone, HasCause, ReadsNoFile};
ghost use Rattle.st_top.specs.Deeds.{IsRunAs, IsChecked, IsGenerated};
ghost use Rattle.st_top.specs.Orders.{run_order, demo_order};
ghost use Rattle.st_top.specs.declared.errors.Refusal.TheVariants as refused;
ghost use Rattle.st_words.specs.Accepted.{HasFittingNumbers};
ghost use Rattle.st_words.specs.declared.words.Words.TheVariants as words_of;
ghost use Rattle.st_words.specs.declared.limits.TheConstants.{MOST_TURNS};

use crate::errors::Refusal;
use crate::heads::make_accepted_line;
use crate::journals::{audit_journal, read_journal};
use crate::left::Left;
use crate::runs::{run_as_asked, run_as_demo};
use crate::sources::{read_program, type_source};
use crate::statuses::STATUS_DONE;
use st_events::NoMemory;
use st_gen::generate;
use st_io::Files;
use st_words::{FileName, RunWords, Words};
use std::alloc::Global;

/// Does what the words say, up to the writing.
pub(crate) fn perform<F: Files>(
    alloc: Global,
    words: &Words,
    files: &mut F,
) -> Result<Left, Refusal>
    requires { HasFittingNumbers words.now }
    ensures done { IfOk result (IsDone (F.state files.old).told words.now) }
    ensures cause { IfErr result (HasCause words.now (F.state files.old) (F.state files.new)) }
    ensures files { GoOn (F.state files.old) (F.state files.new) }
    ensures untouched { ReadsNoFile words.now → F.state files.new ≡ F.state files.old }
{
    match words {
        Words::Run(call) => run_file(alloc, call, files),
        Words::Check { file } => check_file(alloc, file, files),
        Words::Audit { file, journal } => audit_files(alloc, file, journal, files),
        Words::Gen { n } => make_source(alloc, *n),
        Words::Demo { n } => run_demo(alloc, *n),
    }
}

/// `run FILE`.
fn run_file<F: Files>(alloc: Global, call: &RunWords, files: &mut F) -> Result<Left, Refusal>
    requires { HasFittingNumbers (words_of.Run call.now) }
    ensures done { IfOk result (IsRunAs (run_order ((F.state files.old).told call.now.file) call.now)) }
    ensures cause { IfErr result (IsSourceCause ((F.state files.old).told call.now.file) (F.state files.old) (F.state files.new)) }
    ensures files { GoOn (F.state files.old) (F.state files.new) }
{
    match read_program(alloc, files, call.file.as_str()) {
        Ok(typed) => Ok(run_as_asked(alloc, &typed, call)?),
        Err(refusal) => Err(refusal),
    }
}

/// `check FILE`.
fn check_file<F: Files>(alloc: Global, file: &FileName, files: &mut F) -> Result<Left, Refusal>
    ensures done { IfOk result (IsChecked ((F.state files.old).told file.now)) }
    ensures cause { IfErr result (IsSourceCause ((F.state files.old).told file.now) (F.state files.old) (F.state files.new)) }
    ensures files { GoOn (F.state files.old) (F.state files.new) }
{
    match read_program(alloc, files, file.as_str()) {
        Ok(typed) => Ok(Left {
            output: make_accepted_line(alloc, &typed)?,
            status: STATUS_DONE,
            ran: None,
        }),
        Err(refusal) => Err(refusal),
    }
}

/// `audit FILE JOURNAL`. The source is read and typed first, then the journal.
fn audit_files<F: Files>(
    alloc: Global,
    file: &FileName,
    journal: &FileName,
    files: &mut F,
) -> Result<Left, Refusal>
    ensures done { IfOk result (IsDone (F.state files.old).told (words_of.Audit file.now journal.now)) }
    ensures cause { IfErr result (HasCause (words_of.Audit file.now journal.now) (F.state files.old) (F.state files.new)) }
    ensures files { GoOn (F.state files.old) (F.state files.new) }
{
    let typed = match read_program(alloc, files, file.as_str()) {
        Ok(typed) => typed,
        Err(refusal) => return Err(refusal),
    };
    match read_journal(alloc, files, journal.as_str()) {
        Ok(told) => Ok(audit_journal(alloc, &typed, &told)?),
        Err(refusal) => Err(refusal),
    }
}

/// `gen N`.
fn make_source(alloc: Global, n: u32) -> Result<Left, Refusal>
    requires { (1 ≤ n) × (n ≤ MOST_TURNS) }
    ensures done { IfOk result (IsGenerated n) }
    ensures cause { IfErr result (λ refusal. refusal ≡ refused.NoMemory) }
{
    Ok(Left {
        output: generate(alloc, n)?,
        status: STATUS_DONE,
        ran: None,
    })
}

/// `demo N`.
fn run_demo(alloc: Global, n: u32) -> Result<Left, Refusal>
    requires { (1 ≤ n) × (n ≤ MOST_TURNS) }
    ensures done { IfOk result (IsRunAs (demo_order n)) }
    ensures cause { IfErr result (IsTextCause (source_text n)) }
{
    let text = generate(alloc, n)?;
    match type_source(alloc, &text) {
        Ok(typed) => Ok(run_as_demo(alloc, &typed)?),
        Err(refusal) => Err(refusal),
    }
}
