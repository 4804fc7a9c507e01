//! The top call, the same for words that were read, and the same over a text in memory.
ghost use Rattle.std.specs.Prelude.{◌≡◌, ◌≢◌, ◌≤◌, ◌⊎◌, ◌↔◌, Some, None, IsSome, IfSome};
ghost use Rattle.st_io.specs.Counts.{RoseBy};
ghost use Rattle.st_io.specs.States.{GoOn};
ghost use Rattle.st_top.specs.Commands.{IsInputAccepted, ReadsNoFile};
ghost use Rattle.st_top.specs.Endings.{IsEnded, IsDoneCall, IsRefusedCall, IsDoneStatus, IsRefusalStatus, AreWordsRefused};
ghost use Rattle.st_top.specs.Endings.{HasRunStatus, IsRefusedExactly, IsStatusOf, IsComplete};
ghost use Rattle.st_top.specs.Headline.{IsHeadline};
ghost use Rattle.st_top.specs.Orders.{order_of};
ghost use Rattle.st_top.specs.Putting.{untold_sink};
ghost use Rattle.st_words.specs.Accepted.{accepted_words, texts, HasFittingNumbers};

use crate::commands::perform;
use crate::errors::Refusal;
use crate::outcomes::Outcome;
use crate::statuses::{STATUS_NO_MEMORY, STATUS_READ_FAULT, STATUS_WORDS, STATUS_WRITE_FAULT};
use crate::writing::{publish, refuse, refuse_without_memory};
use st_io::{Files, NoPace, Pace, Sink, SureFiles, SureSink};
use st_words::{Words, WordsError, read_words};
use std::alloc::Global;
use std::sync::Wait;
use std::thread::Threads;

/// Does what the words, which are without the program's name, say, and writes what it comes to. Until runs on real threads
/// come, each run goes by a schedule, that of seed 0 where the words name none, and `--checkers` changes nothing; so the
/// call waits for nobody, and does not use its pace.
///
/// The status is the first that applies of: 2, the words are refused; 7, want of memory; 5, a read that failed; 3, a source
/// or a journal that is refused; 6, a write that failed; 4, a thread that does not come to its end; 1, a check that fails or
/// faults, or a finding of an audit; 8, a check without an answer; and 0. All that is written is had before any of it is
/// put. Each line is put by one call, with its newline, and nothing is put after a put that failed.
///
/// The clause `headline` says: If a run of an accepted program returns without device fault or want of memory, its journal is
/// one legal history of a one-thread heap, holding each mutator's steps once, in its order and to its end; every launched
/// check has one verdict, the predicate's plain value on the heap replayed up to that launch, or Abandoned, only where the
/// full copy pool lost a version that this evaluation reads.
pub fn strobe<R: Threads + Wait + Sync, F: Files, S: Sink, P: Pace + Sync>(
    _rt: &R,
    alloc: Global,
    words: &[String],
    files: &mut F,
    out: &mut S,
    _pace: &P,
) -> Outcome
    // The headline, of the words that were accepted.
    ensures headline { IfSome result.ran (λ ran. IfSome (accepted_words (texts words.now)) (λ accepted.
        IfSome (order_of (F.state files.old).told accepted) (λ order.
        IsHeadline order result.status ran (S.state out.old) (S.state out.new)))) }
    ensures ran { IfSome (accepted_words (texts words.now)) (λ accepted.
        IsSome result.ran ↔ (IsSome (order_of (F.state files.old).told accepted) × IsDoneStatus result.status)) }

    // What was done is written, or the line of a refusal, which has its cause.
    ensures ended { IfSome (accepted_words (texts words.now)) (λ accepted.
        IsEnded accepted (F.state files.old) (F.state files.new) result (S.state out.old) (S.state out.new)) }
    ensures done { IfSome (accepted_words (texts words.now)) (λ accepted. IsDoneStatus result.status
        → IsDoneCall (F.state files.old).told accepted result (S.state out.old) (S.state out.new)) }
    ensures refused { IfSome (accepted_words (texts words.now)) (λ accepted. IsRefusalStatus result.status
        → IsRefusedCall accepted (F.state files.old) (F.state files.new) result (S.state out.old) (S.state out.new)) }
    ensures words_refused { accepted_words (texts words.now) ≡ None → AreWordsRefused result (S.state out.old) (S.state out.new) }

    // The cause of each status but want of memory, which may come at any time.
    ensures words { result.status ≡ STATUS_WORDS → accepted_words (texts words.now) ≡ None }
    ensures read_fault { result.status ≡ STATUS_READ_FAULT → RoseBy 1 (F.state files.old).faults (F.state files.new).faults }
    ensures input { IfSome (accepted_words (texts words.now)) (λ accepted. IsRefusedExactly (F.state files.old).told accepted result.status) }
    ensures write_fault { result.status ≡ STATUS_WRITE_FAULT → RoseBy 1 (S.state out.old).faults (S.state out.new).faults }
    ensures run_status { IfSome result.ran (λ ran. result.status ≢ STATUS_WRITE_FAULT → HasRunStatus result.status ran) }
    ensures complete { IfSome (accepted_words (texts words.now)) (λ accepted. IsComplete accepted (F.state files.old) (F.state files.new)
        result.status (S.state out.old) (S.state out.new)) }

    // What is lent goes on: files tell what they told, and no count fell. With wrong words, and where the command reads no file,
    // the files are untouched.
    ensures files { GoOn (F.state files.old) (F.state files.new) }
    ensures untouched { IfSome (accepted_words (texts words.now)) ReadsNoFile → F.state files.new ≡ F.state files.old }
    ensures sink { (S.state out.old).faults ≤ (S.state out.new).faults }
{
    answer(alloc, words, files, out)
}

/// Does what words say that were read, as `strobe` does: the same of words in place of their texts. It returns.
///
/// The clause `headline` says: If a run of an accepted program returns without device fault or want of memory, its journal is
/// one legal history of a one-thread heap, holding each mutator's steps once, in its order and to its end; every launched
/// check has one verdict, the predicate's plain value on the heap replayed up to that launch, or Abandoned, only where the
/// full copy pool lost a version that this evaluation reads.
pub fn strobe_plain<F: Files, S: Sink>(
    alloc: Global,
    words: &Words,
    files: &mut F,
    out: &mut S,
) -> Outcome
    requires { HasFittingNumbers words.now }
    // The headline.
    ensures headline { IfSome result.ran (λ ran. IfSome (order_of (F.state files.old).told words.now) (λ order.
        IsHeadline order result.status ran (S.state out.old) (S.state out.new))) }
    ensures ran { IsSome result.ran ↔ (IsSome (order_of (F.state files.old).told words.now) × IsDoneStatus result.status) }

    // What was done is written, or the line of a refusal, which has its cause.
    ensures ended { IsEnded words.now (F.state files.old) (F.state files.new) result (S.state out.old) (S.state out.new) }
    ensures done { IsDoneStatus result.status
        → IsDoneCall (F.state files.old).told words.now result (S.state out.old) (S.state out.new) }
    ensures refused { IsRefusalStatus result.status
        → IsRefusedCall words.now (F.state files.old) (F.state files.new) result (S.state out.old) (S.state out.new) }

    // The cause of each status but want of memory, which may come at any time.
    ensures words { result.status ≢ STATUS_WORDS }
    ensures read_fault { result.status ≡ STATUS_READ_FAULT → RoseBy 1 (F.state files.old).faults (F.state files.new).faults }
    ensures input { IsRefusedExactly (F.state files.old).told words.now result.status }
    ensures write_fault { result.status ≡ STATUS_WRITE_FAULT → RoseBy 1 (S.state out.old).faults (S.state out.new).faults }
    ensures run_status { IfSome result.ran (λ ran. result.status ≢ STATUS_WRITE_FAULT → HasRunStatus result.status ran) }
    ensures complete { IsComplete words.now (F.state files.old) (F.state files.new) result.status (S.state out.old) (S.state out.new) }

    // What is lent goes on: files tell what they told, and no count fell. Where the command reads no file the files are untouched.
    ensures files { GoOn (F.state files.old) (F.state files.new) }
    ensures untouched { ReadsNoFile words.now → F.state files.new ≡ F.state files.old }
    ensures sink { (S.state out.old).faults ≤ (S.state out.new).faults }
{
    do_words(alloc, words, files, out)
}

/// `strobe` over one text, which is that of every file, and a sink that takes everything and keeps nothing: no device can fail,
/// and each answer but want of memory has its exact cause. It serves every command that reads one source, or none.
pub fn strobe_on_text<R: Threads + Wait + Sync>(
    rt: &R,
    alloc: Global,
    words: &[String],
    text: Vec<u8>,
) -> Outcome
    // The headline, of the words that were accepted, and what was done.
    ensures headline { IfSome result.ran (λ ran. IfSome (accepted_words (texts words.now)) (λ accepted.
        IfSome (order_of (λ _. Some text.items) accepted) (λ order. IsHeadline order result.status ran untold_sink untold_sink))) }
    ensures done { IfSome (accepted_words (texts words.now)) (λ accepted. IsDoneStatus result.status
        → IsDoneCall (λ _. Some text.items) accepted result untold_sink untold_sink) }
    ensures words_refused { accepted_words (texts words.now) ≡ None → AreWordsRefused result untold_sink untold_sink }

    // The cause of each status.
    ensures words { result.status ≡ STATUS_WORDS → accepted_words (texts words.now) ≡ None }
    ensures input { IfSome (accepted_words (texts words.now)) (λ accepted. IsRefusedExactly (λ _. Some text.items) accepted result.status) }
    ensures no_read_fault { result.status ≢ STATUS_READ_FAULT }
    ensures no_write_fault { result.status ≢ STATUS_WRITE_FAULT }
    ensures ran { IfSome (accepted_words (texts words.now)) (λ accepted.
        IsSome result.ran ↔ (IsSome (order_of (λ _. Some text.items) accepted) × IsDoneStatus result.status)) }
    ensures run_status { IfSome result.ran (λ ran. HasRunStatus result.status ran) }

    // With words and a text that are accepted, the command is done, or there was no memory.
    ensures complete { IfSome (accepted_words (texts words.now)) (λ accepted. IsInputAccepted (λ _. Some text.items) accepted
        → IsStatusOf accepted result.status ⊎ (result.status ≡ STATUS_NO_MEMORY)) }
{
    let mut files = SureFiles::make(text);
    strobe(rt, alloc, words, &mut files, &mut SureSink, &NoPace)
}

/// What `strobe` does.
fn answer<F: Files, S: Sink>(alloc: Global, words: &[String], files: &mut F, out: &mut S) -> Outcome
    ensures ended { IfSome (accepted_words (texts words.now)) (λ accepted. IsEnded accepted (F.state files.old) (F.state files.new) result (S.state out.old) (S.state out.new)) }
    ensures words_refused { accepted_words (texts words.now) ≡ None → AreWordsRefused result (S.state out.old) (S.state out.new) }
    ensures files { GoOn (F.state files.old) (F.state files.new) }
    ensures untouched { IfSome (accepted_words (texts words.now)) ReadsNoFile → F.state files.new ≡ F.state files.old }
    ensures sink { (S.state out.old).faults ≤ (S.state out.new).faults }
{
    match read_words(alloc, words) {
        Ok(words) => do_words(alloc, &words, files, out),
        Err(WordsError::Memory) => refuse_without_memory(out),
        Err(WordsError::Refused) => refuse(alloc, Refusal::Words, out),
    }
}

/// What is done with words that were read.
fn do_words<F: Files, S: Sink>(alloc: Global, words: &Words, files: &mut F, out: &mut S) -> Outcome
    requires { HasFittingNumbers words.now }
    ensures ended { IsEnded words.now (F.state files.old) (F.state files.new) result (S.state out.old) (S.state out.new) }
    ensures files { GoOn (F.state files.old) (F.state files.new) }
    ensures untouched { ReadsNoFile words.now → F.state files.new ≡ F.state files.old }
    ensures sink { (S.state out.old).faults ≤ (S.state out.new).faults }
{
    match perform(alloc, words, files) {
        Ok(left) => publish(left, out),
        Err(refusal) => refuse(alloc, refusal, out),
    }
}
