//! What the words of a call say.
ghost use Rattle.std.specs.Prelude.{◌≡◌, ◌↔◌, option_map, IfOk, IfSome};
ghost use Rattle.st_words.specs.declared.words.Words.TheVariants.{Run, Audit, Gen, Demo};
ghost use Rattle.clap.specs.Words.{found_of, rows_of, subcommand_rows_of};
ghost use Rattle.clap.specs.declared.error.ErrorKind.TheVariants.{OutOfMemory};
ghost use Rattle.st_words.specs.Accepted.{accepted_words, audit_of, check_of, command_value, run_of, run_with as run_told, texts, turns_of as turns_told_of, value_of, IsAnswerTo, AreWithin, HasFittingNumbers};
ghost use Rattle.st_words.specs.declared.errors.WordsError.TheVariants.{Memory};

use crate::choices::{Numbers, Way};
use crate::command::command_line;
use crate::errors::WordsError;
use crate::options::{numbers_of, text_of, turns_of, way_of};
use crate::words::{FileName, RunWords, Words};
use clap::ArgMatches;
use clap::error::ErrorKind;
use std::alloc::Global;

/// What the words say, which are without the program's name: a command, its names, and its options and flags before, between
/// and after them. `Refused` comes exactly where the words are none that the program accepts, but for want of memory.
pub fn read_words(alloc: Global, words: &[String]) -> Result<Words, WordsError>
    ensures accepted { IsAnswerTo (accepted_words (texts words.now)) result }
    ensures limits { IfOk result HasFittingNumbers }
{
    let line = command_line(alloc)?;
    match line.try_get_matches_from(words) {
        Ok(matches) => value_of_matches(alloc, &matches),
        Err(error) => Err(refusal(error.kind())),
    }
}

/// Why clap finds no matches: it wants memory, or there is a fault in the words.
fn refusal(kind: ErrorKind) -> WordsError
    ensures { (result ≡ Memory) ↔ (kind ≡ OutOfMemory) }
{
    if kind == ErrorKind::OutOfMemory {
        WordsError::Memory
    } else {
        WordsError::Refused
    }
}

/// What the words say by what clap found.
fn value_of_matches(alloc: Global, matches: &ArgMatches) -> Result<Words, WordsError>
    ensures accepted { IsAnswerTo (command_value (subcommand_rows_of matches.now)) result }
    ensures limits { IfOk result HasFittingNumbers }
{
    match matches.subcommand() {
        Some((name, found)) => value_of_command(alloc, name, found),
        None => Err(WordsError::Refused),
    }
}

/// What a command of this name says by what clap found for it.
#[tactic(auto, unfolding(crate::specs::Accepted::value_of))]
fn value_of_command(alloc: Global, name: &str, found: &ArgMatches) -> Result<Words, WordsError>
    ensures accepted { IsAnswerTo (value_of name.now (rows_of (found_of found.now))) result }
    ensures limits { IfOk result HasFittingNumbers }
{
    if name == "run" {
        run_words(alloc, found)
    } else if name == "check" {
        check_words(alloc, found)
    } else if name == "audit" {
        audit_words(alloc, found)
    } else if name == "gen" {
        gen_words(found)
    } else if name == "demo" {
        demo_words(found)
    } else {
        Err(WordsError::Refused)
    }
}

/// `run FILE`.
fn run_words(alloc: Global, found: &ArgMatches) -> Result<Words, WordsError>
    ensures accepted { IsAnswerTo (run_of (rows_of (found_of found.now))) result }
    ensures limits { IfOk result HasFittingNumbers }
{
    match asked_of(found) {
        Some((file, numbers, way)) => {
            let file = FileName::copy_of(alloc, file)?;
            Ok(Words::Run(run_with(file, numbers, way)))
        }
        None => Err(WordsError::Refused),
    }
}

/// The file, the numbers and the way of a run.
#[tactic(auto, unfolding(crate::specs::Accepted::run_of))]
fn asked_of<'a>(found: &ArgMatches<'a>) -> Option<(&'a str, Numbers, Way)>
    ensures told { option_map (λ asked. run_told asked.0.now asked.1 asked.2) result ≡ run_of (rows_of (found_of found.now)) }
    ensures fit { IfSome result (λ asked. AreWithin asked.1.checkers asked.1.lanes asked.1.objects asked.1.copies asked.1.events asked.1.calls) }
{
    let file = text_of(found, "file")?;
    let numbers = numbers_of(found)?;
    let way = way_of(found)?;
    Some((file, numbers, way))
}

/// A run of the file with these numbers, made and told in this way.
fn run_with(file: FileName, numbers: Numbers, way: Way) -> RunWords
    ensures { Run result ≡ run_told file numbers way }
{
    RunWords {
        file,
        checkers: numbers.checkers,
        lanes: numbers.lanes,
        objects: numbers.objects,
        copies: numbers.copies,
        events: numbers.events,
        calls: numbers.calls,
        schedule: way.schedule,
        form: way.form,
    }
}

/// `check FILE`.
#[tactic(auto, unfolding(crate::specs::Accepted::check_of))]
fn check_words(alloc: Global, found: &ArgMatches) -> Result<Words, WordsError>
    ensures accepted { IsAnswerTo (check_of (rows_of (found_of found.now))) result }
    ensures limits { IfOk result HasFittingNumbers }
{
    match text_of(found, "file") {
        Some(file) => {
            let file = FileName::copy_of(alloc, file)?;
            Ok(Words::Check { file })
        }
        None => Err(WordsError::Refused),
    }
}

/// `audit FILE JOURNAL`.
fn audit_words(alloc: Global, found: &ArgMatches) -> Result<Words, WordsError>
    ensures accepted { IsAnswerTo (audit_of (rows_of (found_of found.now))) result }
    ensures limits { IfOk result HasFittingNumbers }
{
    match names_of(found) {
        Some((file, journal)) => {
            let file = FileName::copy_of(alloc, file)?;
            let journal = FileName::copy_of(alloc, journal)?;
            Ok(Words::Audit { file, journal })
        }
        None => Err(WordsError::Refused),
    }
}

/// The two names of an audit.
#[tactic(auto, unfolding(crate::specs::Accepted::audit_of))]
fn names_of<'a>(found: &ArgMatches<'a>) -> Option<(&'a str, &'a str)>
    ensures { option_map (λ names. Audit names.0.now names.1.now) result ≡ audit_of (rows_of (found_of found.now)) }
{
    let file = text_of(found, "file")?;
    let journal = text_of(found, "journal")?;
    Some((file, journal))
}

/// `gen N`.
fn gen_words(found: &ArgMatches) -> Result<Words, WordsError>
    ensures accepted { IsAnswerTo (option_map (λ n. Gen n) (turns_told_of (rows_of (found_of found.now)))) result }
    ensures limits { IfOk result HasFittingNumbers }
{
    match turns_of(found) {
        Some(n) => Ok(Words::Gen { n }),
        None => Err(WordsError::Refused),
    }
}

/// `demo N`.
fn demo_words(found: &ArgMatches) -> Result<Words, WordsError>
    ensures accepted { IsAnswerTo (option_map (λ n. Demo n) (turns_told_of (rows_of (found_of found.now)))) result }
    ensures limits { IfOk result HasFittingNumbers }
{
    match turns_of(found) {
        Some(n) => Ok(Words::Demo { n }),
        None => Err(WordsError::Refused),
    }
}
