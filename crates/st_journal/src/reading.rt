//! Reading a journal text, line by line.
ghost use Rattle.std.specs.Prelude.{◌≡◌, ℕ, ◌-◌, ◌<◌, ◌^◌, ◌⊎◌, length, IfOk};
ghost use Rattle.st_journal.specs.Format.{FileLists, IsFile, journal_text};
ghost use Rattle.st_journal.specs.Lines.{HasOtherVersion, IsFirstBadLine, lines};
ghost use Rattle.st_journal.specs.Reading.{IsAsRead};
ghost use Rattle.st_journal.specs.Rows.{ended, file_in, no_rows, rows_in, version_in, version_of};
ghost use Rattle.st_journal.specs.Words.{words_in};

use crate::collecting::Rows;
use crate::errors::JournalError;
use crate::files::JournalFile;
use crate::lines::first_line;
use crate::numbers::{is_number, is_word, parse_number, split_words};
use crate::sizes::parse_sizes;
use crate::versions::VERSION;
use std::alloc::Global;

/// The number of the first line, which tells the version.
const VERSION_LINE: u32 = 1;
/// The number of the line that tells the sizes.
const SIZES_LINE: u32 = 2;
/// The number of the first line that tells an event, a verdict or the counts.
const FIRST_ROW: u32 = 3;

/// Reads a journal text, to its end. It is Ok exactly on the texts of the format, but for want of memory; else it tells the
/// first line that is not of the format, or that the first line tells another version.
pub fn read(alloc: Global, text: &[u8]) -> Result<JournalFile, JournalError>
    requires { length text.now < 2 ^ 32 - 1 }
    ensures read { IfOk result (λ file. IsFile file × (text.now ≡ journal_text file)) }
    ensures again { (file : FileLists) → IsFile file → text.now ≡ journal_text file → (result ≡ Ok file) ⊎ (result ≡ Err JournalError.Memory) }
    ensures bad_line { (line : ℕ) → result ≡ Err (JournalError.BadLine line) → IsFirstBadLine text.now line }
    ensures bad_line_of_this_version { (line : ℕ) → result ≡ Err (JournalError.BadLine line) → HasOtherVersion text.now → ⊥ }
    ensures bad_version { result ≡ Err JournalError.BadVersion → HasOtherVersion text.now }
    ensures other_version { HasOtherVersion text.now → (result ≡ Err JournalError.BadVersion) ⊎ (result ≡ Err JournalError.Memory) }
{
    read_file(alloc, text)
}

/// The file that the lines of a text tell.
#[tactic(auto, unfolding(crate::specs::Rows::file_in))]
fn read_file(alloc: Global, text: &[u8]) -> Result<JournalFile, JournalError>
    requires { length text.now < 2 ^ 32 - 1 }
    ensures { IsAsRead (λ file. file) result (file_in (lines text.now)) }
{
    let (first, rest) = first_line(text, VERSION_LINE)?;
    check_version(alloc, first)?;
    let (second, rest) = first_line(rest, SIZES_LINE)?;
    let sizes = match parse_sizes(alloc, second) {
        Ok(sizes) => sizes,
        Err(fault) => return Err(fault.at(SIZES_LINE)),
    };
    let Rows { events, verdicts } = read_rows(alloc, rest)?;
    Ok(JournalFile {
        sizes,
        events,
        verdicts,
    })
}

/// Whether the first line tells the version that is read.
#[tactic(auto, unfolding(crate::specs::Rows::version_in))]
fn check_version(alloc: Global, line: &[u8]) -> Result<(), JournalError>
    ensures { IsAsRead (λ known. known) result (version_in (words_in line.now)) }
{
    let words = split_words(alloc, line)?;
    match words.as_slice() {
        [name, format, version] => known_version(name, format, version),
        _ => Err(JournalError::BadLine { line: VERSION_LINE }),
    }
}

/// Whether these words tell the version that is read.
#[tactic(auto, unfolding(crate::specs::Rows::version_of))]
fn known_version(name: &[u8], format: &[u8], version: &[u8]) -> Result<(), JournalError>
    ensures { IsAsRead (λ known. known) result (version_of name.now format.now version.now) }
{
    if !is_word(name, b"strobe") {
        return Err(JournalError::BadLine { line: VERSION_LINE });
    }
    if !is_word(format, b"journal") {
        return Err(JournalError::BadLine { line: VERSION_LINE });
    }
    if !is_number(version) {
        return Err(JournalError::BadLine { line: VERSION_LINE });
    }
    match parse_number(version) {
        Some(number) if number == u64::from(VERSION) => Ok(()),
        _ => Err(JournalError::BadVersion),
    }
}

/// The events and verdicts that the lines after the second tell, up to the counts, which the text ends with.
fn read_rows(alloc: Global, text: &[u8]) -> Result<Rows, JournalError>
    requires { length text.now < 2 ^ 32 - FIRST_ROW }
    ensures { IsAsRead (λ rows. rows) result (rows_in FIRST_ROW no_rows (lines text.now)) }
{
    let mut rows = Rows::new(alloc);
    let mut rest = text;
    let mut line = FIRST_ROW;
    loop {
        let (content, after) = match first_line(rest, line) {
            Ok(parts) => parts,
            Err(error) => return Err(error),
        };
        let is_last = match rows.take_line(alloc, content) {
            Ok(is_last) => is_last,
            Err(fault) => return Err(fault.at(line)),
        };
        if is_last {
            return end_rows(rows, after, line);
        }
        rest = after;
        line += 1;
    }
}

/// The rows, where nothing follows the line of their counts, which has the number `line`.
#[tactic(auto, using(crate::proofs::RowLemmas::nothing_left, crate::proofs::RowLemmas::something_left))]
fn end_rows(rows: Rows, after: &[u8], line: u32) -> Result<Rows, JournalError>
    requires { line < 2 ^ 32 - 1 }
    ensures { IsAsRead (λ rows. rows) result (ended line rows (lines after.now)) }
{
    if after.is_empty() {
        Ok(rows)
    } else {
        Err(JournalError::BadLine { line: line + 1 })
    }
}
