//! The verdict that a line tells.
ghost use Rattle.std.specs.Prelude.{◌≡◌, map};
ghost use Rattle.st_journal.specs.Reading.{fault_in, half_in, place_in, plain_in, verdict_in, verdict_row_in};

use crate::numbers::{as_half, cut, is_word, parse_number};
use crate::rows::Row;
use st_events::{Plain, Site, Verdict};

/// What a verdict line tells: its number and the words of the verdict.
#[tactic(auto, unfolding(crate::specs::Reading::verdict_row_in))]
pub(crate) fn parse_verdict_row(words: &[&[u8]]) -> Option<Row>
    ensures { result ≡ verdict_row_in (map (λ word. word.now) words.now) }
{
    match words {
        [number, verdict @ ..] => Some(Row::Verdict {
            number: parse_half(number)?,
            verdict: parse_verdict(verdict)?,
        }),
        [] => None,
    }
}

/// The verdict that words tell.
#[tactic(auto, unfolding(crate::specs::Reading::verdict_in))]
fn parse_verdict(words: &[&[u8]]) -> Option<Verdict>
    ensures { result ≡ verdict_in (map (λ word. word.now) words.now) }
{
    match *words {
        [word] => Some(Verdict::Plain(parse_plain(word)?)),
        [head, obj] if is_word(head, b"abandoned") => Some(Verdict::Abandoned {
            obj: parse_half(obj)?,
        }),
        [head, kind, place] if is_word(head, b"fault") => {
            let place = parse_place(place)?;
            Some(Verdict::Plain(parse_fault(kind, place)?))
        }
        _ => None,
    }
}

/// The value of a check that is told by one word.
#[tactic(auto, unfolding(crate::specs::Reading::plain_in))]
fn parse_plain(word: &[u8]) -> Option<Plain>
    ensures { result ≡ plain_in word.now }
{
    if is_word(word, b"holds") {
        Some(Plain::Holds)
    } else if is_word(word, b"fails") {
        Some(Plain::Fails)
    } else if is_word(word, b"spent") {
        Some(Plain::Spent)
    } else if is_word(word, b"deep") {
        Some(Plain::Deep)
    } else {
        None
    }
}

/// A fault of this kind.
#[tactic(auto, unfolding(crate::specs::Reading::fault_in))]
fn parse_fault(kind: &[u8], place: Site) -> Option<Plain>
    ensures { result ≡ fault_in kind.now place }
{
    if is_word(kind, b"null") {
        Some(Plain::Null(place))
    } else if is_word(kind, b"divide") {
        Some(Plain::Divide(place))
    } else if is_word(kind, b"overflow") {
        Some(Plain::Overflow(place))
    } else {
        None
    }
}

/// `LINE:COLUMN`
#[tactic(auto, unfolding(crate::specs::Reading::place_in))]
fn parse_place(word: &[u8]) -> Option<Site>
    ensures { result ≡ place_in word.now }
{
    let (line, column) = cut(word, b':')?;
    Some(Site {
        line: parse_half(line)?,
        column: parse_half(column)?,
    })
}

/// The number of 32 bits that a word writes.
#[tactic(auto, unfolding(crate::specs::Reading::half_in))]
fn parse_half(word: &[u8]) -> Option<u32>
    ensures { result ≡ half_in word.now }
{
    as_half(parse_number(word)?)
}
