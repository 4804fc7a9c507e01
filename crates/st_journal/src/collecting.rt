//! The events and verdicts that the lines so far tell.
ghost use Rattle.std.specs.Prelude.{◌≡◌, [], IfOk};
ghost use Rattle.st_journal.specs.Words.{words_in};

use crate::errors::LineFault;
use crate::events::parse_event;
use crate::numbers::{as_half, is_word, parse_numbers, split_words};
use crate::rows::Row;
use crate::verdicts::parse_verdict_row;
use st_events::{Event, Verdict};
use std::alloc::Global;
use std::marker::Model;

/// The events and verdicts that the lines so far tell. Contracts see lists.
#[derive(Drop)]
pub(crate) struct Rows {
    pub(crate) events: Vec<Event>,
    pub(crate) verdicts: Vec<Verdict>,
}

impl Model for Rows {
    ghost use Rattle.st_journal.specs.Rows.{RowLists};

    ghost Value = { RowLists };

    ghost view = { λ rows. record { events = rows.events.items; verdicts = rows.verdicts.items } };
}

impl Rows {
    ghost use Rattle.st_journal.specs.Rows.{no_rows, put_row, TakesLine, line_step};

    /// Nothing yet.
    pub(crate) fn new(alloc: Global) -> Rows
        ensures { result ≡ no_rows }
    {
        Rows {
            events: Vec::new(alloc),
            verdicts: Vec::new(alloc),
        }
    }

    /// Takes the line after those so far, without its end. The answer is whether it is the last of its journal.
    #[tactic(auto, unfolding(crate::specs::Rows::line_step))]
    pub(crate) fn take_line(&mut self, alloc: Global, line: &[u8]) -> Result<bool, LineFault>
        ensures { TakesLine result (line_step self.old line.now) self.new }
    {
        let row = parse_row(alloc, line)?;
        self.put(row)
    }

    /// Puts what the line after those so far tells: events come first, then verdicts in the order of their numbers, and
    /// at last the counts.
    #[tactic(auto, unfolding(crate::specs::Rows::put_row))]
    fn put(&mut self, row: Row) -> Result<bool, LineFault>
        ensures { TakesLine result (put_row self.old row) self.new }
    {
        match row {
            Row::Event(event) => {
                if !self.verdicts.is_empty() {
                    return Err(LineFault::Bad);
                }
                self.events.push(event)?;
                Ok(false)
            }
            Row::Verdict { number, verdict } => {
                if number as usize != self.verdicts.len() + 1 {
                    return Err(LineFault::Bad);
                }
                self.verdicts.push(verdict)?;
                Ok(false)
            }
            Row::End { events, verdicts } => {
                if events as usize != self.events.len() {
                    return Err(LineFault::Bad);
                }
                if verdicts as usize != self.verdicts.len() {
                    return Err(LineFault::Bad);
                }
                Ok(true)
            }
        }
    }
}

ghost use Rattle.st_journal.specs.Reading.{end_row_in, numbered_row_in, row_in};
ghost use Rattle.st_journal.specs.Words.{Parses};

/// What a line after the second tells.
#[tactic(auto, unfolding(crate::specs::Reading::row_in))]
fn parse_row(alloc: Global, line: &[u8]) -> Result<Row, LineFault>
    ensures { Parses (λ row. row) result (row_in (words_in line.now)) }
{
    let words = split_words(alloc, line)?;
    match words.as_slice() {
        [] => Err(LineFault::Bad),
        [tag, verdict @ ..] if is_word(tag, b"V") => {
            parse_verdict_row(verdict).ok_or(LineFault::Bad)
        }
        [tag, numbers @ ..] => {
            let numbers = parse_numbers(alloc, numbers)?;
            parse_numbered_row(tag, &numbers).ok_or(LineFault::Bad)
        }
    }
}

/// What a line of a tag and numbers tells.
#[tactic(auto, unfolding(crate::specs::Reading::numbered_row_in))]
fn parse_numbered_row(tag: &[u8], numbers: &[u64]) -> Option<Row>
    ensures { result ≡ numbered_row_in tag.now numbers.now }
{
    if is_word(tag, b"end") {
        parse_end(numbers)
    } else {
        Some(Row::Event(parse_event(tag, numbers)?))
    }
}

/// `end EVENTS VERDICTS`
#[tactic(auto, unfolding(crate::specs::Reading::end_row_in))]
fn parse_end(numbers: &[u64]) -> Option<Row>
    ensures { result ≡ end_row_in numbers.now }
{
    match *numbers {
        [events, verdicts] => Some(Row::End {
            events: as_half(events)?,
            verdicts: as_half(verdicts)?,
        }),
        _ => None,
    }
}
