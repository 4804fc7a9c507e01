//! The sizes that the second line tells.
ghost use Rattle.std.specs.Prelude.{◌≡◌};
ghost use Rattle.st_journal.specs.Reading.{sizes_in, sizes_of};
ghost use Rattle.st_journal.specs.Words.{Parses, words_in};

use crate::errors::LineFault;
use crate::numbers::{as_byte, as_half, is_word, parse_numbers, split_words};
use st_events::Sizes;
use std::alloc::Global;

/// The sizes that a line tells, where they are within the limits.
#[tactic(auto, unfolding(crate::specs::Reading::sizes_in))]
pub(crate) fn parse_sizes(alloc: Global, line: &[u8]) -> Result<Sizes, LineFault>
    ensures { Parses (λ sizes. sizes) result (sizes_in (words_in line.now)) }
{
    let words = split_words(alloc, line)?;
    match words.as_slice() {
        [tag, numbers @ ..] if is_word(tag, b"sizes") => {
            let numbers = parse_numbers(alloc, numbers)?;
            sizes_of(&numbers).ok_or(LineFault::Bad)
        }
        _ => Err(LineFault::Bad),
    }
}

/// The sizes of these numbers, where they are within the limits.
#[tactic(auto, unfolding(crate::specs::Reading::sizes_of))]
fn sizes_of(numbers: &[u64]) -> Option<Sizes>
    ensures { result ≡ sizes_of numbers.now }
{
    match *numbers {
        [mutators, lanes, objects, copies, events, calls] => {
            let sizes = Sizes {
                mutators: as_byte(mutators)?,
                lanes: as_byte(lanes)?,
                objects: as_half(objects)?,
                copies: as_half(copies)?,
                events: as_half(events)?,
                calls: as_half(calls)?,
            };
            if sizes.fits() { Some(sizes) } else { None }
        }
        _ => None,
    }
}
