//! The event that a line tells.
ghost use Rattle.std.specs.Prelude.{◌≡◌, option_map};
ghost use Rattle.st_journal.specs.Reading.{args_in, cas_in, event_in, launch_in, load_in, new_in, padded, retire_in, store_in, truth};

use crate::numbers::{as_byte, as_half, as_short};
use st_events::{Args, Event, MOST_ARGS};

/// The event that a tag and numbers tell.
#[tactic(auto, unfolding(crate::specs::Reading::event_in))]
pub(crate) fn parse_event(tag: &[u8], numbers: &[u64]) -> Option<Event>
    ensures { result ≡ event_in tag.now numbers.now }
{
    match tag {
        b"N" => parse_new(numbers),
        b"L" => parse_load(numbers),
        b"S" => parse_store(numbers),
        b"C" => parse_cas(numbers),
        b"K" => parse_launch(numbers),
        b"R" => parse_retire(numbers),
        _ => None,
    }
}

/// `N m obj class`
#[tactic(auto, unfolding(crate::specs::Reading::new_in))]
fn parse_new(numbers: &[u64]) -> Option<Event>
    ensures { result ≡ new_in numbers.now }
{
    match *numbers {
        [m, obj, class] => Some(Event::New {
            m: as_byte(m)?,
            obj: as_half(obj)?,
            class: as_byte(class)?,
        }),
        _ => None,
    }
}

/// `L m obj field value`
#[tactic(auto, unfolding(crate::specs::Reading::load_in))]
fn parse_load(numbers: &[u64]) -> Option<Event>
    ensures { result ≡ load_in numbers.now }
{
    match *numbers {
        [m, obj, field, value] => Some(Event::Load {
            m: as_byte(m)?,
            obj: as_half(obj)?,
            field: as_byte(field)?,
            value,
        }),
        _ => None,
    }
}

/// `S m obj field value`
#[tactic(auto, unfolding(crate::specs::Reading::store_in))]
fn parse_store(numbers: &[u64]) -> Option<Event>
    ensures { result ≡ store_in numbers.now }
{
    match *numbers {
        [m, obj, field, value] => Some(Event::Store {
            m: as_byte(m)?,
            obj: as_half(obj)?,
            field: as_byte(field)?,
            value,
        }),
        _ => None,
    }
}

/// `C m obj field expect value done`
#[tactic(auto, unfolding(crate::specs::Reading::cas_in))]
fn parse_cas(numbers: &[u64]) -> Option<Event>
    ensures { result ≡ cas_in numbers.now }
{
    match *numbers {
        [m, obj, field, expect, value, done] => Some(Event::Cas {
            m: as_byte(m)?,
            obj: as_half(obj)?,
            field: as_byte(field)?,
            expect,
            value,
            done: as_truth(done)?,
        }),
        _ => None,
    }
}

/// Whether a Cas was done: 1 or 0.
fn as_truth(number: u64) -> Option<bool>
    ensures { result ≡ truth number }
{
    if number == 1 {
        Some(true)
    } else if number == 0 {
        Some(false)
    } else {
        None
    }
}

/// `K m number site count` and `count` words
#[tactic(auto, unfolding(crate::specs::Reading::launch_in))]
fn parse_launch(numbers: &[u64]) -> Option<Event>
    ensures { result ≡ launch_in numbers.now }
{
    match numbers {
        [m, number, site, count, words @ ..] => Some(Event::Launch {
            m: as_byte(*m)?,
            number: as_half(*number)?,
            site: as_short(*site)?,
            args: parse_args(*count, words)?,
        }),
        _ => None,
    }
}

/// The arguments of a launch: so many words.
#[tactic(auto, unfolding(crate::specs::Reading::args_in))]
fn parse_args(count: u64, words: &[u64]) -> Option<Args>
    ensures { result ≡ args_in count words.now }
{
    let all = pad(words)?;
    if count == words.len() as u64 {
        let count = count as u8;
        Some(Args { count, words: all })
    } else {
        None
    }
}

/// The words, with a 0 for each that is not used.
fn pad(words: &[u64]) -> Option<[u64; MOST_ARGS]>
    ensures { result ≡ padded words.now }
{
    match *words {
        [] => Some([0, 0, 0, 0]),
        [a] => Some([a, 0, 0, 0]),
        [a, b] => Some([a, b, 0, 0]),
        [a, b, c] => Some([a, b, c, 0]),
        [a, b, c, d] => Some([a, b, c, d]),
        _ => None,
    }
}

/// `R m number`
#[tactic(auto, unfolding(crate::specs::Reading::retire_in))]
fn parse_retire(numbers: &[u64]) -> Option<Event>
    ensures { result ≡ retire_in numbers.now }
{
    match *numbers {
        [m, number] => Some(Event::Retire {
            m: as_byte(m)?,
            number: as_half(number)?,
        }),
        _ => None,
    }
}
