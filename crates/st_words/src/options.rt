//! What clap found for the words, options and flags of a command.
ghost use Rattle.std.specs.Prelude.{◌≡◌, ◌≤◌, option_map, IfSome};
ghost use Rattle.clap.specs.Words.{first_of, found_of, rows_of};
ghost use Rattle.st_words.specs.Accepted.{form_of as form_told_of, is_given as is_flag_given, numbers_of as numbers_told_of, schedule_of as schedule_told_of, turns_of as turns_told_of, way_of as way_told_of, AreWithin};
ghost use Rattle.st_words.specs.Numbers.{number_or as number_told_or};

use crate::choices::{Numbers, Way};
use crate::limits::{MOST_CHECKERS, MOST_TURNS, USUAL_CHECKERS};
use crate::numbers::{number_in, small_number_in};
use crate::words::Form;
use clap::ArgMatches;
use st_events::{
    MOST_CALLS, MOST_COPIES, MOST_EVENTS, MOST_LANES, MOST_OBJECTS, USUAL_CALLS, USUAL_COPIES,
    USUAL_EVENTS, USUAL_LANES, USUAL_OBJECTS,
};

/// What stands for a word, or after an option.
pub(crate) fn text_of<'a>(found: &ArgMatches<'a>, name: &str) -> Option<&'a str>
    ensures { option_map (λ text. text.now) result ≡ first_of name.now (rows_of (found_of found.now)) }
{
    found.get_str(name)
}

/// The numbers of a run.
#[tactic(auto, unfolding(crate::specs::Accepted::numbers_of))]
pub(crate) fn numbers_of(found: &ArgMatches) -> Option<Numbers>
    ensures told { result ≡ numbers_told_of (rows_of (found_of found.now)) }
    ensures fit { IfSome result (λ numbers. AreWithin numbers.checkers numbers.lanes numbers.objects numbers.copies numbers.events numbers.calls) }
{
    let checkers = number_or(
        found,
        "checkers",
        USUAL_CHECKERS as u32,
        0,
        MOST_CHECKERS as u32,
    )?;
    let lanes = number_or(found, "lanes", USUAL_LANES as u32, 1, MOST_LANES as u32)?;
    let objects = number_or(found, "objects", USUAL_OBJECTS, 1, MOST_OBJECTS)?;
    let copies = number_or(found, "copies", USUAL_COPIES, 0, MOST_COPIES)?;
    let events = number_or(found, "events", USUAL_EVENTS, 1, MOST_EVENTS)?;
    let calls = number_or(found, "calls", USUAL_CALLS, 0, MOST_CALLS)?;
    Some(Numbers {
        checkers: checkers as u8,
        lanes: lanes as u8,
        objects,
        copies,
        events,
        calls,
    })
}

/// The number of an option, if it is within its range; the usual one, where the option does not stand.
#[tactic(auto, unfolding(crate::specs::Numbers::number_or))]
fn number_or(found: &ArgMatches, name: &str, usual: u32, least: u32, most: u32) -> Option<u32>
    requires low { least ≤ usual }
    requires high { usual ≤ most }
    ensures told { result ≡ number_told_or usual least most name.now (rows_of (found_of found.now)) }
    ensures within { IfSome result (λ n. (least ≤ n) × (n ≤ most)) }
{
    match text_of(found, name) {
        Some(word) => small_number_in(word, least, most),
        None => Some(usual),
    }
}

/// How a run is made and told.
#[tactic(auto, unfolding(crate::specs::Accepted::way_of))]
pub(crate) fn way_of(found: &ArgMatches) -> Option<Way>
    ensures { result ≡ way_told_of (rows_of (found_of found.now)) }
{
    let schedule = schedule_of(found)?;
    let form = form_of(found)?;
    Some(Way { schedule, form })
}

/// The seed of a scheduled run, which has no checking threads to choose.
#[tactic(auto, unfolding(crate::specs::Accepted::schedule_of))]
fn schedule_of(found: &ArgMatches) -> Option<Option<u64>>
    ensures { result ≡ schedule_told_of (rows_of (found_of found.now)) }
{
    match text_of(found, "schedule") {
        Some(word) => {
            if text_of(found, "checkers").is_some() {
                return None;
            }
            let seed = number_in(word, 0, u64::MAX)?;
            Some(Some(seed))
        }
        None => Some(None),
    }
}

/// What is written, which `--json` and `--journal` do not both choose.
#[tactic(auto, unfolding(crate::specs::Accepted::form_of))]
fn form_of(found: &ArgMatches) -> Option<Form>
    ensures { result ≡ form_told_of (rows_of (found_of found.now)) }
{
    match (is_given(found, "json"), is_given(found, "journal")) {
        (true, true) => None,
        (true, false) => Some(Form::Json),
        (false, true) => Some(Form::Journal),
        (false, false) => Some(Form::Text),
    }
}

/// Whether a flag stands.
fn is_given(found: &ArgMatches, name: &str) -> bool
    ensures { result ≡ is_flag_given name.now (rows_of (found_of found.now)) }
{
    match text_of(found, name) {
        Some(value) => value == "true",
        None => false,
    }
}

/// The turns that `gen` and `demo` are given.
#[tactic(auto, unfolding(crate::specs::Accepted::turns_of))]
pub(crate) fn turns_of(found: &ArgMatches) -> Option<u32>
    ensures told { result ≡ turns_told_of (rows_of (found_of found.now)) }
    ensures within { IfSome result (λ n. (1 ≤ n) × (n ≤ MOST_TURNS)) }
{
    match text_of(found, "n") {
        Some(word) => small_number_in(word, 1, MOST_TURNS),
        None => None,
    }
}
