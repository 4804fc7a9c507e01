//! Runs of one source, each audited as it is and with one thing changed.
ghost use Rattle.std.specs.Prelude.{◌<◌, length};

use super::calls::{Amounts, Unrun, finding_of, run_text};
use super::events::{FAILS, HOLDS, NONE, store_by};
use super::texts::FOUR;
use st_audit::Finding;
use st_events::{Event, NoMemory, Plain, Verdict};
use st_source::read_source;
use st_types::Typed;
use std::alloc::Global;
use std::test::Fail;

/// One copy, so that some runs lose a version.
const FEW: Amounts = Amounts {
    objects: 4,
    copies: 1,
    events: 99,
    ..Amounts::USUAL
};

/// The place of the event or verdict that was changed, and what an audit finds then, where it must find something else.
type Other = (usize, Option<Finding>);

/// A run of `FOUR`: its program, and what it leaves.
#[derive(Clone, Copy)]
struct Run<'a> {
    typed: &'a Typed,
    events: &'a [Event],
    verdicts: &'a [Verdict],
}

/// What an audit finds of events and verdicts, against the program of `FOUR`.
fn find(
    alloc: Global,
    typed: &Typed,
    events: &[Event],
    verdicts: &[Verdict],
) -> Result<Option<Finding>, Unrun> {
    finding_of(alloc, typed, &FEW.sizes(2), events, verdicts)
}

/// The thread whose own event it is.
fn thread_of(event: Event) -> Option<u8> {
    match event {
        Event::New { m, .. } => Some(m),
        Event::Load { m, .. } => Some(m),
        Event::Store { m, .. } => Some(m),
        Event::Cas { m, .. } => Some(m),
        Event::Launch { m, .. } => Some(m),
        Event::Retire { .. } => None,
    }
}

/// What an audit must find where the thread's own events are right up to these, and then there is another one, or none.
fn differs_after(events: &[Event], thread: u8) -> Option<Finding> {
    let mut event: u32 = 1;
    for each in events {
        if thread_of(*each) == Some(thread) {
            event = event.saturating_add(1);
        }
    }
    Some(Finding::NotTrace { thread, event })
}

/// The event with an object, a word, a field or a number that it can have nowhere in a run of `FOUR`.
fn impossible(event: Event) -> Event {
    match event {
        Event::New { m, class, .. } => Event::New { m, obj: 1, class },
        Event::Load { m, obj, field, .. } => Event::Load {
            m,
            obj,
            field,
            value: 77,
        },
        Event::Store { m, obj, value, .. } => Event::Store {
            m,
            obj,
            field: 2,
            value,
        },
        Event::Cas {
            m,
            obj,
            expect,
            value,
            done,
            ..
        } => Event::Cas {
            m,
            obj,
            field: 2,
            expect,
            value,
            done,
        },
        Event::Launch { m, site, args, .. } => Event::Launch {
            m,
            number: 0,
            site,
            args,
        },
        Event::Retire { m, .. } => Event::Retire { m, number: 0 },
    }
}

/// Another event that is legal in its place, and with which the later events of `FOUR` are legal.
fn another(event: Event) -> Option<Event> {
    match event {
        Event::Store { value: 0, .. } => None,
        Event::Store { m, obj, field, .. } => Some(store_by(m, obj, field, 0)),
        Event::Launch {
            m,
            number,
            site,
            ..
        } => Some(Event::Launch {
            m,
            number,
            site: if site == 0 { 2 } else { 0 },
            args: NONE,
        }),
        _ => None,
    }
}

/// Whether the later events of `FOUR` are legal without it.
fn can_be_left_out(event: Event) -> bool {
    match event {
        Event::Store { .. } => true,
        Event::Load { .. } => true,
        _ => false,
    }
}

/// The events with another at the place.
fn with_event(
    alloc: Global,
    events: &[Event],
    place: usize,
    event: Event,
) -> Result<Vec<Event>, NoMemory>
    requires { place < length events.now }
{
    let mut changed = events.to_vec(alloc)?;
    changed[place] = event;
    Ok(changed)
}

/// The events without the one at the place.
fn without_event(alloc: Global, events: &[Event], place: usize) -> Result<Vec<Event>, NoMemory>
    requires { place < length events.now }
{
    let mut changed = events.to_vec(alloc)?;
    changed.remove(place);
    Ok(changed)
}

/// The events with one more.
fn with_end(alloc: Global, events: &[Event], event: Event) -> Result<Vec<Event>, NoMemory> {
    let mut longer = events.to_vec(alloc)?;
    longer.push(event)?;
    Ok(longer)
}

/// The verdicts with another at the place.
fn with_verdict(
    alloc: Global,
    verdicts: &[Verdict],
    place: usize,
    verdict: Verdict,
) -> Result<Vec<Verdict>, NoMemory>
    requires { place < length verdicts.now }
{
    let mut changed = verdicts.to_vec(alloc)?;
    changed[place] = verdict;
    Ok(changed)
}

/// The first place at which an impossible event is not found.
fn other_impossible(alloc: Global, run: &Run<'_>) -> Result<Option<Other>, Unrun> {
    for place in 0..run.events.len() {
        let changed = with_event(alloc, run.events, place, impossible(run.events[place]))?;
        let found = find(alloc, run.typed, &changed, run.verdicts)?;
        let wanted = Some(Finding::NotLegal {
            place: u32::try_from(place).unwrap_or(u32::MAX),
        });
        if found != wanted {
            return Ok(Some((place, found)));
        }
    }
    Ok(None)
}

/// The first place at which another event that is legal is not found.
fn other_exchanged(alloc: Global, run: &Run<'_>) -> Result<Option<Other>, Unrun> {
    for place in 0..run.events.len() {
        let event = run.events[place];
        let (Some(thread), Some(other)) = (thread_of(event), another(event)) else {
            continue;
        };
        let changed = with_event(alloc, run.events, place, other)?;
        let found = find(alloc, run.typed, &changed, run.verdicts)?;
        if found != differs_after(&run.events[..place], thread) {
            return Ok(Some((place, found)));
        }
    }
    Ok(None)
}

/// The first place at which it is not found that an event is left out.
fn other_left_out(alloc: Global, run: &Run<'_>) -> Result<Option<Other>, Unrun> {
    for place in 0..run.events.len() {
        let Some(thread) = thread_of(run.events[place]) else {
            continue;
        };
        if !can_be_left_out(run.events[place]) {
            continue;
        }
        let changed = without_event(alloc, run.events, place)?;
        let found = find(alloc, run.typed, &changed, run.verdicts)?;
        if found != differs_after(&run.events[..place], thread) {
            return Ok(Some((place, found)));
        }
    }
    Ok(None)
}

/// The thread whose event behind its end, which is legal after all others, is not found.
fn other_end(alloc: Global, run: &Run<'_>) -> Result<Option<Other>, Unrun> {
    for thread in 0..2 {
        let longer = with_end(alloc, run.events, store_by(thread, 1, 1, 0))?;
        let found = find(alloc, run.typed, &longer, run.verdicts)?;
        if found != differs_after(run.events, thread) {
            return Ok(Some((run.events.len(), found)));
        }
    }
    Ok(None)
}

/// A wrong verdict in the place of a right one.
fn wrong_for(verdict: Verdict) -> Verdict {
    match verdict {
        Verdict::Plain(Plain::Holds) => FAILS,
        Verdict::Plain(_) => HOLDS,
        Verdict::Abandoned { .. } => Verdict::Abandoned { obj: 0 },
    }
}

/// The plain value that an audit tells of the check with the number, from 1, where it finds its verdict wrong.
fn plain_of(found: Option<Finding>, of: usize) -> Option<Plain> {
    match found {
        Some(Finding::WrongVerdict { number, plain }) if number as usize == of => Some(plain),
        _ => None,
    }
}

/// The first verdict that is not found where it is wrong, or in whose place the plain value that is told is not right.
fn other_verdict(alloc: Global, run: &Run<'_>) -> Result<Option<Other>, Unrun> {
    for place in 0..run.verdicts.len() {
        let wrong = with_verdict(alloc, run.verdicts, place, wrong_for(run.verdicts[place]))?;
        let found = find(alloc, run.typed, run.events, &wrong)?;
        let Some(plain) = plain_of(found, place + 1) else {
            return Ok(Some((place, found)));
        };
        let right = with_verdict(alloc, run.verdicts, place, Verdict::Plain(plain))?;
        let found = find(alloc, run.typed, run.events, &right)?;
        if found.is_some() {
            return Ok(Some((place, found)));
        }
    }
    Ok(None)
}

/// Where an audit of the run, as it is or with one thing changed, finds something else than it must.
fn other_of(alloc: Global, run: &Run<'_>) -> Result<Option<Other>, Unrun> {
    let found = find(alloc, run.typed, run.events, run.verdicts)?;
    if found.is_some() {
        return Ok(Some((0, found)));
    }
    let impossible = other_impossible(alloc, run)?;
    let exchanged = other_exchanged(alloc, run)?;
    let left_out = other_left_out(alloc, run)?;
    let end = other_end(alloc, run)?;
    let verdict = other_verdict(alloc, run)?;
    Ok(impossible.or(exchanged).or(left_out).or(end).or(verdict))
}

/// The same of the run by the seed.
fn other_by_seed(alloc: Global, typed: &Typed, seed: u64) -> Result<Option<Other>, Unrun> {
    let ran = run_text(alloc, FOUR, FEW, seed)?;
    let run = Run {
        typed,
        events: ran.journal.as_slice(),
        verdicts: ran.verdicts.as_slice(),
    };
    other_of(alloc, &run)
}

#[test]
fn a_run_with_one_thing_changed_is_found_out(rt: HostRuntime) -> Result<(), Fail> {
    let typed = read_source(rt.alloc(), FOUR)?;
    for seed in 0..100 {
        assert_eq!(rt;
            other_by_seed(rt.alloc(), &typed, seed),
            Ok(None),
            "seed {seed}"
        );
    }
    Ok(())
}
