//! The checks that a thread launched, from the journal of a run.
ghost use Rattle.std.specs.Prelude.{◌≡◌, IfOk};
ghost use Rattle.st_events.specs.History.{is_own as is_own_of};
ghost use Rattle.st_report.specs.Checks.{check_in, checks_of, verdict_of};

use st_events::{Event, NoMemory, Site, Verdict};
use std::alloc::Global;

/// A launched check, as every output tells it.
#[derive(Clone, Copy)]
pub(crate) struct LaunchedCheck {
    /// The number of its launch among the thread's own events, from 1.
    pub(crate) event: usize,
    /// The place of its check statement.
    pub(crate) place: Site,
    /// Its verdict.
    pub(crate) verdict: Verdict,
}

/// The checks that the thread of this number launched, in their order. `places` are those of the check statements.
pub(crate) fn collect_checks(
    alloc: Global,
    thread: usize,
    places: &[Site],
    verdicts: &[Verdict],
    journal: &[Event],
) -> Result<Vec<LaunchedCheck>, NoMemory>
    ensures { IfOk result (λ checks. checks.items ≡ checks_of thread places.now verdicts.now journal.now) }
{
    let mut checks = Vec::new(alloc);
    let mut own = 0;
    for event in journal {
        if is_own(thread, *event) {
            own += 1;
            match find_check(places, verdicts, own, *event) {
                Some(check) => checks.push(check)?,
                None => {}
            }
        }
    }
    Ok(checks)
}

/// Whether the event is an own one of the thread; a Retire is nobody's own.
fn is_own(thread: usize, event: Event) -> bool
    ensures { result ≡ is_own_of thread event }
{
    match event {
        Event::New { m, .. }
        | Event::Load { m, .. }
        | Event::Store { m, .. }
        | Event::Cas { m, .. }
        | Event::Launch { m, .. } => usize::from(m) == thread,
        Event::Retire { .. } => false,
    }
}

/// The check that the event launches, if it launches one. `own` is the event's number among its thread's own.
fn find_check(
    places: &[Site],
    verdicts: &[Verdict],
    own: usize,
    event: Event,
) -> Option<LaunchedCheck>
    ensures { result ≡ check_in places.now verdicts.now (own, event) }
{
    match event {
        Event::Launch { number, site, .. } => {
            let place = places.get(usize::from(site))?;
            let verdict = find_verdict(verdicts, number)?;
            Some(LaunchedCheck {
                event: own,
                place: *place,
                verdict,
            })
        }
        _ => None,
    }
}

/// The verdict of the check of this number, from 1, if there is one.
fn find_verdict(verdicts: &[Verdict], number: u32) -> Option<Verdict>
    ensures { result ≡ verdict_of verdicts.now number }
{
    if number == 0 {
        None
    } else {
        verdicts.get(number as usize - 1).copied()
    }
}
