//! What is found of a run afterwards, by a replay and by an audit of its journal.
ghost use Rattle.std.specs.Prelude.{◌<◌, ◌^◌, length, IfOk};

use super::amounts::Amounts;
use super::errors::Unrun;
use st_audit::{Finding, audit};
use st_events::{End, Event, Sizes, Verdict, replay};
use st_sched::run_scheduled;
use st_source::read_source;
use st_types::Typed;
use std::alloc::Global;

/// What a run came to.
#[derive(Clone, Copy, Debug, PartialEq, Eq)]
pub struct Account {
    /// What the audit finds against the program, if anything.
    pub finding: Option<Finding>,
    pub launches: usize,
    pub verdicts: usize,
    /// How many of the verdicts are Abandoned.
    pub abandoned: usize,
    /// How many threads are Finished.
    pub finished: usize,
    /// How many copies are free at the end.
    pub free: u32,
}

/// Runs the text as the seed schedules it, and audits its journal and verdicts.
pub fn account_for(
    alloc: Global,
    text: &[u8],
    amounts: Amounts,
    seed: u64,
) -> Result<Account, Unrun> {
    let typed = read_source(alloc, text)?;
    let sizes = amounts.sizes(typed.threads());
    if !sizes.fits() {
        return Err(Unrun::TooLarge);
    }
    let ran = run_scheduled(alloc, &typed, &sizes, seed)?;
    if ran.journal.len() > u32::MAX as usize || ran.verdicts.len() > u32::MAX as usize {
        return Err(Unrun::TooLarge);
    }
    Ok(Account {
        finding: audit(alloc, &typed, &sizes, &ran.journal, &ran.verdicts).err(),
        launches: count_launches(&ran.journal),
        verdicts: ran.verdicts.len(),
        abandoned: count_abandoned(&ran.verdicts),
        finished: count_finished(&ran.ends),
        free: ran.free,
    })
}

/// What an audit of the events and verdicts finds against the typed program, if anything.
pub fn finding_of(
    alloc: Global,
    typed: &Typed,
    sizes: &Sizes,
    events: &[Event],
    verdicts: &[Verdict],
) -> Result<Option<Finding>, Unrun> {
    if !sizes.fits() || events.len() > u32::MAX as usize || verdicts.len() > u32::MAX as usize {
        return Err(Unrun::TooLarge);
    }
    Ok(audit(alloc, typed, sizes, events, verdicts).err())
}

/// The word of a cell after a replay of the journal of a run of the text; None where the cell does not exist.
pub fn word_after(
    alloc: Global,
    text: &[u8],
    amounts: Amounts,
    seed: u64,
    obj: u32,
    field: u8,
) -> Result<Option<u64>, Unrun> {
    let typed = read_source(alloc, text)?;
    let sizes = amounts.sizes(typed.threads());
    if !sizes.fits() {
        return Err(Unrun::TooLarge);
    }
    let ran = run_scheduled(alloc, &typed, &sizes, seed)?;
    if ran.journal.len() > u32::MAX as usize {
        return Err(Unrun::TooLarge);
    }
    match replay(alloc, typed.shape(), &sizes, &ran.journal) {
        Ok(heap) => Ok(heap.get(obj, field)),
        Err(why) => Err(Unrun::Replay(why)),
    }
}

fn count_launches(events: &[Event]) -> usize {
    let launches = events.iter().filter(|event| match event {
        Event::Launch { .. } => true,
        _ => false,
    });
    launches.count()
}

fn count_abandoned(verdicts: &[Verdict]) -> usize {
    let abandoned = verdicts.iter().filter(|verdict| match verdict {
        Verdict::Abandoned { .. } => true,
        _ => false,
    });
    abandoned.count()
}

fn count_finished(ends: &[End]) -> usize {
    ends.iter().filter(|end| **end == End::Finished).count()
}
