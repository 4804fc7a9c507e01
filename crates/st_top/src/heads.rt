//! What the outputs tell of a program: the names of its threads, and the places of its check statements.
ghost use Rattle.std.specs.Prelude.{◌≡◌, map, IfOk};
ghost use Rattle.st_top.specs.Programs.{names_of, places_of, counts_line, accepted_line};

use st_ast::Thread;
use st_events::{NoMemory, Site};
use st_resolved::Check;
use st_types::{Counts, Typed};
use std::alloc::Global;

/// The names of the threads, in the order of the source.
pub(crate) fn collect_names(alloc: Global, typed: &Typed) -> Result<Vec<&[u8]>, NoMemory>
    ensures { IfOk result (λ names. map (λ name. name.now) names.items ≡ names_of typed.now.program) }
{
    names_among(alloc, typed.program().threads.as_slice())
}

/// The names of these threads.
fn names_among(alloc: Global, threads: &[Thread]) -> Result<Vec<&[u8]>, NoMemory>
    ensures { IfOk result (λ names. map (λ name. name.now) names.items ≡ map (λ thread. thread.name) threads.now) }
{
    let mut names = Vec::new(alloc);
    for thread in threads {
        names.push(thread.name.as_slice())?;
    }
    Ok(names)
}

/// The places of the check statements, in the order of the source.
pub(crate) fn collect_places(alloc: Global, typed: &Typed) -> Result<Vec<Site>, NoMemory>
    ensures { IfOk result (λ places. places.items ≡ places_of typed.now.program) }
{
    places_among(alloc, typed.resolved().checks.as_slice())
}

/// The places of these check statements.
fn places_among(alloc: Global, checks: &[Check]) -> Result<Vec<Site>, NoMemory>
    ensures { IfOk result (λ places. places.items ≡ map (λ check. check.at) checks.now) }
{
    let mut places = Vec::new(alloc);
    for check in checks {
        places.push(check.at)?;
    }
    Ok(places)
}

/// The line of an accepted source.
pub(crate) fn make_accepted_line(alloc: Global, typed: &Typed) -> Result<Vec<u8>, NoMemory>
    ensures { IfOk result (λ line. line.items ≡ accepted_line typed.now.program) }
{
    let _numbers = typed.resolved();
    write_counts(alloc, typed.counts())
}

/// The line of so many of each.
#[tactic(auto, unfolding(crate::specs::Programs::counts_line))]
fn write_counts(alloc: Global, counts: Counts) -> Result<Vec<u8>, NoMemory>
    ensures { IfOk result (λ line. line.items
        ≡ counts_line counts.classes counts.preds counts.procs counts.threads counts.checks) }
{
    let (classes, preds, procs) = (counts.classes, counts.preds, counts.procs);
    let (threads, checks) = (counts.threads, counts.checks);
    let line = format!(in alloc;
        "accepted classes {classes} predicates {preds} procedures {procs} threads {threads} checks {checks}\n"
    )?;
    Ok(line.into_bytes())
}
