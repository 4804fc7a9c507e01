//! The report of a run.
ghost use Rattle.std.specs.Prelude.{◌≡◌, ◌++◌, map, IfOk, OnOk};
ghost use Rattle.std.specs.List.{enumerate_from, flat_map, zip};
ghost use Rattle.st_report.specs.Checks.{checks_of};
ghost use Rattle.st_report.specs.Report.{check_line, check_lines, count_line, report_text, thread_line};

use crate::checks::{LaunchedCheck, collect_checks};
use crate::tallies::{count_fails, count_holds, count_other};
use st_events::{End, Event, NoMemory, Ran, Site, Verdict};
use st_texts::{EndText, PlaceText, VerdictText};
use std::alloc::Global;

/// The report of a run of a program whose threads have these names and whose check statements stand at these places, both
/// in the order of the source: a line for each launched check, a line for the end of each thread, and the counts.
#[tactic(auto, using(crate::proofs::PieceLemmas::three_parts), unfolding(crate::specs::Report::report_text))]
pub fn report(
    alloc: Global,
    threads: &[&[u8]],
    places: &[Site],
    ran: &Ran,
) -> Result<Vec<u8>, NoMemory>
    ensures { IfOk result (λ text. text.items ≡ report_text (map (λ name. name.now) threads.now) places.now ran.now) }
{
    let mut out = Vec::new(alloc);
    put_checks(
        &mut out,
        alloc,
        threads,
        places,
        &ran.verdicts,
        &ran.journal,
    )?;
    put_ends(&mut out, alloc, threads, &ran.ends)?;
    put_counts(&mut out, alloc, &ran.verdicts)?;
    Ok(out)
}

/// Puts the lines of the launched checks, thread by thread.
fn put_checks(
    out: &mut Vec<u8>,
    alloc: Global,
    threads: &[&[u8]],
    places: &[Site],
    verdicts: &[Verdict],
    journal: &[Event],
) -> Result<(), NoMemory>
    ensures { OnOk result (out.new.items ≡ out.old.items ++ flat_map
        (λ thread. check_lines thread.1 (checks_of thread.0 places.now verdicts.now journal.now))
        (enumerate_from 0 (map (λ name. name.now) threads.now))) }
{
    for (number, name) in threads.iter().enumerate() {
        let checks = collect_checks(alloc, number, places, verdicts, journal)?;
        put_check_lines(out, alloc, name, &checks)?;
    }
    Ok(())
}

/// Puts the lines of the checks that a thread launched.
fn put_check_lines(
    out: &mut Vec<u8>,
    alloc: Global,
    thread: &[u8],
    checks: &[LaunchedCheck],
) -> Result<(), NoMemory>
    ensures { OnOk result (out.new.items ≡ out.old.items ++ check_lines thread.now checks.now) }
{
    for check in checks {
        put_check_line(out, alloc, thread, *check)?;
    }
    Ok(())
}

/// Puts the line of a launched check.
fn put_check_line(
    out: &mut Vec<u8>,
    alloc: Global,
    thread: &[u8],
    check: LaunchedCheck,
) -> Result<(), NoMemory>
    ensures { OnOk result (out.new.items ≡ out.old.items ++ check_line thread.now check) }
{
    let LaunchedCheck {
        event,
        place,
        verdict,
    } = check;
    let rest = format!(in alloc; " {event} {} {}\n", PlaceText(place), VerdictText(verdict))?;
    put_line(out, b"check ", thread, rest.as_bytes())
}

/// Puts the lines of the threads' ends, one thread after another.
#[tactic(auto, using(crate::proofs::PieceLemmas::one_after_another))]
fn put_ends(
    out: &mut Vec<u8>,
    alloc: Global,
    threads: &[&[u8]],
    ends: &[End],
) -> Result<(), NoMemory>
    ensures { OnOk result (out.new.items ≡ out.old.items ++ flat_map thread_line (zip (map (λ name. name.now) threads.now) ends.now)) }
{
    match threads {
        [] => Ok(()),
        [name, names @ ..] => match ends {
            [] => Ok(()),
            [end, others @ ..] => {
                put_end(out, alloc, name, *end)?;
                put_ends(out, alloc, names, others)
            }
        },
    }
}

/// Puts the line of a thread's end.
fn put_end(out: &mut Vec<u8>, alloc: Global, thread: &[u8], end: End) -> Result<(), NoMemory>
    ensures { OnOk result (out.new.items ≡ out.old.items ++ thread_line (thread.now, end)) }
{
    let rest = format!(in alloc; " {}\n", EndText(end))?;
    put_line(out, b"thread ", thread, rest.as_bytes())
}

/// Puts a line that names a thread.
fn put_line(out: &mut Vec<u8>, word: &[u8], thread: &[u8], rest: &[u8]) -> Result<(), NoMemory>
    ensures { OnOk result (out.new.items ≡ out.old.items ++ (word.now ++ (thread.now ++ rest.now))) }
{
    out.extend_from_slice(word)?;
    out.extend_from_slice(thread)?;
    Ok(out.extend_from_slice(rest)?)
}

/// Puts the line of the counts.
pub(crate) fn put_counts(
    out: &mut Vec<u8>,
    alloc: Global,
    verdicts: &[Verdict],
) -> Result<(), NoMemory>
    ensures { OnOk result (out.new.items ≡ out.old.items ++ count_line verdicts.now) }
{
    let checks = verdicts.len();
    let holds = count_holds(verdicts);
    let fails = count_fails(verdicts);
    let other = count_other(verdicts);
    let line = format!(in alloc; "checks {checks} holds {holds} fails {fails} other {other}\n")?;
    Ok(out.extend_from_slice(line.as_bytes())?)
}
