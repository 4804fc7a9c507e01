//! The report of a run as one line of JSON.
ghost use Rattle.std.specs.Prelude.{◌≡◌, ◌++◌, codes, map, IfOk, OnOk};
ghost use Rattle.std.specs.List.{enumerate_from, flat_map, zip};
ghost use Rattle.serde_json.specs.Written.{compact_text};
ghost use Rattle.st_report.specs.Checks.{checks_of};
ghost use Rattle.st_report.specs.Json.{before_comma, check_items, checks_before_commas, count_json, end_before_comma};
ghost use Rattle.st_report.specs.Json.{joined, json_line as json_line_of, json_of_parts, json_text, thread_json};
ghost use Rattle.st_report.specs.JsonValue.{report_value};

use crate::checks::{LaunchedCheck, collect_checks};
use crate::json_objects::{check_text, count_text, thread_text};
use st_events::{End, Event, NoMemory, Ran, Site, Verdict};
use std::alloc::Global;

/// The report of a run of a program whose threads have these names and whose check statements stand at these places, both in
/// the order of the source, as one line of JSON without blanks: the launched checks, the counts, and the threads with their ends.
#[tactic(auto, using(crate::proofs::ValueLemmas::line_tells_the_value))]
pub fn report_json(
    alloc: Global,
    threads: &[&[u8]],
    places: &[Site],
    ran: &Ran,
) -> Result<Vec<u8>, NoMemory>
    ensures text { IfOk result (λ text. text.items ≡ json_text (map (λ name. name.now) threads.now) places.now ran.now) }

    // It is the text that serde_json gives the report as a value, and a newline.
    ensures value { IfOk result (λ text. text.items ≡ compact_text (report_value (map (λ name. name.now) threads.now) places.now ran.now) ++ codes "\n") }
{
    let line = line_of_run(alloc, threads, places, ran)?;
    Ok(line)
}

/// The line of what a run leaves.
#[tactic(auto, unfolding(crate::specs::Json::json_text))]
fn line_of_run(
    alloc: Global,
    threads: &[&[u8]],
    places: &[Site],
    ran: &Ran,
) -> Result<Vec<u8>, NoMemory>
    ensures { IfOk result (λ text. text.items ≡ json_text (map (λ name. name.now) threads.now) places.now ran.now) }
{
    line_of_parts(
        alloc,
        threads,
        places,
        &ran.verdicts,
        &ran.journal,
        &ran.ends,
    )
}

/// The line of what a run leaves, part by part.
fn line_of_parts(
    alloc: Global,
    threads: &[&[u8]],
    places: &[Site],
    verdicts: &[Verdict],
    journal: &[Event],
    ends: &[End],
) -> Result<Vec<u8>, NoMemory>
    ensures { IfOk result (λ text. text.items ≡ json_of_parts (map (λ name. name.now) threads.now) places.now verdicts.now journal.now ends.now) }
{
    let checks = check_list(alloc, threads, places, verdicts, journal)?;
    let counts = count_text(alloc, verdicts)?;
    let ends = end_list(alloc, threads, ends)?;
    let line = json_line(alloc, &checks, &counts, &ends)?;
    Ok(line)
}

/// The line of these lists and counts.
#[tactic(auto, using(crate::proofs::JsonLemmas::four_parts))]
fn json_line(alloc: Global, checks: &[u8], counts: &[u8], ends: &[u8]) -> Result<Vec<u8>, NoMemory>
    ensures { IfOk result (λ text. text.items ≡ json_line_of checks.now counts.now ends.now) }
{
    let mut out = Vec::new(alloc);
    put_member(&mut out, b"{\"checks\":[", checks)?;
    put_member(&mut out, b"],\"counts\":", counts)?;
    put_member(&mut out, b",\"threads\":[", ends)?;
    out.extend_from_slice(b"]}\n")?;
    Ok(out)
}

/// Appends what stands before a value, and the value.
fn put_member(out: &mut Vec<u8>, before: &[u8], value: &[u8]) -> Result<(), NoMemory>
    ensures { OnOk result (out.new.items ≡ out.old.items ++ (before.now ++ value.now)) }
{
    out.extend_from_slice(before)?;
    Ok(out.extend_from_slice(value)?)
}

/// The launched checks, thread by thread, with a comma between two.
fn check_list(
    alloc: Global,
    threads: &[&[u8]],
    places: &[Site],
    verdicts: &[Verdict],
    journal: &[Event],
) -> Result<Vec<u8>, NoMemory>
    ensures { IfOk result (λ text. text.items ≡ joined (check_items (map (λ name. name.now) threads.now) places.now verdicts.now journal.now)) }
{
    let mut list = Vec::new(alloc);
    put_checks(&mut list, alloc, threads, places, verdicts, journal)?;
    list.pop();
    Ok(list)
}

/// The ends of the threads, with a comma between two.
fn end_list(alloc: Global, threads: &[&[u8]], ends: &[End]) -> Result<Vec<u8>, NoMemory>
    ensures { IfOk result (λ text. text.items ≡ joined (map thread_json (zip (map (λ name. name.now) threads.now) ends.now))) }
{
    let mut list = Vec::new(alloc);
    put_ends(&mut list, alloc, threads, ends)?;
    list.pop();
    Ok(list)
}

/// Appends the launched checks, thread by thread, each with a comma behind it.
fn put_checks(
    list: &mut Vec<u8>,
    alloc: Global,
    threads: &[&[u8]],
    places: &[Site],
    verdicts: &[Verdict],
    journal: &[Event],
) -> Result<(), NoMemory>
    ensures { OnOk result (list.new.items ≡ list.old.items ++ flat_map
        (λ thread. checks_before_commas thread.1 (checks_of thread.0 places.now verdicts.now journal.now))
        (enumerate_from 0 (map (λ name. name.now) threads.now))) }
{
    for (number, name) in threads.iter().enumerate() {
        let checks = collect_checks(alloc, number, places, verdicts, journal)?;
        put_checks_of(list, alloc, name, &checks)?;
    }
    Ok(())
}

/// Appends the checks that a thread launched, each with a comma behind it.
fn put_checks_of(
    list: &mut Vec<u8>,
    alloc: Global,
    thread: &[u8],
    checks: &[LaunchedCheck],
) -> Result<(), NoMemory>
    ensures { OnOk result (list.new.items ≡ list.old.items ++ checks_before_commas thread.now checks.now) }
{
    for check in checks {
        let text = check_text(alloc, thread, *check)?;
        put_item(list, &text)?;
    }
    Ok(())
}

/// Appends the ends of the threads, each with a comma behind it.
#[tactic(auto, using(crate::proofs::PieceLemmas::one_after_another))]
fn put_ends(
    list: &mut Vec<u8>,
    alloc: Global,
    threads: &[&[u8]],
    ends: &[End],
) -> Result<(), NoMemory>
    ensures { OnOk result (list.new.items ≡ list.old.items ++ flat_map end_before_comma (zip (map (λ name. name.now) threads.now) ends.now)) }
{
    match threads {
        [] => Ok(()),
        [name, names @ ..] => match ends {
            [] => Ok(()),
            [end, others @ ..] => {
                let text = thread_text(alloc, name, *end)?;
                put_item(list, &text)?;
                put_ends(list, alloc, names, others)
            }
        },
    }
}

/// Appends an item with a comma behind it.
fn put_item(list: &mut Vec<u8>, item: &[u8]) -> Result<(), NoMemory>
    ensures { OnOk result (list.new.items ≡ list.old.items ++ before_comma item.now) }
{
    list.extend_from_slice(item)?;
    Ok(list.extend_from_slice(b",")?)
}
