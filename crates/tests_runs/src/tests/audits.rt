//! Rows of audits: what each finds of a journal and its verdicts.

use super::calls::{Amounts, Unrun, finding_of};
use super::events::{FAILS, HOLDS, NONE, at, launch, new, one, retire, store, store_by};
use super::texts::{APART, BESIDE, BOTH, FAULTS, LOST, TWO};
use st_audit::Finding;
use st_events::{Event, Plain, Sizes, Verdict};
use st_source::read_source;
use std::alloc::Global;
use std::test::Fail;

/// Events, their verdicts, and what an audit must find, if anything.
type Row<'a> = (&'a [Event], &'a [Verdict], Option<Finding>);

/// The place of a row, from 0, and what is found there.
type Other = (usize, Option<Finding>);

/// The first row of which an audit against the text finds something else.
fn first_other(
    alloc: Global,
    text: &[u8],
    sizes: Sizes,
    rows: &[Row<'_>],
) -> Result<Option<Other>, Unrun> {
    let typed = read_source(alloc, text)?;
    for place in 0..rows.len() {
        let (events, verdicts, wanted) = rows[place];
        let found = finding_of(alloc, &typed, &sizes, events, verdicts)?;
        if found != wanted {
            return Ok(Some((place, found)));
        }
    }
    Ok(None)
}

/// The usual sizes of so many threads.
fn usual(mutators: u8) -> Sizes {
    Amounts::USUAL.sizes(mutators)
}

/// The usual sizes of one thread, with so many copies.
fn copies(copies: u32) -> Sizes {
    let amounts = Amounts {
        copies,
        ..Amounts::USUAL
    };
    amounts.sizes(1)
}

fn abandoned(obj: u32) -> Verdict {
    Verdict::Abandoned { obj }
}

fn not_legal(place: u32) -> Option<Finding> {
    Some(Finding::NotLegal { place })
}

fn not_trace(thread: u8, event: u32) -> Option<Finding> {
    Some(Finding::NotTrace { thread, event })
}

fn count(launches: u32, verdicts: u32) -> Option<Finding> {
    Some(Finding::VerdictCount { launches, verdicts })
}

fn wrong(number: u32, plain: Plain) -> Option<Finding> {
    Some(Finding::WrongVerdict { number, plain })
}

/// The check with this number holds, which is not its verdict.
fn holds(number: u32) -> Option<Finding> {
    wrong(number, Plain::Holds)
}

/// The journal of `TWO` by seed 0.
fn right() -> [Event; 4] {
    [new(2), launch(1, 0, one(2)), store(2, 0, 1), retire(1, 1)]
}

#[test]
fn a_damaged_line_of_two_is_found(rt: HostRuntime) -> Result<(), Fail> {
    let [make, check, set, end] = right();
    let rows: [Row<'_>; 5] = [
        (&[new(3), check, set, end], &[HOLDS], not_legal(0)),
        (
            &[make, check, store(2, 0, 7), end],
            &[HOLDS],
            not_trace(0, 3),
        ),
        (
            &[make, launch(1, 0, NONE), set, end],
            &[HOLDS],
            not_legal(1),
        ),
        (&[make, set, check, end], &[HOLDS], not_trace(0, 2)),
        (&[make, check, set, retire(0, 1)], &[HOLDS], None),
    ];
    assert_eq!(rt; first_other(rt.alloc(), TWO, usual(1), &rows), Ok(None));
    Ok(())
}

#[test]
fn lines_too_few_or_too_many_of_two_are_found(rt: HostRuntime) -> Result<(), Fail> {
    let [make, check, set, end] = right();
    let rows: [Row<'_>; 7] = [
        (&[], &[], not_trace(0, 1)),
        (&[make, check], &[HOLDS], not_trace(0, 3)),
        (&[make, set], &[HOLDS], not_trace(0, 2)),
        (&[make, check, set], &[HOLDS], None),
        (&[make, check, set, end, end], &[HOLDS], not_legal(4)),
        (&[make, check, set, end, set], &[HOLDS], not_trace(0, 4)),
        // No thread is looked at before every event is legal.
        (&[make, store(2, 0, 7), new(9)], &[HOLDS], not_legal(2)),
    ];
    assert_eq!(rt; first_other(rt.alloc(), TWO, usual(1), &rows), Ok(None));
    Ok(())
}

#[test]
fn the_verdict_of_two_is_one_and_holds(rt: HostRuntime) -> Result<(), Fail> {
    let events = right();
    let rows: [Row<'_>; 6] = [
        (&events, &[HOLDS], None),
        (&events, &[FAILS], holds(1)),
        (&events, &[abandoned(2)], holds(1)),
        (&events, &[], count(1, 0)),
        (&events, &[HOLDS, HOLDS], count(1, 2)),
        // Verdicts are counted before one is looked at.
        (&events, &[FAILS, FAILS], count(1, 2)),
    ];
    assert_eq!(rt; first_other(rt.alloc(), TWO, usual(1), &rows), Ok(None));
    Ok(())
}

#[test]
fn sizes_are_looked_at_first(rt: HostRuntime) -> Result<(), Fail> {
    let events = right();
    let wrong_sizes = Some(Finding::WrongSizes);
    let rows: [Row<'_>; 2] = [
        (&events, &[HOLDS], wrong_sizes),
        (&[new(3)], &[HOLDS], wrong_sizes),
    ];
    assert_eq!(rt; first_other(rt.alloc(), TWO, usual(2), &rows), Ok(None));
    let rows: [Row<'_>; 1] = [(&events, &[abandoned(2)], None)];
    assert_eq!(rt; first_other(rt.alloc(), TWO, copies(0), &rows), Ok(None));
    Ok(())
}

#[test]
fn of_two_threads_the_least_is_found(rt: HostRuntime) -> Result<(), Fail> {
    let a = store_by(0, 1, 0, 1);
    let b = store_by(1, 1, 0, 2);
    let other_a = store_by(0, 1, 0, 5);
    let other_b = store_by(1, 1, 0, 6);
    let rows: [Row<'_>; 9] = [
        (&[a, b], &[], None),
        (&[b, a], &[], None),
        (&[], &[], not_trace(0, 1)),
        (&[a], &[], not_trace(1, 1)),
        (&[b], &[], not_trace(0, 1)),
        (&[other_b, other_a], &[], not_trace(0, 1)),
        (&[other_b, a], &[], not_trace(1, 1)),
        (&[a, b, other_b], &[], not_trace(1, 2)),
        (&[a, b, other_b, other_a], &[], not_trace(0, 2)),
    ];
    assert_eq!(rt; first_other(rt.alloc(), APART, usual(2), &rows), Ok(None));
    Ok(())
}

/// Events of `LOST`: without copies the store loses the version that the first check reads.
fn losing() -> [Event; 4] {
    [
        launch(1, 0, NONE),
        store(1, 0, 1),
        new(2),
        launch(2, 1, one(2)),
    ]
}

#[test]
fn a_version_that_is_lost_may_be_abandoned(rt: HostRuntime) -> Result<(), Fail> {
    let events = losing();
    let rows: [Row<'_>; 6] = [
        (&events, &[abandoned(1), HOLDS], None),
        (&events, &[HOLDS, HOLDS], None),
        (&events, &[abandoned(1), abandoned(1)], holds(2)),
        (&events, &[abandoned(2), HOLDS], holds(1)),
        (&events, &[FAILS, FAILS], holds(1)),
        (&events, &[abandoned(1), FAILS], holds(2)),
    ];
    assert_eq!(rt; first_other(rt.alloc(), LOST, copies(0), &rows), Ok(None));
    Ok(())
}

#[test]
fn a_version_that_is_kept_or_not_needed_is_no_reason(rt: HostRuntime) -> Result<(), Fail> {
    let events = losing();
    let rows: [Row<'_>; 1] = [(&events, &[abandoned(1), HOLDS], holds(1))];
    assert_eq!(rt; first_other(rt.alloc(), LOST, copies(1), &rows), Ok(None));
    let [check, set, make, last] = events;
    let retired = [check, retire(0, 1), set, make, last];
    let rows: [Row<'_>; 1] = [(&retired, &[abandoned(1), HOLDS], holds(1))];
    assert_eq!(rt; first_other(rt.alloc(), LOST, copies(0), &rows), Ok(None));
    Ok(())
}

#[test]
fn a_version_that_is_not_read_is_no_reason(rt: HostRuntime) -> Result<(), Fail> {
    let events = [new(2), launch(1, 0, NONE), store(2, 0, 1)];
    let rows: [Row<'_>; 3] = [
        // Lost, and not read.
        (&events, &[abandoned(2)], holds(1)),
        // Read, and not lost.
        (&events, &[abandoned(1)], holds(1)),
        (&events, &[HOLDS], None),
    ];
    assert_eq!(rt; first_other(rt.alloc(), BESIDE, copies(0), &rows), Ok(None));
    Ok(())
}

#[test]
fn one_copy_keeps_the_first_of_two_versions(rt: HostRuntime) -> Result<(), Fail> {
    let [make, check, first, second] = [
        new(2),
        launch(1, 0, one(2)),
        store(1, 0, 1),
        store(2, 0, 1),
    ];
    let both = [make, check, first, second];
    let rows: [Row<'_>; 3] = [
        (&both, &[abandoned(2)], None),
        (&both, &[abandoned(1)], holds(1)),
        // The check is retired between the two changes.
        (
            &[make, check, first, retire(1, 1), second],
            &[abandoned(2)],
            holds(1),
        ),
    ];
    assert_eq!(rt; first_other(rt.alloc(), BOTH, copies(1), &rows), Ok(None));
    let rows: [Row<'_>; 1] = [(&both, &[abandoned(2)], holds(1))];
    assert_eq!(rt; first_other(rt.alloc(), BOTH, usual(1), &rows), Ok(None));
    Ok(())
}

#[test]
fn the_right_verdict_may_be_a_fault(rt: HostRuntime) -> Result<(), Fail> {
    let events = [launch(1, 0, one(0)), launch(2, 1, NONE), launch(3, 2, NONE)];
    let null = Plain::Null(at(4, 10));
    let divide = Plain::Divide(at(5, 11));
    let told = Verdict::Plain(null);
    let rows: [Row<'_>; 3] = [
        (&events, &[HOLDS, HOLDS, HOLDS], wrong(1, null)),
        (&events, &[told, HOLDS, HOLDS], wrong(2, divide)),
        (&events, &[told, Verdict::Plain(divide)], count(3, 2)),
    ];
    assert_eq!(rt; first_other(rt.alloc(), FAULTS, usual(1), &rows), Ok(None));
    Ok(())
}
