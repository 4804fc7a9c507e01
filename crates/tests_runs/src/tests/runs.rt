//! Rows of runs: what each leaves.

use super::calls::{Amounts, Unrun, run_text, word_after};
use super::events::{FAILS, HOLDS, NONE, at, launch, new, one, retire, store};
use super::texts::{BUMP, DEEP, DOWN, ENDLESS, FAULTS, LIST, LOST, NULL, THREE, TWO};
use st_events::{End, Event, Plain, Ran, Verdict};
use std::alloc::Global;
use std::test::Fail;

const USUAL: Amounts = Amounts::USUAL;

const SPENT: Verdict = Verdict::Plain(Plain::Spent);

/// The end of one thread that does all its statements.
const FINISHED: [End; 1] = [End::Finished];

/// A text, what a run of it may use, how many seeds it is run by, the events that are no Retire in their order, the verdicts, the ends, and
/// how many copies are free.
type Row<'a> = (
    &'a [u8],
    Amounts,
    u64,
    &'a [Event],
    &'a [Verdict],
    &'a [End],
    u32,
);

/// The place of a row, from 0, the first seed at which something is wrong, and what.
type Other = (usize, u64, Wrong);

/// What is not as it must be.
#[derive(Clone, Copy, Debug, PartialEq, Eq)]
enum Wrong {
    Run(Unrun),
    Steps,
    Journal,
    Verdicts,
    Ends,
    Free,
}

fn is_retire(event: Event) -> bool {
    match event {
        Event::Retire { .. } => true,
        _ => false,
    }
}

/// Whether the events that are no Retire are these.
fn has_steps(journal: &[Event], steps: &[Event]) -> bool {
    let mut next = 0;
    for event in journal {
        if is_retire(*event) {
            continue;
        }
        if next >= steps.len() || steps[next] != *event {
            return false;
        }
        next += 1;
    }
    next == steps.len()
}

fn wrong_in(ran: &Ran, row: Row<'_>) -> Option<Wrong> {
    let (_, _, _, steps, verdicts, ends, free) = row;
    if !has_steps(ran.journal.as_slice(), steps) {
        return Some(Wrong::Steps);
    }
    if ran.verdicts.as_slice() != verdicts {
        return Some(Wrong::Verdicts);
    }
    if ran.ends.as_slice() != ends {
        return Some(Wrong::Ends);
    }
    if ran.free != free {
        return Some(Wrong::Free);
    }
    None
}

fn wrong_by_seed(alloc: Global, row: Row<'_>, seed: u64) -> Option<Wrong> {
    match run_text(alloc, row.0, row.1, seed) {
        Ok(ran) => wrong_in(&ran, row),
        Err(why) => Some(Wrong::Run(why)),
    }
}

/// The first seed at which something is wrong, and what.
fn find_wrong(alloc: Global, row: Row<'_>) -> Option<(u64, Wrong)> {
    for seed in 0..row.2 {
        match wrong_by_seed(alloc, row, seed) {
            Some(wrong) => return Some((seed, wrong)),
            None => {}
        }
    }
    None
}

/// The first row of which something is wrong.
fn first_wrong(alloc: Global, rows: &[Row<'_>]) -> Option<Other> {
    for place in 0..rows.len() {
        match find_wrong(alloc, rows[place]) {
            Some((seed, wrong)) => return Some((place, seed, wrong)),
            None => {}
        }
    }
    None
}

/// Whether the run by seed 0 leaves this journal, event for event.
fn wrong_journal(alloc: Global, text: &[u8], amounts: Amounts, journal: &[Event]) -> Option<Wrong> {
    match run_text(alloc, text, amounts, 0) {
        Ok(ran) if ran.journal.as_slice() == journal => None,
        Ok(_) => Some(Wrong::Journal),
        Err(why) => Some(Wrong::Run(why)),
    }
}

#[test]
fn a_check_has_its_budget_of_calls(rt: HostRuntime) -> Result<(), Fail> {
    let list = [
        new(2),
        store(2, 0, 3),
        new(3),
        store(3, 0, 2),
        store(3, 1, 2),
        new(4),
        store(4, 0, 1),
        store(4, 1, 3),
        launch(1, 0, one(4)),
        store(4, 0, 9),
        launch(2, 1, one(4)),
    ];
    let three = Amounts { calls: 3, ..USUAL };
    let two = Amounts { calls: 2, ..USUAL };
    let rows: [Row<'_>; 3] = [
        (LIST, USUAL, 20, &list, &[HOLDS, FAILS], &FINISHED, 4096),
        (LIST, three, 20, &list, &[HOLDS, FAILS], &FINISHED, 4096),
        (LIST, two, 20, &list, &[SPENT, FAILS], &FINISHED, 4096),
    ];
    assert_eq!(rt; first_wrong(rt.alloc(), &rows), None);
    Ok(())
}

#[test]
fn a_version_is_lost_without_copies_and_kept_with_24(rt: HostRuntime) -> Result<(), Fail> {
    let lost = [
        launch(1, 0, NONE),
        store(1, 0, 1),
        new(2),
        launch(2, 1, one(2)),
    ];
    let none = Amounts { copies: 0, ..USUAL };
    let enough = Amounts {
        copies: 24,
        ..USUAL
    };
    let abandoned = Verdict::Abandoned { obj: 1 };
    let rows: [Row<'_>; 2] = [
        (LOST, none, 1, &lost, &[abandoned, HOLDS], &FINISHED, 0),
        (LOST, enough, 50, &lost, &[HOLDS, HOLDS], &FINISHED, 24),
    ];
    assert_eq!(rt; first_wrong(rt.alloc(), &rows), None);
    Ok(())
}

#[test]
fn a_verdict_may_be_a_fault_or_deep(rt: HostRuntime) -> Result<(), Fail> {
    let faults = [launch(1, 0, one(0)), launch(2, 1, NONE), launch(3, 2, NONE)];
    let fault_verdicts = [
        Verdict::Plain(Plain::Null(at(4, 10))),
        Verdict::Plain(Plain::Divide(at(5, 11))),
        Verdict::Plain(Plain::Overflow(at(6, 39))),
    ];
    let down = [launch(1, 0, NONE), launch(2, 1, NONE)];
    let deep = Verdict::Plain(Plain::Deep);
    let rows: [Row<'_>; 2] = [
        (FAULTS, USUAL, 20, &faults, &fault_verdicts, &FINISHED, 4096),
        (DOWN, USUAL, 1, &down, &[HOLDS, deep], &FINISHED, 4096),
    ];
    assert_eq!(rt; first_wrong(rt.alloc(), &rows), None);
    Ok(())
}

#[test]
fn each_thread_has_its_end(rt: HostRuntime) -> Result<(), Fail> {
    let finished_and_null = [End::Finished, End::Null(at(4, 32))];
    let full = [End::HeapFull(at(5, 16))];
    let deep = [End::ProcDeep(at(1, 12))];
    let two_objects = Amounts {
        objects: 2,
        ..USUAL
    };
    let five_events = Amounts { events: 5, ..USUAL };
    let rows: [Row<'_>; 5] = [
        (b"", USUAL, 20, &[], &[], &[], 4096),
        (
            NULL,
            USUAL,
            50,
            &[launch(1, 0, NONE)],
            &[HOLDS],
            &finished_and_null,
            4096,
        ),
        (THREE, two_objects, 20, &[new(2), new(3)], &[], &full, 4096),
        (
            ENDLESS,
            five_events,
            20,
            &[],
            &[],
            &[End::EventsSpent],
            4096,
        ),
        (DEEP, USUAL, 20, &[], &[], &deep, 4096),
    ];
    assert_eq!(rt; first_wrong(rt.alloc(), &rows), None);
    Ok(())
}

#[test]
fn the_journals_of_seed_0_are_these(rt: HostRuntime) -> Result<(), Fail> {
    let two = [new(2), launch(1, 0, one(2)), store(2, 0, 1), retire(1, 1)];
    let lost = [
        launch(1, 0, NONE),
        store(1, 0, 1),
        new(2),
        retire(0, 1),
        launch(2, 1, one(2)),
        retire(1, 2),
    ];
    let poor = Amounts { copies: 0, ..USUAL };
    assert_eq!(rt; wrong_journal(rt.alloc(), TWO, USUAL, &two), None);
    assert_eq!(rt; wrong_journal(rt.alloc(), LOST, poor, &lost), None);
    Ok(())
}

#[test]
fn two_threads_count_to_200(rt: HostRuntime) -> Result<(), Fail> {
    for seed in 0..20 {
        assert_eq!(rt;
            word_after(rt.alloc(), BUMP, USUAL, seed, 1, 0),
            Ok(Some(200)),
            "seed {seed}"
        );
    }
    Ok(())
}
