//! Rows of the threads' machines: what each tells after each word.

use super::calls::{Tell, Unrun, first_other};
use super::events::{NONE, at, one};
use super::texts::{
    BLOCK_TWICE, BY_VALUE, CALLS_256, CALLS_257, CAS, CHECK, DEEP, ENDLESS, IN_CAS_TARGET,
    IN_CAS_VALUE, IN_OBJECT, IN_TARGET, IN_VALUE, LOADS, LONG_PLACE, OVERFLOW, REFERENCES,
    STORE_THEN_NULL, THREE, THREE_TURNS, TWO, TWO_CALLS,
};
use st_events::End;
use st_mutator::Want;
use std::alloc::Global;
use std::test::Fail;

const NEW: Want = Want::New { class: 1 };

const FINISHED: Want = Want::End(End::Finished);

const LAUNCH: Want = Want::Launch {
    site: 0,
    args: NONE,
};

const SPENT: Want = Want::End(End::EventsSpent);

fn load(obj: u32, field: u8) -> Want {
    Want::Load { obj, field }
}

fn store(obj: u32, field: u8, value: u64) -> Want {
    Want::Store { obj, field, value }
}

fn null(line: u32, column: u32) -> Want {
    Want::End(End::Null(at(line, column)))
}

fn divide(line: u32, column: u32) -> Want {
    Want::End(End::Divide(at(line, column)))
}

fn full(line: u32, column: u32) -> Want {
    Want::End(End::HeapFull(at(line, column)))
}

fn deep(line: u32, column: u32) -> Want {
    Want::End(End::ProcDeep(at(line, column)))
}

/// A text, how many objects its thread may make, its charge, and what its machine must tell.
type Row<'a> = (&'a [u8], u32, u32, &'a [Tell]);

/// The place of a row, and of the first word there at which its machine tells something else; both from 0.
type Other = (usize, usize);

/// The first row whose machine tells something else.
fn first_other_row(alloc: Global, rows: &[Row<'_>]) -> Result<Option<Other>, Unrun> {
    for place in 0..rows.len() {
        let (text, objects, events, tells) = rows[place];
        match first_other(alloc, text, objects, events, tells)? {
            Some(word) => return Ok(Some((place, word))),
            None => {}
        }
    }
    Ok(None)
}

#[test]
fn a_thread_tells_how_it_ends(rt: HostRuntime) -> Result<(), Fail> {
    let rows: [Row<'_>; 5] = [
        (THREE, 2, 9, &[(0, NEW), (2, NEW), (3, full(5, 16))]),
        (ENDLESS, 9, 5, &[(0, SPENT)]),
        (DEEP, 9, 999, &[(0, deep(1, 12))]),
        (OVERFLOW, 9, 9, &[(0, Want::End(End::Overflow(at(2, 43))))]),
        (b"thread t { }", 1, 1, &[(0, FINISHED)]),
    ];
    assert_eq!(rt; first_other_row(rt.alloc(), &rows), Ok(None));
    Ok(())
}

#[test]
fn the_object_comes_first_then_the_value_then_the_test_for_null(
    rt: HostRuntime,
) -> Result<(), Fail> {
    let rows: [Row<'_>; 5] = [
        (IN_OBJECT, 9, 9, &[(0, null(4, 4))]),
        (IN_VALUE, 9, 9, &[(0, divide(4, 13))]),
        (IN_TARGET, 9, 9, &[(0, null(4, 4))]),
        (IN_CAS_VALUE, 9, 9, &[(0, divide(4, 33))]),
        (IN_CAS_TARGET, 9, 9, &[(0, null(4, 22))]),
    ];
    assert_eq!(rt; first_other_row(rt.alloc(), &rows), Ok(None));
    Ok(())
}

#[test]
fn null_and_room_are_tested_before_the_charge(rt: HostRuntime) -> Result<(), Fail> {
    let rows: [Row<'_>; 3] = [
        (
            STORE_THEN_NULL,
            9,
            1,
            &[(0, store(1, 0, 1)), (0, null(5, 4))],
        ),
        (THREE, 2, 2, &[(0, NEW), (2, NEW), (3, full(5, 16))]),
        (THREE, 9, 2, &[(0, NEW), (2, NEW), (3, SPENT)]),
    ];
    assert_eq!(rt; first_other_row(rt.alloc(), &rows), Ok(None));
    Ok(())
}

#[test]
fn each_step_has_its_cost(rt: HostRuntime) -> Result<(), Fail> {
    let rows: [Row<'_>; 8] = [
        (CHECK, 9, 2, &[(0, LAUNCH), (0, FINISHED)]),
        (CHECK, 9, 1, &[(0, SPENT)]),
        (THREE_TURNS, 9, 4, &[(0, FINISHED)]),
        (THREE_TURNS, 9, 3, &[(0, SPENT)]),
        (TWO_CALLS, 9, 2, &[(0, FINISHED)]),
        (TWO_CALLS, 9, 1, &[(0, SPENT)]),
        (
            LOADS,
            9,
            3,
            &[
                (0, load(1, 0)),
                (3, load(1, 0)),
                (4, store(1, 0, 7)),
                (0, FINISHED),
            ],
        ),
        (LOADS, 9, 2, &[(0, load(1, 0)), (3, load(1, 0)), (4, SPENT)]),
    ];
    assert_eq!(rt; first_other_row(rt.alloc(), &rows), Ok(None));
    Ok(())
}

#[test]
fn depth_is_tested_before_the_charge(rt: HostRuntime) -> Result<(), Fail> {
    let rows: [Row<'_>; 5] = [
        (CALLS_256, 9, 999, &[(0, store(1, 0, 1)), (0, FINISHED)]),
        (CALLS_256, 9, 257, &[(0, store(1, 0, 1)), (0, FINISHED)]),
        (CALLS_256, 9, 256, &[(0, SPENT)]),
        (CALLS_257, 9, 256, &[(0, deep(2, 31))]),
        (CALLS_257, 9, 255, &[(0, SPENT)]),
    ];
    assert_eq!(rt; first_other_row(rt.alloc(), &rows), Ok(None));
    Ok(())
}

#[test]
fn a_machine_goes_on_with_the_words_that_it_gets(rt: HostRuntime) -> Result<(), Fail> {
    let launch = Want::Launch {
        site: 0,
        args: one(2),
    };
    let cas = Want::Cas {
        obj: 1,
        field: 0,
        expect: 0,
        value: 1,
    };
    let rows: [Row<'_>; 4] = [
        (
            TWO,
            9,
            9,
            &[(0, NEW), (2, launch), (0, store(2, 0, 1)), (0, FINISHED)],
        ),
        (CAS, 9, 9, &[(0, cas), (1, store(1, 0, 7)), (0, FINISHED)]),
        (CAS, 9, 9, &[(0, cas), (0, store(1, 0, 8)), (0, FINISHED)]),
        (
            LONG_PLACE,
            9,
            9,
            &[
                (0, NEW),
                (2, load(2, 1)),
                (3, load(3, 1)),
                (4, store(4, 0, 6)),
                (0, FINISHED),
            ],
        ),
    ];
    assert_eq!(rt; first_other_row(rt.alloc(), &rows), Ok(None));
    Ok(())
}

#[test]
fn blocks_and_calls_have_locals_of_their_own(rt: HostRuntime) -> Result<(), Fail> {
    let rows: [Row<'_>; 3] = [
        (
            BLOCK_TWICE,
            9,
            9,
            &[(0, store(1, 0, 1)), (0, store(1, 0, 1)), (0, FINISHED)],
        ),
        (
            BY_VALUE,
            9,
            9,
            &[(0, store(1, 0, 5)), (0, store(1, 0, 4)), (0, FINISHED)],
        ),
        (
            REFERENCES,
            9,
            99,
            &[
                (0, NEW),
                (2, NEW),
                (3, store(2, 1, 3)),
                (0, store(3, 0, 5)),
                (0, store(2, 0, 6)),
                (0, store(3, 1, 2)),
                (0, store(2, 0, 5)),
                (0, store(3, 0, 6)),
                (0, FINISHED),
                (0, FINISHED),
            ],
        ),
    ];
    assert_eq!(rt; first_other_row(rt.alloc(), &rows), Ok(None));
    Ok(())
}
