//! Worked rows: two checks on one version, two on two, a Cas, and a pool that is full.

use super::steps::Step;
use crate::Driven;
use st_events::Sizes;
use std::test::Fail;

fn small(copies: u32) -> Sizes {
    Sizes {
        mutators: 1,
        lanes: 2,
        objects: 4,
        copies,
        events: 100,
        calls: 10,
    }
}

#[test]
fn two_checks_share_one_copy(rt: HostRuntime) -> Result<(), Fail> {
    let mut heap = Driven::make(rt.alloc(), 0, small(4))?;
    let steps = [
        Step::Launch { gives: Some(1) },
        Step::Launch { gives: Some(2) },
        Step::Idle { gives: 0 },
        Step::Store {
            object: 0,
            value: 5,
        },
        Step::Free { gives: 3 },
        Step::Read {
            check: 0,
            object: 0,
            gives: 0,
        },
        Step::Read {
            check: 1,
            object: 0,
            gives: 0,
        },
        Step::Load {
            object: 0,
            gives: 5,
        },
        Step::Retire { check: 0 },
        Step::Free { gives: 3 },
        Step::Retire { check: 0 },
        Step::Free { gives: 4 },
    ];
    assert!(rt; heap.plays_all(&steps)?);
    Ok(())
}

#[test]
fn each_check_reads_its_own_version(rt: HostRuntime) -> Result<(), Fail> {
    let mut heap = Driven::make(rt.alloc(), 0, small(4))?;
    let steps = [
        Step::Launch { gives: Some(1) },
        Step::Store {
            object: 0,
            value: 5,
        },
        Step::Launch { gives: Some(2) },
        Step::Store {
            object: 0,
            value: 6,
        },
        Step::Free { gives: 2 },
        Step::Read {
            check: 0,
            object: 0,
            gives: 0,
        },
        Step::Read {
            check: 1,
            object: 0,
            gives: 5,
        },
        Step::Load {
            object: 0,
            gives: 6,
        },
        Step::Launch { gives: None },
    ];
    assert!(rt; heap.plays_all(&steps)?);
    Ok(())
}

#[test]
fn a_cas_writes_only_over_the_expected_word(rt: HostRuntime) -> Result<(), Fail> {
    let mut heap = Driven::make(rt.alloc(), 0, small(4))?;
    let steps = [
        Step::Launch { gives: Some(1) },
        Step::Cas {
            object: 0,
            expect: 1,
            value: 5,
            gives: false,
        },
        Step::Free { gives: 4 },
        Step::Cas {
            object: 0,
            expect: 0,
            value: 5,
            gives: true,
        },
        Step::Free { gives: 3 },
        Step::Cas {
            object: 0,
            expect: 0,
            value: 6,
            gives: false,
        },
        Step::Load {
            object: 0,
            gives: 5,
        },
        Step::Read {
            check: 0,
            object: 0,
            gives: 0,
        },
    ];
    assert!(rt; heap.plays_all(&steps)?);
    Ok(())
}

#[test]
fn a_full_pool_loses_a_version(rt: HostRuntime) -> Result<(), Fail> {
    let mut heap = Driven::make(rt.alloc(), 1, small(1))?;
    let steps = [
        Step::New { gives: 2 },
        Step::Launch { gives: Some(1) },
        Step::Store {
            object: 0,
            value: 5,
        },
        Step::Store {
            object: 1,
            value: 6,
        },
        Step::Read {
            check: 0,
            object: 0,
            gives: 0,
        },
        Step::Lost {
            check: 0,
            object: 1,
            gives: 2,
        },
        Step::Free { gives: 0 },
        Step::Retire { check: 0 },
        Step::Free { gives: 1 },
    ];
    assert!(rt; heap.plays_all(&steps)?);
    Ok(())
}
