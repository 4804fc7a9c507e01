//! What runs write, and their statuses.

use super::calling::{Lent, call, lends};
use super::texts::{
    BUMP, BUMP_REPORT, DOWN, DOWN_REPORT, FAULTS, FAULTS_REPORT, LIST, LIST_REPORT, LIST_SPENT,
    LOST, LOST_KEPT, LOST_REPORT, NO_CHECKS, THREE, TWO, TWO_JOURNAL, TWO_JSON, TWO_REPORT,
    UNFINISHED, UNFINISHED_REPORT,
};
use st_events::{Event, Kind, Shape, Sizes, replay};
use std::alloc::Global;
use std::test::Fail;

#[test]
fn a_run_has_its_report_and_its_status(rt: HostRuntime) -> Result<(), Fail> {
    let rows: [(&str, &[&str], u8, &str); 16] = [
        ("", &["run", "source"], 0, NO_CHECKS),
        (TWO, &["run", "source"], 0, TWO_REPORT),
        (TWO, &["run", "source", "--checkers", "0"], 0, TWO_REPORT),
        (
            TWO,
            &["run", "source", "--schedule", "0", "--journal"],
            0,
            TWO_JOURNAL,
        ),
        (TWO, &["run", "--json", "source"], 0, TWO_JSON),
        (LIST, &["run", "source"], 1, LIST_REPORT),
        (LIST, &["run", "source", "--calls=3"], 1, LIST_REPORT),
        (LIST, &["run", "source", "--calls", "2"], 1, LIST_SPENT),
        (
            LOST,
            &["run", "source", "--copies", "0", "--schedule", "0"],
            8,
            LOST_REPORT,
        ),
        (LOST, &["run", "source", "--copies", "24"], 0, LOST_KEPT),
        (FAULTS, &["run", "source"], 1, FAULTS_REPORT),
        (BUMP, &["run", "source"], 0, BUMP_REPORT),
        (DOWN, &["run", "source"], 8, DOWN_REPORT),
        (LIST, &["run", "source", "--schedule", "1"], 1, LIST_REPORT),
        (
            LIST,
            &["run", "source", "--schedule=18446744073709551615"],
            1,
            LIST_REPORT,
        ),
        (UNFINISHED, &["run", "source"], 4, UNFINISHED_REPORT),
    ];
    for (source, words, status, written) in rows {
        let (outcome, out) = call(&rt, rt.alloc(), words, &lends(source)).expect(&rt, "memory");
        assert_eq!(rt; outcome.status, status);
        assert!(rt; outcome.ran.is_some());
        assert_eq!(rt; out.bytes(), written.as_bytes());
    }
    Ok(())
}

#[test]
fn a_thread_that_is_stopped_is_told(rt: HostRuntime) -> Result<(), Fail> {
    let rows: [(&str, &[&str], &str); 4] = [
        (
            THREE,
            &["run", "source", "--objects", "2"],
            "thread t fault heap full 5:16\nchecks 0 holds 0 fails 0 other 0\n",
        ),
        (
            THREE,
            &["run", "source", "--objects", "2", "--journal"],
            "strobe journal 1\nsizes 1 8 2 4096 65536 100000\nN 0 2 1\nN 0 3 1\nend 2 0\n",
        ),
        (
            "thread t { while (true) { } }",
            &["run", "source", "--events", "5"],
            "thread t fault events spent\nchecks 0 holds 0 fails 0 other 0\n",
        ),
        (
            "proc p() { p(); }\nthread t { p(); }",
            &["run", "source"],
            "thread t fault deep 1:12\nchecks 0 holds 0 fails 0 other 0\n",
        ),
    ];
    for (source, words, written) in rows {
        let (outcome, out) = call(&rt, rt.alloc(), words, &lends(source)).expect(&rt, "memory");
        assert_eq!(rt; outcome.status, 4);
        assert_eq!(rt; out.bytes(), written.as_bytes());
    }
    Ok(())
}

/// The word of object 1 after a replay of a journal of two threads, where the one shared variable is a number.
fn shared_word_after(alloc: Global, events: &[Event]) -> Option<u64> {
    let kinds = vec![in alloc; Kind::Int].ok()?;
    let shape = Shape {
        classes: vec![in alloc; kinds].ok()?,
        checks: Vec::new(alloc),
    };
    if !shape.fits() || events.len() > u32::MAX as usize {
        return None;
    }
    match replay(alloc, &shape, &Sizes::usual(2), events) {
        Ok(heap) => heap.get(1, 0),
        Err(_) => None,
    }
}

#[test]
fn the_journal_of_a_run_replays_to_its_heap(rt: HostRuntime) -> Result<(), Fail> {
    let words = ["run", "source"];
    let (outcome, _) = call(&rt, rt.alloc(), &words, &lends(BUMP)).expect(&rt, "memory");
    match outcome.ran {
        Some(ran) => assert_eq!(rt; shared_word_after(rt.alloc(), &ran.journal), Some(200)),
        None => assert!(rt; false),
    }
    Ok(())
}

#[test]
fn the_journal_of_a_long_run_is_written_read_and_audited(rt: HostRuntime) -> Result<(), Fail> {
    let words = ["run", "source", "--journal"];
    let (outcome, out) = call(&rt, rt.alloc(), &words, &lends(BUMP)).expect(&rt, "memory");
    assert_eq!(rt; outcome.status, 0);
    // Each thread loads and changes the variable a hundred times.
    assert!(rt; outcome.ran.is_some_and(|ran| ran.journal.len() >= 400));
    let lent = Lent {
        journal: str::from_utf8(out.bytes())?,
        ..lends(BUMP)
    };
    let words = ["audit", "source", "journal"];
    let (outcome, out) = call(&rt, rt.alloc(), &words, &lent).expect(&rt, "memory");
    assert_eq!(rt; outcome.status, 0);
    assert_eq!(rt; out.bytes(), "audit ok\n".as_bytes());
    Ok(())
}
