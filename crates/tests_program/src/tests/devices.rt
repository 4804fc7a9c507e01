//! Reads and puts that fail, and sources at the limit.

use super::calling::{Lent, call, lends, owned};
use super::texts::{LIST, NO_CHECKS, TWO};
use st_io::{MemFiles, MemSink, NoPace};
use st_top::{strobe, strobe_on_text};
use std::test::Fail;

/// How many puts a call makes that is refused none: the lines of what it writes.
fn count_lines(bytes: &[u8]) -> u32 {
    let mut lines: u32 = 0;
    for byte in bytes {
        if *byte == b'\n' {
            lines = lines.saturating_add(1);
        }
    }
    lines
}

#[test]
fn each_put_is_refused_in_turn(rt: HostRuntime) -> Result<(), Fail> {
    let commands: [&[&str]; 7] = [
        &["run", "source"],
        &["run", "source", "--json"],
        &["run", "source", "--journal"],
        &["check", "source"],
        &["audit", "source", "journal"],
        &["gen", "1"],
        &["demo", "15"],
    ];
    for words in commands {
        let (_, whole) = call(&rt, rt.alloc(), words, &lends(TWO)).expect(&rt, "memory");
        let lines = count_lines(whole.bytes());
        for put in 1..=lines {
            let failing = [(put, 0)];
            let lent = Lent {
                failing_puts: &failing,
                ..lends(TWO)
            };
            let (outcome, out) = call(&rt, rt.alloc(), words, &lent).expect(&rt, "memory");
            assert_eq!(rt; outcome.status, 6);
            assert!(rt; whole.bytes().starts_with(out.bytes()));
            assert_eq!(rt; count_lines(out.bytes()).saturating_add(1), put);
        }
    }
    Ok(())
}

#[test]
fn faults_of_files_have_their_status(rt: HostRuntime) -> Result<(), Fail> {
    let first: [u32; 1] = [1];
    let second: [u32; 1] = [2];
    let rows: [(&[u32], &[&str]); 4] = [
        (&first, &["run", "source"]),
        (&first, &["check", "source"]),
        (&second, &["audit", "source", "journal"]),
        (&[], &["run", "none"]),
    ];
    for (failing_reads, words) in rows {
        let lent = Lent {
            failing_reads,
            ..lends(TWO)
        };
        let (outcome, out) = call(&rt, rt.alloc(), words, &lent).expect(&rt, "memory");
        assert_eq!(rt; outcome.status, 5);
        assert_eq!(rt; out.bytes(), "read fault\n".as_bytes());
    }
    Ok(())
}

#[test]
fn a_source_has_at_most_a_mebibyte(rt: HostRuntime) -> Result<(), Fail> {
    let alloc = rt.alloc();
    let words = owned(alloc, &["run", "blanks"])?;
    for (blanks, status, written) in [
        (1_048_577, 3, "source too long\n"),
        (1_048_576, 0, NO_CHECKS),
    ] {
        let file = (
            String::from_str(alloc, "blanks")?,
            vec![in alloc; b' '; blanks]?,
        );
        let mut files = MemFiles::make(vec![in alloc; file]?, Vec::new(alloc));
        let mut out = MemSink::with_room(alloc, 100, Vec::new(alloc)).expect(&rt, "memory");
        let outcome = strobe(&rt, alloc, &words, &mut files, &mut out, &NoPace);
        assert_eq!(rt; outcome.status, status);
        assert_eq!(rt; out.bytes(), written.as_bytes());
    }
    Ok(())
}

// A top call that always answers want of memory is refused here.
#[test]
fn a_text_in_memory_is_served_without_a_device(rt: HostRuntime) -> Result<(), Fail> {
    let alloc = rt.alloc();
    for (command, text, status) in [
        ("run", TWO, 0),
        ("run", LIST, 1),
        ("check", TWO, 0),
        ("run", "#", 3),
    ] {
        let words = owned(alloc, &[command, "any"])?;
        let text = text.as_bytes().to_vec(alloc)?;
        assert_eq!(rt; strobe_on_text(&rt, alloc, &words, text).status, status);
    }
    Ok(())
}
