//! Words of every kind: each command, and each option at, below and above its range.

use st_words::{Form, Words, WordsError, read_words};
use std::alloc::Global;
use std::test::Fail;

/// Lines of words, which stand between blanks, and whether they are accepted.
const LINES: [(&str, bool); 74] = [
    // the commands
    ("run two", true),
    ("check two", true),
    ("audit two journal", true),
    ("gen 1", true),
    ("demo 1000", true),
    ("run", false),
    ("", false),
    ("two", false),
    ("help", false),
    ("--help", false),
    ("-- run two", false),
    ("run two three", false),
    ("check", false),
    ("audit two", false),
    ("audit two journal more", false),
    ("gen 0", false),
    ("gen 1001", false),
    ("gen", false),
    ("demo 0", false),
    ("demo x", false),
    ("check two --json", false),
    // each option at the ends of its range, and past them
    ("run two --lanes 1", true),
    ("run two --lanes 8", true),
    ("run two --lanes 0", false),
    ("run two --lanes 9", false),
    ("run two --checkers 0", true),
    ("run two --checkers 8", true),
    ("run two --checkers 9", false),
    ("run two --objects 1", true),
    ("run two --objects 16384", true),
    ("run two --objects 0", false),
    ("run two --objects 16385", false),
    ("run two --copies 0", true),
    ("run two --copies 1048576", true),
    ("run two --copies 1048577", false),
    ("run two --events 1", true),
    ("run two --events 1048576", true),
    ("run two --events 0", false),
    ("run two --events 1048577", false),
    ("run two --calls 0", true),
    ("run two --calls 1000000", true),
    ("run two --calls 1000001", false),
    ("run two --schedule 0", true),
    ("run two --schedule 18446744073709551615", true),
    ("run two --schedule 18446744073709551616", false),
    // how numbers and values are written
    ("run two --lanes 00000000000000000008", true),
    ("run two --lanes 000000000000000000008", false),
    ("run two --lanes +1", false),
    ("run two --lanes -1", false),
    ("run two --lanes 1x", false),
    ("run two --lanes=", false),
    ("run two --lanes ", false),
    ("run two --lanes --", false),
    ("run two --lanes", false),
    ("run two --checkers=8", true),
    ("run two --objects=4", true),
    ("run two --schedule=18446744073709551615", true),
    ("run two --copies=1048577", false),
    ("run two --json=true", false),
    ("run two --journal=true", false),
    // what may not stand twice or together, and what is no option
    ("run two --lanes 1 --lanes 2", false),
    ("run two --checkers 1 --checkers 2", false),
    ("run two --objects 1 --objects 2", false),
    ("run two --copies 1 --copies 2", false),
    ("run two --events 1 --events 2", false),
    ("run two --calls 1 --calls 2", false),
    ("run two --schedule 1 --schedule 2", false),
    ("run two --json --json", false),
    ("run two --journal --journal", false),
    ("run two --json --journal", false),
    ("run two --schedule 1 --checkers 1", false),
    ("run two --lane 1", false),
    ("run two -x", false),
    ("run -- -x", true),
];

/// What the words of a line say.
fn read_line(alloc: Global, line: &str) -> Result<Result<Words, WordsError>, Fail> {
    let mut words = Vec::new(alloc);
    for word in line.split(' ') {
        words.push(String::from_str(alloc, word)?)?;
    }
    Ok(read_words(alloc, words.as_slice()))
}

#[test]
fn words_are_accepted_or_refused(rt: HostRuntime) -> Result<(), Fail> {
    for (line, accepted) in LINES {
        assert_eq!(rt; read_line(rt.alloc(), line)?.is_ok(), accepted);
    }
    assert!(rt; read_words(rt.alloc(), &[]).is_err());
    Ok(())
}

#[test]
fn a_run_has_its_numbers_and_its_names(rt: HostRuntime) -> Result<(), Fail> {
    let line = "run --lanes=3 --objects 4 two --copies=5 --events 6 --calls=7 --schedule 8 --json";
    if let Ok(Words::Run(call)) = read_line(rt.alloc(), line)? {
        assert_eq!(rt; call.file.as_str(), "two");
        assert_eq!(rt; (call.lanes, call.checkers, call.objects), (3, 2, 4));
        assert_eq!(rt; (call.copies, call.events, call.calls), (5, 6, 7));
        assert_eq!(rt; (call.schedule, call.form), (Some(8), Form::Json));
        return Ok(());
    }
    Err("a run")?
}

#[test]
fn a_run_has_its_usual_numbers(rt: HostRuntime) -> Result<(), Fail> {
    if let Ok(Words::Run(call)) = read_line(rt.alloc(), "run two")? {
        assert_eq!(rt; (call.lanes, call.checkers, call.objects), (8, 2, 4_096));
        assert_eq!(rt;
            (call.copies, call.events, call.calls),
            (4_096, 65_536, 100_000)
        );
        assert_eq!(rt; (call.schedule, call.form), (None, Form::Text));
        return Ok(());
    }
    Err("a run")?
}

#[test]
fn an_audit_has_its_names_in_order(rt: HostRuntime) -> Result<(), Fail> {
    if let Ok(Words::Audit { file, journal }) = read_line(rt.alloc(), "audit two -- --journal")? {
        assert_eq!(rt; file.as_str(), "two");
        assert_eq!(rt; journal.as_str(), "--journal");
        return Ok(());
    }
    Err("an audit")?
}
