//! A small journal and its text, texts that differ from it in one place, and changes of the text with what is then read: a file, for an audit to
//! judge, or a line that is told.

use st_events::{Args, Event, Plain, Sizes, Verdict};
use st_journal::{JournalError, JournalFile, read, write};
use std::alloc::{AllocError, Global};
use std::test::Fail;

/// Parts of the text, each with what stands in its place, one after another.
type Changes = &'static [(&'static str, &'static str)];
/// The sizes, events and verdicts that are read, or what is told.
type Answer<'a> = Result<(Sizes, &'a [Event], &'a [Verdict]), JournalError>;

/// It makes an object of class 1.
const NEW: Event = Event::New {
    m: 0,
    obj: 2,
    class: 1,
};
/// It launches check 1 with that object.
const LAUNCH: Event = Event::Launch {
    m: 0,
    site: 0,
    number: 1,
    args: Args {
        count: 1,
        words: [2, 0, 0, 0],
    },
};
/// It stores 1 into the object.
const STORE: Event = Event::Store {
    m: 0,
    obj: 2,
    field: 0,
    value: 1,
};
/// The check's end, by the main thread.
const RETIRE: Event = Event::Retire { m: 1, number: 1 };
/// The events of a run in which an object is made, checked and changed.
const EVENTS: [Event; 4] = [NEW, LAUNCH, STORE, RETIRE];
/// Its one verdict.
const VERDICTS: [Verdict; 1] = [Verdict::Plain(Plain::Holds)];
/// Its text.
const TEXT: &str = "strobe journal 1
sizes 1 8 4096 4096 65536 100000
N 0 2 1
K 0 1 0 1 2
S 0 2 0 1
R 1 1
V 1 holds
end 4 1
";
/// Its first two lines.
const HEAD: &str = "strobe journal 1\nsizes 1 8 4096 4096 65536 100000\n";

/// The sizes of the text.
const SIZES: Sizes = Sizes {
    mutators: 1,
    lanes: 8,
    objects: 4_096,
    copies: 4_096,
    events: 65_536,
    calls: 100_000,
};
/// The same for two threads.
const SIZES_OF_TWO: Sizes = Sizes {
    mutators: 2,
    lanes: 8,
    objects: 4_096,
    copies: 4_096,
    events: 65_536,
    calls: 100_000,
};
/// The same without copies.
const SIZES_WITHOUT_COPIES: Sizes = Sizes {
    mutators: 1,
    lanes: 8,
    objects: 4_096,
    copies: 0,
    events: 65_536,
    calls: 100_000,
};
/// The object has another number than the first of its thread.
const OTHER_NEW: Event = Event::New {
    m: 0,
    obj: 3,
    class: 1,
};
/// The launch has no argument.
const BARE_LAUNCH: Event = Event::Launch {
    m: 0,
    site: 0,
    number: 1,
    args: Args {
        count: 0,
        words: [0; 4],
    },
};
/// Another value is stored.
const OTHER_STORE: Event = Event::Store {
    m: 0,
    obj: 2,
    field: 0,
    value: 7,
};
/// The check's end, by its own thread.
const OWN_RETIRE: Event = Event::Retire { m: 0, number: 1 };
/// The check fails.
const FAILS: Verdict = Verdict::Plain(Plain::Fails);
/// The check is lost at object 2.
const LOST: Verdict = Verdict::Abandoned { obj: 2 };

/// Changes of the text, and what is then read. Only the text is judged here: an event that is not legal is read, too.
const ROWS: [(Changes, Answer<'static>); 21] = [
    (&[], Ok((SIZES, &EVENTS, &VERDICTS))),
    // a line tells something else
    (
        &[("sizes 1", "sizes 2")],
        Ok((SIZES_OF_TWO, &EVENTS, &VERDICTS)),
    ),
    (
        &[("N 0 2 1", "N 0 3 1")],
        Ok((SIZES, &[OTHER_NEW, LAUNCH, STORE, RETIRE], &VERDICTS)),
    ),
    (
        &[("K 0 1 0 1 2", "K 0 1 0 0")],
        Ok((SIZES, &[NEW, BARE_LAUNCH, STORE, RETIRE], &VERDICTS)),
    ),
    (
        &[("S 0 2 0 1", "S 0 2 0 7")],
        Ok((SIZES, &[NEW, LAUNCH, OTHER_STORE, RETIRE], &VERDICTS)),
    ),
    (
        &[("R 1 1", "R 0 1")],
        Ok((SIZES, &[NEW, LAUNCH, STORE, OWN_RETIRE], &VERDICTS)),
    ),
    (
        &[("V 1 holds", "V 1 fails")],
        Ok((SIZES, &EVENTS, &[FAILS])),
    ),
    (
        &[("V 1 holds", "V 1 abandoned 2")],
        Ok((SIZES, &EVENTS, &[LOST])),
    ),
    (
        &[("V 1 holds", "V 1 abandoned 2"), ("4096 4096", "4096 0")],
        Ok((SIZES_WITHOUT_COPIES, &EVENTS, &[LOST])),
    ),
    // lines are exchanged, left out, or stand twice, and the counts agree
    (
        &[("K 0 1 0 1 2\nS 0 2 0 1\n", "S 0 2 0 1\nK 0 1 0 1 2\n")],
        Ok((SIZES, &[NEW, STORE, LAUNCH, RETIRE], &VERDICTS)),
    ),
    (
        &[("R 1 1\n", ""), ("end 4 1", "end 3 1")],
        Ok((SIZES, &[NEW, LAUNCH, STORE], &VERDICTS)),
    ),
    (
        &[("R 1 1\n", "R 1 1\nR 1 1\n"), ("end 4 1", "end 5 1")],
        Ok((SIZES, &[NEW, LAUNCH, STORE, RETIRE, RETIRE], &VERDICTS)),
    ),
    (
        &[("V 1 holds\n", ""), ("end 4 1", "end 4 0")],
        Ok((SIZES, &EVENTS, &[])),
    ),
    // the text is not of the format
    (&[(TEXT, "")], Err(JournalError::BadLine { line: 1 })),
    (
        &[("strobe journal 1", "strobe journal 7")],
        Err(JournalError::BadVersion),
    ),
    (
        &[("sizes 1 8", "sizes 1 0")],
        Err(JournalError::BadLine { line: 2 }),
    ),
    (
        &[("N 0 2 1", "N 0 02 1")],
        Err(JournalError::BadLine { line: 3 }),
    ),
    (
        &[("K 0 1 0 1 2", "K 0 1 0 2 2")],
        Err(JournalError::BadLine { line: 4 }),
    ),
    (
        &[("end 4 1", "end 4 2")],
        Err(JournalError::BadLine { line: 8 }),
    ),
    (
        &[("end 4 1\n", "end 4 1")],
        Err(JournalError::BadLine { line: 8 }),
    ),
    (
        &[("end 4 1\n", "end 4 1\n\n")],
        Err(JournalError::BadLine { line: 9 }),
    ),
];

#[test]
fn a_run_has_its_text_and_is_read_back(rt: HostRuntime) -> Result<(), Fail> {
    let text = write(rt.alloc(), &Sizes::usual(1), &EVENTS, &VERDICTS)?;
    assert_eq!(rt; text.as_slice(), TEXT.as_bytes());
    let file = read(rt.alloc(), TEXT.as_bytes())?;
    assert_eq!(rt; file.sizes, Sizes::usual(1));
    assert_eq!(rt; file.events.as_slice(), EVENTS.as_slice());
    assert_eq!(rt; file.verdicts.as_slice(), VERDICTS.as_slice());
    Ok(())
}

#[test]
fn a_damaged_head_is_told(rt: HostRuntime) -> Result<(), Fail> {
    for (text, error) in [
        ("", JournalError::BadLine { line: 1 }),
        ("strobe journal 1", JournalError::BadLine { line: 1 }),
        ("strobe journal 01\n", JournalError::BadLine { line: 1 }),
        ("strobe journal \n", JournalError::BadLine { line: 1 }),
        ("strobe journal 7\n", JournalError::BadVersion),
        ("strobe journal 0\nsizes", JournalError::BadVersion),
        ("strobe journal 1\n", JournalError::BadLine { line: 2 }),
        (
            "strobe journal 1\nsizes 1 0 4096 4096 65536 100000\n",
            JournalError::BadLine { line: 2 },
        ),
        (HEAD, JournalError::BadLine { line: 3 }),
    ] {
        let found = read(rt.alloc(), text.as_bytes()).err();
        assert_eq!(rt; found, Some(error), "in {text:?}");
    }
    Ok(())
}

#[test]
fn damaged_rows_are_told(rt: HostRuntime) -> Result<(), Fail> {
    for (rows, bad_line) in [
        (
            "N 0 2 1\nK 0 1 0 1 2\nS 0 2 0 1\nR 1 1\nV 1 holds\nend 4 1\n",
            None,
        ),
        ("N 0 02 1\nend 1 0\n", Some(3)),
        ("N 0 2 1\nK 0 1 0 2 2\n", Some(4)),
        ("N 0 2 1\nK 0 1 0 0\nend 2 0\n", None),
        ("S 0 2 0 1\nK 0 1 0 1 2\nend 2 0\n", None),
        ("V 1 abandoned 2\nend 0 1\n", None),
        ("V 1 fault null 4:10\nend 0 1\n", None),
        ("V 1 fault null 4:010\nend 0 1\n", Some(3)),
        ("V 2 holds\nend 0 1\n", Some(3)),
        ("V 1 holds\nR 1 1\nend 1 1\n", Some(4)),
        ("N 0 2 1\nend 1 2\n", Some(4)),
        ("N 0 2 1\nend 1 0", Some(4)),
        ("N 0 2 1\nend 1 0\n\n", Some(5)),
        ("N 256 2 1\nend 1 0\n", Some(3)),
        ("C 0 1 0 5 6 2\nend 1 0\n", Some(3)),
    ] {
        let mut text = HEAD.as_bytes().to_vec(rt.alloc())?;
        text.extend_from_slice(rows.as_bytes())?;
        assert!(rt; text.len() < 1_000);
        let error = bad_line.map(|line| JournalError::BadLine { line });
        assert_eq!(rt; read(rt.alloc(), &text).err(), error, "in {rows:?}");
    }
    Ok(())
}

/// The text after changes.
fn changed(alloc: Global, changes: Changes) -> Result<String, AllocError> {
    let mut text = String::from_str(alloc, TEXT)?;
    for (from, to) in changes {
        text = text.replacen(alloc, *from, to, 1)?;
    }
    Ok(text)
}

/// What a call read, or told.
fn told(read: &Result<JournalFile, JournalError>) -> Answer<'_> {
    match read {
        Ok(file) => Ok((file.sizes, file.events.as_slice(), file.verdicts.as_slice())),
        Err(error) => Err(*error),
    }
}

#[test]
fn a_changed_text_is_read_or_told(rt: HostRuntime) -> Result<(), Fail> {
    for (changes, answer) in ROWS {
        let text = changed(rt.alloc(), changes)?;
        assert!(rt; text.len() < 1_000);
        let found = read(rt.alloc(), text.as_bytes());
        assert_eq!(rt; told(&found), answer, "after {changes:?}");
    }
    Ok(())
}
