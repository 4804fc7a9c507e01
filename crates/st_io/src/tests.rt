//! The adapters of the system at work: a long file, a long put, and a source that stops.

use crate::taking::take_whole;
use crate::{Files, FilesFault, RealFiles, RealSink, Sink};
use std::cell::Cell;
use std::fmt::Display;
use std::io::{ErrorKind, Print, Read};
use std::test::Fail;
use std::{fs, io};

const FAILED: Result<(), FilesFault> = Err(FilesFault::Failed);

const TOO_LONG: Result<(), FilesFault> = Err(FilesFault::TooLong);

// The byte that stands at a place of a long text.
fn byte_at(place: usize) -> u8 {
    (place % 251) as u8
}

// Four reads of the system's files: the answer, how many bytes were given, and whether they are a front of the text.
fn reads_of_the_system(
    rt: &HostRuntime,
    held: &str,
    text: &[u8],
) -> [(Result<(), FilesFault>, usize, bool); 4] {
    let mut files = RealFiles::make(rt);
    [
        (held, 100_000),
        (held, 99_999),
        (held, u32::MAX),
        ("st_io_test_of_no_file.txt", 100_000),
    ]
    .map(|(name, limit)| {
        let mut into = Vec::new(rt.alloc());
        let answer = files.read_whole(name, limit, &mut into);
        (answer, into.len(), text.starts_with(into.as_slice()))
    })
}

#[test]
fn a_file_of_the_system_is_read_to_its_limit(rt: HostRuntime) -> Result<(), Fail> {
    let name = "st_io_test_of_a_long_file.txt";
    let mut text = Vec::new(rt.alloc());
    for place in 0..100_000 {
        text.push(byte_at(place))?;
    }
    fs::write(&rt, name, text.as_slice())?;
    let reads = reads_of_the_system(&rt, name, &text);
    // Before anything is asserted, so that no file is left behind.
    fs::remove_file(&rt, name)?;
    assert_eq!(rt;
        reads,
        [
            (Ok(()), 100_000, true),
            (TOO_LONG, 0, true),
            (Ok(()), 100_000, true),
            (FAILED, 0, true),
        ]
    );
    Ok(())
}

// A standard output that counts its bytes, and tells whether each is the one of its place.
#[derive(Drop)]
struct Counting {
    count: Cell<usize>,
    right: Cell<bool>,
}

impl Print for Counting {
    fn print<D: Display + Drop>(&self, _value: D) -> io::Result<()> {
        Err(io::Error::from(ErrorKind::Unsupported))
    }

    fn println<D: Display + Drop>(&self, _value: D) -> io::Result<()> {
        Err(io::Error::from(ErrorKind::Unsupported))
    }

    fn write_all(&self, bytes: &[u8]) -> io::Result<()> {
        for byte in bytes {
            let place = self.count.get();
            self.right.set(self.right.get() && *byte == byte_at(place));
            self.count.set(place.saturating_add(1));
        }
        Ok(())
    }
}

#[test]
fn a_long_put_is_written_whole(rt: HostRuntime) -> Result<(), Fail> {
    let given = Counting {
        count: Cell::new(0),
        right: Cell::new(true),
    };
    let mut piece = Vec::new(rt.alloc());
    for place in 0..10_000 {
        piece.push(byte_at(place))?;
    }
    assert!(rt; RealSink::make(&given).put(&piece) == Ok(()));
    assert_eq!(rt; given.count.get(), 10_000);
    assert!(rt; given.right.get());
    Ok(())
}

// A source that gives a byte, is interrupted, gives a byte, and then ends or breaks.
#[derive(Drop)]
struct Halting {
    turn: u8,
    breaks: bool,
}

impl Read for Halting {
    fn read(&mut self, buf: &mut [u8]) -> io::Result<usize> {
        self.turn = self.turn.saturating_add(1);
        match self.turn {
            1 | 3 => Ok(buf.len().min(1)),
            2 => Err(io::Error::from(ErrorKind::Interrupted)),
            _ if self.breaks => Err(io::Error::from(ErrorKind::BrokenPipe)),
            _ => Ok(0),
        }
    }
}

#[test]
fn an_interrupted_read_goes_on_and_a_broken_one_fails(rt: HostRuntime) {
    for (breaks, limit, answer, count) in [
        (false, 2, Ok(()), 2),
        (true, 2, FAILED, 2),
        (false, 1, TOO_LONG, 2),
        (false, 0, TOO_LONG, 1),
    ] {
        let mut source = Halting { turn: 0, breaks };
        let mut taken = 0;
        let mut into = Vec::new(rt.alloc());
        let result = take_whole(&mut source, limit, &mut taken, &mut into);
        assert_eq!(rt; result, answer);
        assert_eq!(rt; taken, count);
    }
}
