//! The events of a heap. The place of an event in a journal, from 0, is its ticket.
ghost use Rattle.std.specs.Prelude.{◌≡◌};

use crate::shapes::MOST_ARGS;

/// A place in a source text.
#[derive(Clone, Copy, Debug, PartialEq, Eq)]
pub struct Site {
    /// From 1; a line ends with byte 10.
    pub line: u32,
    /// In bytes, from 1.
    pub column: u32,
}

/// The values that a check takes at its launch, in the order in which its expression first names the locals.
#[derive(Clone, Copy, Debug, PartialEq, Eq)]
pub struct Args {
    /// How many of the words are used, at most `MOST_ARGS`.
    pub count: u8,
    /// The values; words from `count` on are 0.
    pub words: [u64; MOST_ARGS],
}

/// One step of the heap. `m` is the number of the mutator that made it, from 0 in the order of the thread blocks;
/// the number equal to the number of mutators is the main thread's, which only retires checks.
#[derive(Clone, Copy, Debug, PartialEq, Eq)]
pub enum Event {
    /// `m` made the object `obj` of class `class`, from 1, with all fields 0.
    New {
        m: u8,
        obj: u32,
        class: u8,
    },
    /// `m` read `value` in field `field`, from 0, of object `obj`.
    Load {
        m: u8,
        obj: u32,
        field: u8,
        value: u64,
    },
    /// `m` wrote `value`.
    Store {
        m: u8,
        obj: u32,
        field: u8,
        value: u64,
    },
    /// `m` compared the word with `expect`, and wrote `value` exactly where `done`.
    Cas {
        m: u8,
        obj: u32,
        field: u8,
        expect: u64,
        value: u64,
        done: bool,
    },
    /// `m` launched check `number`, from 1, whose statement has the number `site`, from 0 in source order.
    Launch {
        m: u8,
        // Before the number, so that it fits into the first word.
        site: u16,
        number: u32,
        args: Args,
    },
    /// `m` retired check `number`, which is active from its launch up to here.
    Retire {
        m: u8,
        number: u32,
    },
}

impl Event {
    ghost use Rattle.st_events.specs.History.{thread_of, is_own};

    /// The number of the mutator that made it; of a Retire it may be the main thread's.
    pub fn thread(&self) -> u8
        ensures { result ≡ thread_of self.now }
    {
        match *self {
            Event::New { m, .. } => m,
            Event::Load { m, .. } => m,
            Event::Store { m, .. } => m,
            Event::Cas { m, .. } => m,
            Event::Launch { m, .. } => m,
            Event::Retire { m, .. } => m,
        }
    }

    /// Whether it is one of the thread's own events, which its code asks for. A Retire is nobody's own, whoever made it.
    pub fn is_own_of(&self, thread: u8) -> bool
        ensures { result ≡ is_own thread self.now }
    {
        match *self {
            Event::New { m, .. } => m == thread,
            Event::Load { m, .. } => m == thread,
            Event::Store { m, .. } => m == thread,
            Event::Cas { m, .. } => m == thread,
            Event::Launch { m, .. } => m == thread,
            Event::Retire { .. } => false,
        }
    }
}

/// An event takes six words of 64 bits.
const _: () = prove!(size_of::<Event>() == 48);
