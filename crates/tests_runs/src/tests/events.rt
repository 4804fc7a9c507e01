//! Events and verdicts of rows, in short.

use st_events::{Args, Event, Plain, Site, Verdict};

pub const HOLDS: Verdict = Verdict::Plain(Plain::Holds);

pub const FAILS: Verdict = Verdict::Plain(Plain::Fails);

pub const NONE: Args = Args {
    count: 0,
    words: [0; 4],
};

pub fn at(line: u32, column: u32) -> Site {
    Site { line, column }
}

pub fn one(word: u64) -> Args {
    Args {
        count: 1,
        words: [word, 0, 0, 0],
    }
}

pub fn new(obj: u32) -> Event {
    Event::New {
        m: 0,
        obj,
        class: 1,
    }
}

pub fn store(obj: u32, field: u8, value: u64) -> Event {
    store_by(0, obj, field, value)
}

pub fn store_by(m: u8, obj: u32, field: u8, value: u64) -> Event {
    Event::Store {
        m,
        obj,
        field,
        value,
    }
}

pub fn launch(number: u32, site: u16, args: Args) -> Event {
    Event::Launch {
        m: 0,
        number,
        site,
        args,
    }
}

pub fn retire(m: u8, number: u32) -> Event {
    Event::Retire { m, number }
}
