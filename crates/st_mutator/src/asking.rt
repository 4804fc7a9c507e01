//! What a thread asks for, before it is known that the object has a number of 32 bits.
ghost use Rattle.std.specs.Prelude.{◌≡◌};
ghost use Rattle.st_thread_meaning.specs.Deeds.{Request, cost_of as cost_of_request};
ghost use Rattle.st_thread_meaning.specs.Threads.{asks_for};

use st_events::{Args, EVENT_COST, End, LAUNCH_COST};

/// What a thread asks for, or how it ended. An object is the word that names it.
#[derive(Clone, Copy, Debug)]
pub(crate) enum Asked {
    New {
        class: u8,
    },
    Load {
        obj: u64,
        field: u8,
    },
    Store {
        obj: u64,
        field: u8,
        value: u64,
    },
    Cas {
        obj: u64,
        field: u8,
        expect: u64,
        value: u64,
    },
    Launch {
        site: u16,
        args: Args,
    },
    End(End),
}

impl Asked {
    ghost use Rattle.st_mutator.specs.Standing.{turn_of_asked};

    /// What the event costs.
    pub(crate) fn cost(&self) -> u32
        ensures { (request : Request) → turn_of_asked self.now ≡ asks_for request → result ≡ cost_of_request request }
    {
        match self {
            Asked::Launch { .. } => LAUNCH_COST,
            _ => EVENT_COST,
        }
    }
}
