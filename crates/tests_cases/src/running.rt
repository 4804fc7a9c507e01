//! A case as a call of the program.

use crate::cases::Case;
use st_events::NoMemory;
use st_io::{MemFiles, MemSink, NoPace};
use st_top::strobe;
use std::alloc::Global;
use std::sync::Wait;
use std::thread::Threads;

/// The most bytes that a call may write.
const ROOM: u32 = 1_048_576;

/// A case that was run.
#[derive(Drop)]
pub(crate) struct Trial {
    pub(crate) name: String,
    pub(crate) wanted: Ending,
    pub(crate) found: Ending,
}

/// What a call wrote, and its status.
#[derive(Drop)]
pub(crate) struct Ending {
    pub(crate) out: Vec<u8>,
    pub(crate) status: u8,
}

impl Trial {
    /// Whether the call wrote and answered what it was to.
    pub(crate) fn agrees(&self) -> bool {
        self.wanted.status == self.found.status
            && self.wanted.out.as_slice() == self.found.out.as_slice()
    }
}

/// Runs a case: the top call over its files, and a sink of its own.
pub(crate) fn run_case<R: Threads + Wait + Sync>(
    rt: &R,
    alloc: Global,
    case: Case,
) -> Result<Trial, NoMemory> {
    let mut files = MemFiles::make(case.files, case.failing_reads);
    let mut sink = MemSink::with_room(alloc, ROOM, case.failing_puts)?;
    let outcome = strobe(rt, alloc, &case.words, &mut files, &mut sink, &NoPace);
    Ok(Trial {
        name: case.name,
        wanted: Ending {
            out: case.out,
            status: case.status,
        },
        found: Ending {
            out: sink.bytes().to_vec(alloc)?,
            status: outcome.status,
        },
    })
}
