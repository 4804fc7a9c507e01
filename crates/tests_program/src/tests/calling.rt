//! The top call over files and a sink in memory.

use super::texts::TWO_JOURNAL;
use st_events::NoMemory;
use st_io::{MemFiles, MemSink, NoPace};
use st_top::{Outcome, strobe};
use std::alloc::{AllocError, Global};
use std::sync::Wait;
use std::thread::Threads;

/// What is lent to a call: a source, a journal, and the reads and puts that are to fail.
#[derive(Clone, Copy)]
pub(super) struct Lent<'a> {
    pub(super) source: &'a str,
    pub(super) journal: &'a str,
    pub(super) failing_reads: &'a [u32],
    pub(super) failing_puts: &'a [(u32, u32)],
}

/// The words, each as a `String`.
pub(super) fn owned(alloc: Global, words: &[&str]) -> Result<Vec<String>, AllocError> {
    let mut all = Vec::new(alloc);
    for word in words {
        all.push(String::from_str(alloc, word)?)?;
    }
    Ok(all)
}

/// What the call leaves, and the sink with what it wrote. The files are `source` and `journal`.
pub(super) fn call<R: Threads + Wait + Sync>(
    rt: &R,
    alloc: Global,
    words: &[&str],
    lent: &Lent,
) -> Result<(Outcome, MemSink), NoMemory> {
    let source = (
        String::from_str(alloc, "source")?,
        lent.source.as_bytes().to_vec(alloc)?,
    );
    let journal = (
        String::from_str(alloc, "journal")?,
        lent.journal.as_bytes().to_vec(alloc)?,
    );
    let files = vec![in alloc; source, journal]?;
    let mut files = MemFiles::make(files, lent.failing_reads.to_vec(alloc)?);
    let mut out = MemSink::with_room(alloc, 10_000, lent.failing_puts.to_vec(alloc)?)?;
    let words = owned(alloc, words)?;
    let outcome = strobe(rt, alloc, &words, &mut files, &mut out, &NoPace);
    Ok((outcome, out))
}

/// A source and nothing that fails.
pub(super) fn lends(source: &str) -> Lent<'_> {
    Lent {
        source,
        journal: TWO_JOURNAL,
        failing_reads: &[],
        failing_puts: &[],
    }
}
