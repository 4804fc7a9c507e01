//! What the machine of a thread of a source text tells.
ghost use Rattle.std.specs.Prelude.{};

use super::errors::Unrun;
use st_mutator::{Mutator, Want};
use st_source::read_source;
use std::alloc::Global;

/// A word that is handed in, and what the machine must tell then.
pub type Tell = (u64, Want);

/// The place, from 0, of the first word at which the machine of the text's first thread tells something else; None where it tells all that is wanted.
/// It may make `objects` objects, and `events` is its charge.
pub fn first_other(
    alloc: Global,
    text: &[u8],
    objects: u32,
    events: u32,
    tells: &[Tell],
) -> Result<Option<usize>, Unrun> {
    let typed = read_source(alloc, text)?;
    let mut thread = Mutator::make(alloc, typed.resolved(), 0, objects, events)?;
    for place in 0..tells.len() {
        let (reply, want) = tells[place];
        if thread.next(reply) != want {
            return Ok(Some(place));
        }
    }
    Ok(None)
}
