//! The plain program of the definitions: it goes over a journal once, tests each event, and builds the heap.
ghost use Rattle.std.specs.Prelude.{◌≡◌, ℕ, ◌+◌, ◌^◌, ◌<◌, length, Err, IfOk, OnOk};
ghost use Rattle.st_events.specs.Heap.{heap_of};
ghost use Rattle.st_events.specs.History.{heap_after};
ghost use Rattle.st_events.specs.Legal.{IsLegal, IsFirstIllegal};
ghost use Rattle.st_events.specs.Shape.{IsWithinLimits};
ghost use Rattle.st_events.specs.Sizes.{AreWithinLimits};

use crate::errors::{ReplayError, Why};
use crate::events::Event;
use crate::heaps::HeapMap;
use crate::limits::Sizes;
use crate::replaying::Replay;
use crate::shapes::Shape;
use std::alloc::Global;

/// The heap after the events of a journal, in time about linear in their number.
///
/// `NotLegal` comes exactly where some event is not legal after those before it, with the first such place, from 0, and
/// the first reason that applies. `Memory` may come wherever memory is refused.
pub fn replay(
    alloc: Global,
    shape: &Shape,
    sizes: &Sizes,
    events: &[Event],
) -> Result<HeapMap, ReplayError>
    requires shape { IsWithinLimits shape.now }
    requires sizes { AreWithinLimits sizes.now }
    requires events { length events.now < 2 ^ 32 }
    ensures heap { IfOk result (λ h. heap_of h ≡ heap_after shape.now sizes.now events.now) }
    ensures legal { OnOk result (IsLegal shape.now sizes.now events.now) }
    ensures not_legal { (place : ℕ) → (why : Why) → result ≡ Err (ReplayError.NotLegal place why) → IsFirstIllegal shape.now sizes.now events.now place why }
{
    let mut replay = Replay::start(alloc, shape, sizes)?;
    let mut place = 0;
    for event in events {
        match replay.why_not(*event) {
            Some(why) => return Err(ReplayError::NotLegal { place, why }),
            None => replay.apply(*event)?,
        }
        place += 1;
    }
    Ok(replay.into_heap())
}
