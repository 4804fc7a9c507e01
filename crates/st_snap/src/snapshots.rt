//! The snapshot heap. It is called with whole operations, keeps its journal, and takes all its memory at `make`.
ghost use Rattle.std.specs.Prelude.{◌≡◌, ◌-◌, ◌^◌, ◌<◌, [], ◌∷◌, ◌++◌, length, IfOk};
ghost use Rattle.st_snap.specs.Terms.{IsWithinLimits, AreWithinLimits};

mod checks;
mod counts;
mod words;

use crate::shape_copies::copy_shape;
use crate::tables::Table;
use st_events::{Event, Journal, NoMemory, Shape, Sizes};
use std::alloc::Global;
use std::marker::Model;

/// A live heap with snapshots.
#[derive(Drop)]
pub struct SnapHeap {
    shape: Shape,
    sizes: Sizes,
    table: Table,
    journal: Journal,
}

impl Model for SnapHeap {
    ghost use Rattle.st_snap.specs.Snapshots.{Snapshots};

    ghost Value = { Snapshots };

    ghost use Rattle.st_snap.specs.Holds.{Holds};

    ghost view = { λ s. record { shape = s.shape; sizes = s.sizes; journal = s.journal.events } };

    ghost invariant = { λ s. Holds s.shape s.sizes s.table s.journal };
}

impl SnapHeap {
    ghost use Rattle.st_snap.specs.Snapshots.{new_heap, IsLegalHeap};

    /// The heap before the first event, with all memory that it will ever take: the cells of every region, the pool of
    /// copies, and a journal of `mutators * events` entries.
    pub fn make(alloc: Global, shape: &Shape, sizes: &Sizes) -> Result<SnapHeap, NoMemory>
        requires shape { IsWithinLimits shape.now }
        requires sizes { AreWithinLimits sizes.now }
        ensures { IfOk result (λ heap. heap ≡ new_heap shape.now sizes.now) }
    {
        Ok(SnapHeap {
            shape: copy_shape(alloc, shape)?,
            sizes: *sizes,
            table: Table::make(alloc, shape, sizes)?,
            journal: Journal::with_room(alloc, sizes.mutators as u32 * sizes.events)?,
        })
    }

    /// Hands the journal out, without taking memory.
    pub fn into_journal(self) -> Journal
        ensures events { result.events ≡ self.journal }
        ensures legal { IsLegalHeap self }
    {
        let SnapHeap {
            shape: _,
            sizes: _,
            table: _,
            journal,
        } = self;
        journal
    }
}

/// Appends an event for which there is room.
fn append(journal: &mut Journal, event: Event)
    requires spare { 0 < journal.old.spare }
    requires len { length journal.old.events < 2 ^ 32 - 1 }
    ensures events { journal.new.events ≡ journal.old.events ++ event ∷ [] }
    ensures spare { journal.new.spare ≡ journal.old.spare - 1 }
{
    match journal.push(event) {
        Ok(()) => {}
        Err(NoMemory) => unreachable!(),
    }
}
