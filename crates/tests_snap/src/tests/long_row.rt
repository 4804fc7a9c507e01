//! The long row: many objects, rounds, stores and reads. It ends in time only where a step takes no longer as the journal grows.

use crate::{Driven, Failed, Refused};
use st_events::Sizes;
use std::test::Fail;

impl Driven {
    /// A check reads the word from before the store that follows its launch, in a copy that its retire gives back.
    fn round(&mut self, k: u64) -> Result<bool, Failed> {
        self.launch(0)?;
        self.store(0, 1, 0, k)?;
        let right = self.reads(0, 1, k.saturating_sub(1))? && self.free() == 3;
        self.retire(0, 0)?;
        Ok(right && self.free() == 4)
    }

    fn rounds(&mut self, count: u64) -> Result<bool, Failed> {
        for k in 0..count {
            if !self.round(k + 1)? {
                return Ok(false);
            }
        }
        Ok(true)
    }

    fn stores(&mut self, count: u64) -> Result<(), Refused> {
        for k in 0..count {
            self.store(0, 1, 1, k + 1)?;
        }
        Ok(())
    }

    fn zeros(&self, count: u64, object: usize) -> Result<bool, Refused> {
        for _ in 0..count {
            if !self.reads(0, object, 0)? {
                return Ok(false);
            }
        }
        Ok(true)
    }

    /// Every mutator makes all its objects; 200,000 rounds; then one check, 300,000 stores and 300,000 reads.
    fn plays_long(&mut self) -> Result<bool, Failed> {
        for m in 0..8 {
            self.fill(m, 16_384)?;
        }
        let rounds = self.rounds(200_000)?;
        self.launch(0)?;
        self.stores(300_000)?;
        Ok(rounds && self.zeros(300_000, 131_072)? && self.free() == 3)
    }
}

#[test]
fn long_runs_take_no_longer_for_each_step(rt: HostRuntime) -> Result<(), Fail> {
    let mut heap = Driven::make(rt.alloc(), 12, large())?;
    assert!(rt; heap.plays_long()?);
    assert_eq!(rt; heap.into_event_count(), 1_031_073);
    Ok(())
}

fn large() -> Sizes {
    Sizes {
        mutators: 8,
        lanes: 1,
        objects: 16_384,
        copies: 4,
        events: 131_072,
        calls: 10,
    }
}
