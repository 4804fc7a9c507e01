//! The words that each thread reads by itself: the gate's, the clock, the epoch, the lanes and the free list.
#![tactic(auto, using(crate::proofs::Bounds::cells_fit), unfolding(crate::specs::Layout::word_of))]

ghost use Rattle.std.specs.Prelude.{◌≡◌};
ghost use Rattle.st_layout.specs.Limits.{IsWithinLimits};
ghost use Rattle.st_layout.specs.Names.{ClosingWord, ClockWord, EpochWord, AvailableWord, FlagWord, LaneWord, FreeWord, HasWord};
ghost use Rattle.st_layout.specs.Layout.{word_of};

use crate::plans::Plan;
use crate::words::{AVAILABLE_WORD, CLOCK_WORD, CLOSING_WORD, EPOCH_WORD, FIRST_FLAG};

impl Plan {
    /// The word that is 0, or one more than the number that closes the gate.
    pub fn closing_word(&self) -> u32
        ensures { result ≡ word_of self.now ClosingWord }
    {
        CLOSING_WORD
    }

    /// The word of the tickets and the copies that were drawn.
    pub fn clock_word(&self) -> u32
        ensures { result ≡ word_of self.now ClockWord }
    {
        CLOCK_WORD
    }

    /// The word of the launches so far.
    pub fn epoch_word(&self) -> u32
        ensures { result ≡ word_of self.now EpochWord }
    {
        EPOCH_WORD
    }

    /// The word of the free list's length.
    pub fn available_word(&self) -> u32
        ensures { result ≡ word_of self.now AvailableWord }
    {
        AVAILABLE_WORD
    }

    /// The flag of number `m`: a mutator's, or main's at `mutators`.
    pub fn flag_word(&self, m: u8) -> u32
        requires limits { IsWithinLimits self.now }
        requires within { HasWord self.now (FlagWord m) }
        ensures { result ≡ word_of self.now (FlagWord m) }
    {
        FIRST_FLAG + u32::from(m)
    }

    /// The word of the launch epoch of the lane's active check.
    pub fn lane_word(&self, lane: u8) -> u32
        requires limits { IsWithinLimits self.now }
        requires within { HasWord self.now (LaneWord lane) }
        ensures { result ≡ word_of self.now (LaneWord lane) }
    {
        self.first_lane() + u32::from(lane)
    }

    /// Entry `i` of the free list, from 0.
    pub fn free_word(&self, i: u32) -> u32
        requires limits { IsWithinLimits self.now }
        requires within { HasWord self.now (FreeWord i) }
        ensures { result ≡ word_of self.now (FreeWord i) }
    {
        self.first_free() + i
    }
}
