//! The steps of the write barrier, each one atomic access to one word. What a step asks, its own seat's view shows. Why each keeps the rule is
//! told at the head of `barrier_accesses.rt`.
//!
//! A store whose old version some active check needs takes them between its draw and its field store: the words of the copy in order, where the
//! drawn index reached a free one, and then the forwarding word of each lane that needs it, in any order.
ghost use Rattle.std.specs.Prelude.{◌≡◌};
ghost use Rattle.st_rule.specs.Needs.{AwaitsCopyWord, AwaitsForward};
ghost use Rattle.st_rule.specs.Seats.{IsSeatOf, IsSameSeat, IsFair};
ghost use Rattle.st_rule.specs.Turns.{copy_stored, forwarded};

use crate::seats::MutSeat;
use crate::tables::Shared;
use st_events::Judge;

impl<J: Judge> Shared<J> {
    /// Copy store: a store of word `k` of the copy that the drawn index reached: the object's number at 0, then its fields as the seat loaded
    /// them. They are written in order, before any lane is forwarded.
    pub fn copy_store(&self, seat: &mut MutSeat<J>, copy: u32, k: u8, value: u64)
        requires table { IsSeatOf J.meant self.now seat.old }
        requires flight { AwaitsCopyWord seat.old.view copy k value }
        ensures seat { IsSameSeat seat.old seat.new }
        ensures fair { IsFair seat.new }
        ensures view { seat.new.view ≡ copy_stored seat.old.view }
    {
        self.store_copy(seat, copy, k, value);
    }

    /// Forward store: a store of the forwarding word of a lane that needs the old version of the held object. Its high half is the lane's check,
    /// and its low half one more than the number of the complete copy, or `LOST` where the drawn index reached none.
    pub fn forward_store(&self, seat: &mut MutSeat<J>, obj: u32, lane: u8, word: u64)
        requires table { IsSeatOf J.meant self.now seat.old }
        requires flight { AwaitsForward seat.old.view obj lane word }
        ensures seat { IsSameSeat seat.old seat.new }
        ensures fair { IsFair seat.new }
        ensures view { seat.new.view ≡ forwarded lane seat.old.view }
    {
        self.store_forward(seat, obj, lane, word);
    }
}
