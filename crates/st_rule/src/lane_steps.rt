//! A check's read in three steps, each one atomic access to one word by the lane's own seat, while mutators store.
//!
//! Why it is right, whatever the mutators do:
//! - The live word is loaded first. Where the check's forwarding word is not there yet, the field is not overwritten, so the word is that of the
//!   launch; where it is there, the live word does not count.
//! - The forwarding word is loaded then. Where it is not the check's, it was not the check's before either, so the live word was right when it
//!   was loaded. The other order would not do: a store could come between, after a forwarding word that says nothing.
//! - Where it is the check's, it stays as it is while the check is active. The copy that it names was complete before, and nobody writes it
//!   while a forwarding word of an active check names it.
//! - Where it says lost, the version is among the lost pairs of the journal, which the seat has then seen.
ghost use Rattle.std.specs.Prelude.{◌≡◌, ◌+◌, ◌<◌, None, Some, IsSome};
ghost use Rattle.st_layout.specs.declared.limits.TheConstants.{MOST_FIELDS};
ghost use Rattle.st_events.specs.Heap.{word_at};
ghost use Rattle.st_rule.specs.LaneSeats.{IsLaneOf, IsSameLane, IsFairLane, FindsField, FindsForward, FindsCopy};
ghost use Rattle.st_rule.specs.Reading.{past_of, IsFirstHalf, IsSecondHalf};

use crate::lane_seats::LaneSeat;
use crate::plays::{CheckCopy, CheckField, CheckForward};
use crate::tables::Shared;
use st_events::Judge;

impl<J: Judge> Shared<J> {
    /// Check field load: the first half of a read of a cell that stood at the check's launch.
    pub fn check_field(&self, seat: &mut LaneSeat<J>, obj: u32, field: u8) -> u64
        requires table { IsLaneOf J.meant self.now seat.old }
        requires quiet { seat.old.view.read ≡ None }
        requires cell { IsSome (word_at (past_of seat.old.view) obj field) }
        requires field { field < MOST_FIELDS }
        ensures seat { IsSameLane seat.old seat.new }
        ensures fair { IsFairLane seat.new.view }
        ensures view { FindsField obj field seat.old.view seat.new.view }
        ensures found { seat.new.view.tally.found ≡ Some result }
    {
        seat.is_fair();
        let word = self.field_place(obj, field);
        self.table.shared.load::<CheckField>(&mut seat.seat, word)
    }

    /// Check forward load: the second half. The seat has then seen the whole journal of this moment.
    pub fn check_forward(&self, seat: &mut LaneSeat<J>, obj: u32) -> u64
        requires table { IsLaneOf J.meant self.now seat.old }
        requires first { IsFirstHalf seat.old.view obj }
        requires object { IsSome (past_of seat.old.view obj) }
        ensures seat { IsSameLane seat.old seat.new }
        ensures fair { IsFairLane seat.new.view }
        ensures view { FindsForward seat.old.view seat.new.view }
        ensures found { seat.new.view.tally.found ≡ Some result }
    {
        seat.is_fair();
        let number = seat.lane();
        let word = self.forward_place(obj, number);
        self.table.shared.load::<CheckForward>(&mut seat.seat, word)
    }

    /// Check copy load: a load of the field in the copy that the forwarding word named, which is word `field + 1` of the copy.
    pub fn check_copy(&self, seat: &mut LaneSeat<J>, copy: u32, field: u8) -> u64
        requires table { IsLaneOf J.meant self.now seat.old }
        requires second { IsSecondHalf seat.old.view copy field }
        requires field { field < MOST_FIELDS }
        ensures seat { IsSameLane seat.old seat.new }
        ensures fair { IsFairLane seat.new.view }
        ensures view { FindsCopy seat.old.view seat.new.view }
        ensures found { seat.new.view.tally.found ≡ Some result }
    {
        self.load_copy(seat, copy, field, field + 1)
    }

    /// Loads word `k` of the copy, which must be the field's.
    fn load_copy(&self, seat: &mut LaneSeat<J>, copy: u32, field: u8, k: u8) -> u64
        requires table { IsLaneOf J.meant self.now seat.old }
        requires second { IsSecondHalf seat.old.view copy field }
        requires field { field < MOST_FIELDS }
        requires word { k ≡ field + 1 }
        ensures seat { IsSameLane seat.old seat.new }
        ensures fair { IsFairLane seat.new.view }
        ensures view { FindsCopy seat.old.view seat.new.view }
        ensures found { seat.new.view.tally.found ≡ Some result }
    {
        let word = self.copy_place(copy, k);
        self.table.shared.load::<CheckCopy>(&mut seat.seat, word)
    }
}
