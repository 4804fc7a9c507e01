//! The accesses that the steps of the gate make, each with the word that it may write. Here each is proved to keep the rule.
//!
//! Why each keeps it, whatever the other threads did before:
//! - A flag is written by its own seat alone, since no two seats have one number. So it says that seat's phase.
//! - The closing word is taken only where it is 0, and given back only by who has it, so there is one closer at a time.
//! - A seat goes Inside only by a load that finds the closing word 0. At that moment nobody closes, so no list of flags seen clear is
//!   spoiled by it.
//! - A closer that finds a flag 0 knows that this number is not Inside at that moment, and, by the line before, that it stays out until the
//!   closing word is 0 again. So the closer is alone once it saw every other flag 0.
//! - The moment of a step knows the whole journal. A closer that goes on has seen it then, and while it is alone nobody adds to it.
ghost use Rattle.std.specs.Prelude.{◌≡◌, ◌+◌, ◌≤◌, ◌⊎◌, Some};
ghost use Rattle.st_rule.specs.declared.views.Phase.TheVariants.{Outside, Entering, Inside, Closing, Alone};
ghost use Rattle.st_rule.specs.Plays.{Finds, FindsAndLearns};
ghost use Rattle.st_rule.specs.Seats.{IsSeatOf, IsSameSeat, IsFair, HoldsNothing};
ghost use Rattle.st_rule.specs.Turns.{flagged_in, looked, flagged_out, took_gate, saw, gave_gate};

use crate::plays::{FlagIn, FlagOut, GiveGate, Look, See, TakeGate};
use crate::seats::MutSeat;
use crate::tables::Shared;
use st_events::Judge;

impl<J: Judge> Shared<J> {
    /// Stores to the flag of a seat that goes in, which must go up.
    pub(crate) fn store_flag_in(&self, seat: &mut MutSeat<J>, value: u64)
        requires table { IsSeatOf J.meant self.now seat.old }
        requires phase { seat.old.view.gate.phase ≡ Outside }
        requires up { value ≡ 1 }
        ensures seat { IsSameSeat seat.old seat.new }
        ensures fair { IsFair seat.new }
        ensures view { seat.new.view ≡ flagged_in seat.old.view }
    {
        let word = self.flag_place(seat.number());
        self.table
            .shared
            .store::<FlagIn>(&mut seat.seat, word, value);
    }

    /// Stores to the flag of a seat that goes out, which must go down.
    pub(crate) fn store_flag_out(&self, seat: &mut MutSeat<J>, value: u64)
        requires table { IsSeatOf J.meant self.now seat.old }
        requires phase { (seat.old.view.gate.phase ≡ Entering) ⊎ (seat.old.view.gate.phase ≡ Inside) }
        requires hand { HoldsNothing seat.old }
        requires down { value ≡ 0 }
        ensures seat { IsSameSeat seat.old seat.new }
        ensures fair { IsFair seat.new }
        ensures view { seat.new.view ≡ flagged_out seat.old.view }
    {
        let word = self.flag_place(seat.number());
        self.table
            .shared
            .store::<FlagOut>(&mut seat.seat, word, value);
    }

    /// Loads the closing word, for a seat that wants to go inside.
    pub(crate) fn load_closing(&self, seat: &mut MutSeat<J>) -> u64
        requires table { IsSeatOf J.meant self.now seat.old }
        requires phase { seat.old.view.gate.phase ≡ Entering }
        ensures seat { IsSameSeat seat.old seat.new }
        ensures fair { IsFair seat.new }
        ensures view { Finds looked seat.old.view seat.new.view }
        ensures found { seat.new.view.tally.found ≡ Some result }
    {
        let word = self.closing_place();
        self.table.shared.load::<Look>(&mut seat.seat, word)
    }

    /// Exchanges the closing word, where it is 0, for what says that this seat closes.
    pub(crate) fn exchange_closing(&self, seat: &mut MutSeat<J>, taken: u64) -> u64
        requires table { IsSeatOf J.meant self.now seat.old }
        requires phase { seat.old.view.gate.phase ≡ Outside }
        requires own { taken ≡ seat.old.view.gate.number + 1 }
        ensures seat { IsSameSeat seat.old seat.new }
        ensures fair { IsFair seat.new }
        ensures view { FindsAndLearns took_gate seat.old.view seat.new.view }
        ensures found { seat.new.view.tally.found ≡ Some result }
    {
        let word = self.closing_place();
        self.table
            .shared
            .compare_exchange::<TakeGate>(&mut seat.seat, word, 0, taken)
    }

    /// Loads the flag of number `k`, for a closer.
    pub(crate) fn load_flag(&self, seat: &mut MutSeat<J>, k: u8) -> u64
        requires table { IsSeatOf J.meant self.now seat.old }
        requires phase { seat.old.view.gate.phase ≡ Closing }
        requires within { k ≤ seat.old.view.terms.sizes.mutators }
        ensures seat { IsSameSeat seat.old seat.new }
        ensures fair { IsFair seat.new }
        ensures view { FindsAndLearns (saw k) seat.old.view seat.new.view }
        ensures found { seat.new.view.tally.found ≡ Some result }
    {
        let word = self.flag_place(k);
        self.table.shared.load::<See>(&mut seat.seat, word)
    }

    /// Stores to the closing word, which must say that nobody closes.
    pub(crate) fn store_closing(&self, seat: &mut MutSeat<J>, value: u64)
        requires table { IsSeatOf J.meant self.now seat.old }
        requires phase { seat.old.view.gate.phase ≡ Alone }
        requires nobody { value ≡ 0 }
        ensures seat { IsSameSeat seat.old seat.new }
        ensures fair { IsFair seat.new }
        ensures view { seat.new.view ≡ gave_gate seat.old.view }
    {
        let word = self.closing_place();
        self.table
            .shared
            .store::<GiveGate>(&mut seat.seat, word, value);
    }
}
