//! The steps of the gate, each one atomic access to one word. What a step asks, its own seat's view shows; what it answers is by the
//! word that it found. Who may call which, and why that is enough to be alone, is told at the head of `accesses.rt`.
ghost use Rattle.std.specs.Prelude.{◌≡◌, ◌≤◌, ◌⊎◌, ◌↔◌, IsTrue, Some};
ghost use Rattle.st_rule.specs.declared.views.Phase.TheVariants.{Outside, Entering, Inside, Closing, Alone};
ghost use Rattle.st_rule.specs.Plays.{Finds, FindsAndLearns};
ghost use Rattle.st_rule.specs.Seats.{IsSeatOf, IsSameSeat, IsFair, HoldsNothing};
ghost use Rattle.st_rule.specs.Turns.{flagged_in, looked, flagged_out, took_gate, saw, gave_gate};

use crate::seats::MutSeat;
use crate::tables::Shared;
use st_events::Judge;

impl<J: Judge> Shared<J> {
    /// Flag in: a store of 1 to the seat's flag, and from Outside to Entering.
    pub fn flag_in(&self, seat: &mut MutSeat<J>)
        requires table { IsSeatOf J.meant self.now seat.old }
        requires phase { seat.old.view.gate.phase ≡ Outside }
        ensures seat { IsSameSeat seat.old seat.new }
        ensures fair { IsFair seat.new }
        ensures view { seat.new.view ≡ flagged_in seat.old.view }
    {
        self.store_flag_in(seat, 1);
    }

    /// Look: a load of the closing word. True where it is 0, and then from Entering to Inside.
    pub fn look(&self, seat: &mut MutSeat<J>) -> bool
        requires table { IsSeatOf J.meant self.now seat.old }
        requires phase { seat.old.view.gate.phase ≡ Entering }
        ensures seat { IsSameSeat seat.old seat.new }
        ensures fair { IsFair seat.new }
        ensures view { Finds looked seat.old.view seat.new.view }
        ensures answer { IsTrue result ↔ (seat.new.view.tally.found ≡ Some 0) }
    {
        self.load_closing(seat) == 0
    }

    /// Flag out: a store of 0 to the seat's flag, and from Entering or Inside to Outside.
    pub fn flag_out(&self, seat: &mut MutSeat<J>)
        requires table { IsSeatOf J.meant self.now seat.old }
        requires phase { (seat.old.view.gate.phase ≡ Entering) ⊎ (seat.old.view.gate.phase ≡ Inside) }
        requires hand { HoldsNothing seat.old }
        ensures seat { IsSameSeat seat.old seat.new }
        ensures fair { IsFair seat.new }
        ensures view { seat.new.view ≡ flagged_out seat.old.view }
    {
        self.store_flag_out(seat, 0);
    }

    /// Close: a compare and exchange of the closing word, from 0 to one more than the seat's number. True where it was 0, and
    /// then from Outside to Closing, or at once to Alone where there is no other number.
    pub fn take_gate(&self, seat: &mut MutSeat<J>) -> bool
        requires table { IsSeatOf J.meant self.now seat.old }
        requires phase { seat.old.view.gate.phase ≡ Outside }
        ensures seat { IsSameSeat seat.old seat.new }
        ensures fair { IsFair seat.new }
        ensures view { FindsAndLearns took_gate seat.old.view seat.new.view }
        ensures answer { IsTrue result ↔ (seat.new.view.tally.found ≡ Some 0) }
    {
        let taken = u64::from(seat.number()) + 1;
        self.exchange_closing(seat, taken) == 0
    }

    /// See: a load of the flag of number `k`. True where it is 0, and then `k` is seen; the seat is Alone once every other
    /// number is.
    pub fn see(&self, seat: &mut MutSeat<J>, k: u8) -> bool
        requires table { IsSeatOf J.meant self.now seat.old }
        requires phase { seat.old.view.gate.phase ≡ Closing }
        requires within { k ≤ seat.old.view.terms.sizes.mutators }
        ensures seat { IsSameSeat seat.old seat.new }
        ensures fair { IsFair seat.new }
        ensures view { FindsAndLearns (saw k) seat.old.view seat.new.view }
        ensures answer { IsTrue result ↔ (seat.new.view.tally.found ≡ Some 0) }
    {
        self.load_flag(seat, k) == 0
    }

    /// Open: a store of 0 to the closing word, and from Alone to Outside.
    pub fn give_gate(&self, seat: &mut MutSeat<J>)
        requires table { IsSeatOf J.meant self.now seat.old }
        requires phase { seat.old.view.gate.phase ≡ Alone }
        ensures seat { IsSameSeat seat.old seat.new }
        ensures fair { IsFair seat.new }
        ensures view { seat.new.view ≡ gave_gate seat.old.view }
    {
        self.store_closing(seat, 0);
    }
}
