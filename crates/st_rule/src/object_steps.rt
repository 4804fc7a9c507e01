//! The steps on objects and the last look, each one atomic access to one word. What a step asks, its own seat's view shows; what it answers
//! is by the word that it found. Why each keeps the rule is told at the head of `object_accesses.rt`.
//!
//! A heap call takes them in this order: lock, board loads, field loads, draw, field store or class store, unlock.
ghost use Rattle.std.specs.Prelude.{◌≡◌, ◌≢◌, ◌<◌, length, Some, MatchResult};
ghost use Rattle.st_layout.specs.declared.limits.TheConstants.{MOST_FIELDS};
ghost use Rattle.st_layout.specs.Packed.{packed, high_half, low_half};
ghost use Rattle.st_rule.specs.declared.views.Phase.TheVariants.{Inside, Outside};
ghost use Rattle.st_rule.specs.Draws.{MayLock, MayUnlock, HasInHand, AwaitsField, AwaitsClass, MayDraw, MayLoadBoard};
ghost use Rattle.st_rule.specs.Plays.{Finds, FindsAndLearns, FindsBoard, FindsLock, FindsAndDraws};
ghost use Rattle.st_rule.specs.Seats.{IsSeatOf, IsSameSeat, IsFair, HoldsNothing, HasSeenAll, told_of};
ghost use Rattle.st_rule.specs.Turns.{looked_last, unlocked, field_found, word_written};

use crate::seats::MutSeat;
use crate::tables::Shared;
use st_events::{Event, Judge};
use st_layout::{hi, lo, pack};
use std::marker::Brand;

impl<J: Judge> Shared<J> {
    /// Last look: a load of the clock. The seat has then seen the whole journal of this moment: as many events as the clock counts.
    pub fn last_look(&self, seat: &mut MutSeat<J>) -> u64
        requires table { IsSeatOf J.meant self.now seat.old }
        requires phase { seat.old.view.gate.phase ≡ Outside }
        ensures seat { IsSameSeat seat.old seat.new }
        ensures fair { IsFair seat.new }
        ensures view { FindsAndLearns looked_last seat.old.view seat.new.view }
        ensures found { seat.new.view.tally.found ≡ Some result }
        ensures counts { high_half result ≡ length seat.new.view.journal.seen }
        ensures whole { HasSeenAll (told_of J.meant J.right self.now) seat.new result }
    {
        self.load_clock(seat)
    }

    /// Board load: a load of the epoch word, a lane word, the available word or a free word by a seat that is inside, or of any word by
    /// one that is alone. An epoch is below 2^32.
    pub fn board_load(&self, seat: &mut MutSeat<J>, word: u32) -> u64
        requires table { IsSeatOf J.meant self.now seat.old }
        requires board { MayLoadBoard seat.old.view word }
        ensures seat { IsSameSeat seat.old seat.new }
        ensures fair { IsFair seat.new }
        ensures view { FindsBoard word seat.old.view seat.new.view }
        ensures found { seat.new.view.tally.found ≡ Some result }
    {
        self.load_board(seat, word)
    }

    /// Lock object: a compare and exchange of its header, from one that has this stamp and that nobody holds. Err gives the header
    /// found, where that is another. It is never refused, with stamp 0, for the next object of the seat's region.
    pub fn lock(&self, seat: &mut MutSeat<J>, obj: u32, stamp: u32) -> Result<(), u64>
        requires table { IsSeatOf J.meant self.now seat.old }
        requires phase { seat.old.view.gate.phase ≡ Inside }
        requires hand { HoldsNothing seat.old }
        requires object { MayLock seat.old.view obj }
        ensures seat { IsSameSeat seat.old seat.new }
        ensures fair { IsFair seat.new }
        ensures view { FindsLock obj stamp seat.old.view seat.new.view }
        ensures answer { MatchResult result (λ _. seat.new.view.tally.found ≡ Some (packed stamp 0)) (λ word. (seat.new.view.tally.found ≡ Some word) × (word ≢ packed stamp 0)) }
    {
        let free = pack(u64::from(stamp), 0);
        let mine = pack(u64::from(stamp), u64::from(seat.number()) + 1);
        let found = self.exchange_header(seat, obj, stamp, free, mine);
        if found == free { Ok(()) } else { Err(found) }
    }

    /// Unlock: a store of the header, with this stamp.
    pub fn unlock(&self, seat: &mut MutSeat<J>, obj: u32, stamp: u32)
        requires table { IsSeatOf J.meant self.now seat.old }
        requires hand { MayUnlock seat.old.view obj stamp }
        ensures seat { IsSameSeat seat.old seat.new }
        ensures fair { IsFair seat.new }
        ensures view { seat.new.view ≡ unlocked seat.old.view }
    {
        self.store_header(seat, obj, stamp, pack(u64::from(stamp), 0));
    }

    /// Field load: a load of a field of the held object.
    pub fn field_load(&self, seat: &mut MutSeat<J>, obj: u32, field: u8) -> u64
        requires table { IsSeatOf J.meant self.now seat.old }
        requires hand { HasInHand seat.old.view obj }
        requires field { field < MOST_FIELDS }
        ensures seat { IsSameSeat seat.old seat.new }
        ensures fair { IsFair seat.new }
        ensures view { Finds (field_found field) seat.old.view seat.new.view }
        ensures found { seat.new.view.tally.found ≡ Some result }
    {
        self.load_field(seat, obj, field)
    }

    /// Draw: an addition to the clock, which gives the event its ticket. With `copy` it draws an index of the free list too. The event
    /// joins the journal at this step, and the seat's own list.
    pub fn draw(&self, seat: &mut MutSeat<J>, event: Event, copy: bool) -> (u32, u32)
        requires table { IsSeatOf J.meant self.now seat.old }
        requires event { MayDraw seat.old.view event copy }
        ensures seat { IsSameSeat seat.old seat.new }
        ensures fair { IsFair seat.new }
        ensures view { FindsAndDraws event seat.old.view seat.new.view }
        ensures found { seat.new.view.tally.found ≡ Some (packed result.0 result.1) }
    {
        let found = self.add_clock::<Brand>(seat, event, copy);
        (hi(found) as u32, lo(found) as u32)
    }

    /// Field store: a store of the word that the change in flight sets.
    pub fn field_store(&self, seat: &mut MutSeat<J>, obj: u32, field: u8, value: u64)
        requires table { IsSeatOf J.meant self.now seat.old }
        requires flight { AwaitsField seat.old.view obj field value }
        requires field { field < MOST_FIELDS }
        ensures seat { IsSameSeat seat.old seat.new }
        ensures fair { IsFair seat.new }
        ensures view { seat.new.view ≡ word_written seat.old.view }
    {
        self.store_field(seat, obj, field, value);
    }

    /// Class store: a store of the class number of the object that the New in flight makes.
    pub fn class_store(&self, seat: &mut MutSeat<J>, obj: u32, class: u8)
        requires table { IsSeatOf J.meant self.now seat.old }
        requires flight { AwaitsClass seat.old.view obj class }
        ensures seat { IsSameSeat seat.old seat.new }
        ensures fair { IsFair seat.new }
        ensures view { seat.new.view ≡ word_written seat.old.view }
    {
        self.store_class(seat, obj, u64::from(class));
    }
}
