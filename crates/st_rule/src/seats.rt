//! A mutator's seat.
ghost use Rattle.std.specs.Prelude.{◌≡◌, ◌+◌, ◌≤◌, [], vec_capacity};
ghost use Rattle.st_rule.specs.declared.views.View.TheVariants.{Mut};
ghost use Rattle.st_rule.specs.SeatValue.{IsFairView, KeepsSeat};
ghost use Rattle.st_rule.specs.Entries.{charge_spent, objects_made, whole_charge, whole_region};
ghost use Rattle.st_rule.specs.Views.{mutator_of};

use crate::views::{Entry, View};
use atomic_table::Seat;
use st_events::Judge;
use std::marker::{Model, PhantomData};

/// The seat of a mutator, or of the main thread. It is moved and never copied.
#[derive(Drop)]
pub struct MutSeat<J: Judge> {
    pub(crate) seat: Seat<(), View>,
    number: u8,
    pub(crate) spare: u32,
    pub(crate) room: u32,
    pub(crate) entries: Vec<Entry>,
    of: PhantomData<J>,
}

impl<J: Judge> Model for MutSeat<J> {
    ghost use Rattle.std.specs.Prelude.{vec_capacity};
    ghost use Rattle.st_rule.specs.SeatValue.{SeatValue, KeepsSeat};
    ghost use Rattle.st_rule.specs.Views.{mutator_of};

    ghost Value = { SeatValue };

    ghost view = { λ s. record { table = s.seat.table_id; id = s.seat.id; view = mutator_of s.seat.me.0 } };

    ghost invariant = { λ s. KeepsSeat s.seat.me s.number s.spare s.room s.entries.items (vec_capacity s.entries) };
}

impl<J: Judge> MutSeat<J> {
    /// The seat's number: a mutator's, or for the main thread the number of mutators.
    pub fn number(&self) -> u8
        ensures number { result ≡ self.now.view.gate.number }
        ensures within { result ≤ self.now.view.terms.sizes.mutators }
    {
        self.number
    }

    /// How much of the charge is left: an event takes 1, a launch 2. The main thread has none.
    pub fn spare(&self) -> u32
        ensures { result + charge_spent self.now.view ≡ whole_charge self.now.view.terms.sizes self.now.view.gate.number }
    {
        self.spare
    }

    /// How many objects it may still make. The main thread makes none.
    pub fn room(&self) -> u32
        ensures { result + objects_made self.now.view ≡ whole_region self.now.view.terms.sizes self.now.view.gate.number }
    {
        self.room
    }

    /// What the seat has seen is legal, with its own events, and what it holds is within the table. Nothing is computed.
    pub(crate) fn is_fair(&self)
        ensures { IsFairView self.now.view }
    {
        let _ = &self.seat;
    }

    /// A seat with no events yet, with these many spare and this much room.
    pub(crate) fn of(
        seat: Seat<(), View>,
        number: u8,
        spare: u32,
        room: u32,
        entries: Vec<Entry>,
    ) -> MutSeat<J>
        requires { KeepsSeat seat.me number spare room entries.items (vec_capacity entries) }
        ensures { result ≡ record { table = seat.table_id; id = seat.id; view = mutator_of seat.me.0 } }
    {
        MutSeat {
            seat,
            number,
            spare,
            room,
            entries,
            of: PhantomData,
        }
    }

    /// The token and the entries.
    pub(crate) fn into_parts(self) -> (Seat<(), View>, SeatLog)
        ensures table { (result.0.table_id ≡ self.table) × (result.0.id ≡ self.id) }
        ensures view { result.0.me ≡ (Mut self.view, []) }
        ensures entries { result.1 ≡ self.view.journal.entries }
        ensures fair { IsFairView self.view }
    {
        let MutSeat { seat, entries, .. } = self;
        (seat, SeatLog { entries })
    }
}

/// The events of a joined seat, with their tickets, in order. Contracts see it as that list.
#[derive(Debug, Drop)]
pub struct SeatLog {
    entries: Vec<Entry>,
}

impl Model for SeatLog {
    ghost use Rattle.std.specs.Prelude.{List};
    ghost use Rattle.st_rule.specs.declared.views.Entry.{Entry};

    ghost Value = { List Entry };

    ghost view = { λ l. l.entries.items };
}

impl SeatLog {
    /// The events, in order.
    pub fn entries(&self) -> &[Entry]
        ensures { result.now ≡ self.now }
    {
        self.entries.as_slice()
    }
}
