//! Seats that are handed out and taken back. Each costs one load of the closing word, which tells nothing.
//!
//! Why no two seats have one number: only the main thread's seat is split, it counts how many it handed out, and each new seat has the next
//! number. A seat is joined only where it is Outside, so no flag and no closing word is left of a number that nobody has any more.
ghost use Rattle.std.specs.Prelude.{◌≡◌, ◌<◌, ◌≤◌, [], IfOk, OnOk, OnErr, vec_capacity};
ghost use Rattle.st_rule.specs.declared.views.Phase.TheVariants.{Outside};
ghost use Rattle.st_rule.specs.declared.views.View.TheVariants.{Gone};
ghost use Rattle.st_rule.specs.Seats.{IsSeatOf, IsSameSeat, IsMain, IsMutator, IsFair};
ghost use Rattle.st_rule.specs.Turns.{left_of, right_of, both_of, split_one, newcomer, joined_with};

use crate::seats::{MutSeat, SeatLog};
use crate::tables::Shared;
use crate::views::{Entry, View};
use atomic_table::{Join, Split};
use st_events::{Judge, NoMemory};
use std::alloc::Global;

/// How the main thread's view is cut in two. For proofs alone.
pub struct Handed;

impl Split<View> for Handed {
    ghost left = { left_of };

    ghost right = { right_of };
}

/// How a mutator's view is taken in. For proofs alone.
pub struct Taken;

impl Join<View> for Taken {
    ghost both = { both_of };

    ghost spent = { Gone };
}

impl<J: Judge> Shared<J> {
    /// Split seat: hands out the seat of mutator `m`, once. It is Outside and has no events. Where memory is refused, nothing has
    /// changed.
    pub fn split_mut(
        &self,
        alloc: Global,
        main: &mut MutSeat<J>,
        m: u8,
    ) -> Result<MutSeat<J>, NoMemory>
        requires table { IsSeatOf J.meant self.now main.old }
        requires main { IsMain main.old }
        requires next { m ≡ main.old.view.gate.split }
        requires mutator { m < main.old.view.terms.sizes.mutators }
        requires unseen { main.old.view.journal.seen ≡ [] }
        ensures same { IsSameSeat main.old main.new }
        ensures table { IfOk result (λ seat. IsSeatOf J.meant self.now seat) }
        ensures new { IfOk result (λ seat. seat.view ≡ newcomer main.old.view) }
        ensures main { OnOk result (main.new.view ≡ split_one main.old.view) }
        ensures err { OnErr result (main.new ≡ main.old) }
    {
        let entries = Vec::with_capacity(alloc, self.sizes().events as usize)?;
        Ok(self.hand_out(main, m, entries))
    }

    /// Splits the seat of mutator `m` off, with an empty list for its events, which has room for all that its charge allows.
    fn hand_out(&self, main: &mut MutSeat<J>, m: u8, entries: Vec<Entry>) -> MutSeat<J>
        requires table { IsSeatOf J.meant self.now main.old }
        requires main { IsMain main.old }
        requires next { m ≡ main.old.view.gate.split }
        requires mutator { m < main.old.view.terms.sizes.mutators }
        requires unseen { main.old.view.journal.seen ≡ [] }
        requires entries { entries.items ≡ [] }
        requires reserved { main.old.view.terms.sizes.events ≤ vec_capacity entries }
        ensures same { IsSameSeat main.old main.new }
        ensures table { IsSeatOf J.meant self.now result }
        ensures new { result.view ≡ newcomer main.old.view }
        ensures main { main.new.view ≡ split_one main.old.view }
    {
        let sizes = self.sizes();
        let seat = self.table.shared.split_seat::<Handed>(&mut main.seat);
        MutSeat::of(seat, m, sizes.events, sizes.objects, entries)
    }

    /// Join seat: takes a mutator's seat in, and gives out its events.
    pub fn join_mut(&self, main: &mut MutSeat<J>, seat: MutSeat<J>) -> SeatLog
        requires table { IsSeatOf J.meant self.now main.old }
        requires seat { IsSeatOf J.meant self.now seat }
        requires main { IsMain main.old }
        requires mutator { IsMutator seat }
        requires phase { seat.view.gate.phase ≡ Outside }
        ensures same { IsSameSeat main.old main.new }
        ensures fair { IsFair main.new }
        ensures view { main.new.view ≡ joined_with main.old.view seat.view }
        ensures log { result ≡ seat.view.journal.entries }
    {
        let (other, log) = seat.into_parts();
        self.table.shared.join_seat::<Taken>(&mut main.seat, other);
        log
    }
}
