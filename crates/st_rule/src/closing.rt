//! The end of a table.
ghost use Rattle.std.specs.Prelude.{◌≡◌, ◌-◌, ◌^◌, ◌<◌, length};
ghost use Rattle.st_rule.specs.declared.views.Phase.TheVariants.{Outside};
ghost use Rattle.std.specs.Slots.{slots_items};
ghost use Rattle.st_rule.specs.Ends.{IsHistoryOf, HasLogs, HasEachCopy, HasAllFree, HasUnwrittenRows, HasNoRows};
ghost use Rattle.st_rule.specs.Rows.{rows_told};
ghost use Rattle.st_rule.specs.Views.{mutator_of};
ghost use Rattle.st_rule.specs.Seats.{IsSeatOf, IsMain, HasJoinedAll, terms_of, told_of};

use crate::seats::MutSeat;
use crate::tables::Shared;
use crate::views::View;
use atomic_table::Seat;
use st_events::Judge;
use st_layout::{Plan, hi, lo};
use std::alloc::Global;
use std::marker::Model;
use std::snapshot::Snapshot;

/// What is left of a table. Only `close` makes one. Contracts see it as the journal of the table at its close, its history, its check
/// rows and the number of its free copies.
#[derive(Drop)]
pub struct Closed {
    free: u32,
    events: u32,
    /// The main thread's seat, of which only proofs keep a picture: it has seen the history.
    main: Snapshot<Seat<(), View>>,
    plan: Plan,
    /// The words, of which only proofs keep a picture: no call tells a row yet.
    words: Snapshot<atomic_table::Closed<(), Global>>,
}

impl Model for Closed {
    ghost use Rattle.std.specs.Prelude.{◌≡◌, length};
    ghost use Rattle.std.specs.Slots.{slots_items};
    ghost use Rattle.st_rule.specs.Ends.{ClosedValue};
    ghost use Rattle.st_rule.specs.Rows.{rows_told};
    ghost use Rattle.st_rule.specs.Views.{mutator_of};

    ghost Value = { ClosedValue };

    ghost view = { λ c. record { history = (mutator_of c.main.value.me.0).journal.seen; rows = rows_told c.plan (slots_items c.words.value.words); free = c.free } };

    ghost invariant = { λ c. c.events ≡ length (mutator_of c.main.value.me.0).journal.seen };
}

impl Closed {
    /// How many copies were free.
    pub fn free(&self) -> u32
        ensures { result ≡ self.now.free }
    {
        self.free
    }

    /// How many events the history has.
    pub fn events(&self) -> u32
        ensures { result ≡ length self.now.history }
    {
        self.events
    }

    /// A table that was closed.
    fn of(
        free: u32,
        events: u32,
        main: Snapshot<Seat<(), View>>,
        plan: Plan,
        words: Snapshot<atomic_table::Closed<(), Global>>,
    ) -> Closed
        requires { events ≡ length (mutator_of main.value.me.0).journal.seen }
        ensures history { result.history ≡ (mutator_of main.value.me.0).journal.seen }
        ensures rows { result.rows ≡ rows_told plan (slots_items words.value.words) }
        ensures free { result.free ≡ free }
    {
        Closed {
            free,
            events,
            main,
            plan,
            words,
        }
    }
}

impl<J: Judge> Shared<J> {
    /// Ends the table, and gives its memory back.
    pub fn close(self, main: MutSeat<J>) -> Closed
        requires table { IsSeatOf J.meant self main }
        requires main { IsMain main }
        requires phase { main.view.gate.phase ≡ Outside }
        requires joined { HasJoinedAll main.view }
        ensures seen { result.history ≡ main.view.journal.seen }
        ensures history { IsHistoryOf (told_of J.meant J.right self) result.history }
        ensures logs { HasLogs result.history main.view.hands.joined }
        ensures rows { HasUnwrittenRows (terms_of J.meant self) result }
        ensures unlaunched { HasNoRows (terms_of J.meant self) result }
        ensures copies { HasEachCopy (terms_of J.meant self) result }
        ensures free { HasAllFree (terms_of J.meant self) result }
    {
        let Shared { table, plan, .. } = self;
        let (seat, _log) = main.into_parts();
        let picture = Snapshot::of(&seat);
        let closed = table.close_with(seat);
        let clock = closed.word(plan.clock_word() as usize);
        let available = closed.word(plan.available_word() as usize);
        let words = Snapshot::of(&closed);
        closed.free();
        let free = free_copies(available, lo(clock));
        Closed::of(free, hi(clock) as u32, picture, plan, words)
    }
}

/// How many copies are free, where the free list had so many and so many were drawn: none where more were drawn than it had.
fn free_copies(available: u64, drawn: u64) -> u32
    requires { available < 2 ^ 32 }
    ensures { result ≡ available - drawn }
{
    available.saturating_sub(drawn) as u32
}
