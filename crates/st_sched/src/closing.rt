//! A run is closed: the main thread retires the checks that are left, and what the run leaves is handed out.

ghost use Rattle.std.specs.Prelude.{◌≡◌, ◌+◌, ◌≤◌, ◌++◌, map, length, vec_len, vec_capacity};
ghost use Rattle.st_events.specs.declared.limits.Sizes.{Sizes};
ghost use Rattle.st_events.specs.Shape.{ShapeLists};
ghost use Rattle.st_resolved.specs.Terms.{Program};
ghost use Rattle.st_run_meaning.specs.Runs.{ran_of, end_of as end_of_turn};
ghost use Rattle.st_run_meaning.specs.States.{State};
ghost use Rattle.st_mutator.specs.Mutators.{turn_of_want};

use crate::running::Running;
use crate::seats::Seat;
use st_events::{End, Ran};
use st_mutator::Want;

impl Running {
    ghost use Rattle.st_sched.specs.UnderWay.{HasEnded, IsUnderWay};

    /// What the run leaves, where nobody can take a turn. The main thread has the number of the threads.
    pub fn close(mut self, main: u8) -> Ran
        requires run { (p : Program) × IsUnderWay p self }
        requires main { main ≡ self.heap.sizes.mutators }
        requires seats { length self.seats.items ≡ self.heap.sizes.mutators }
        ensures { (shape : ShapeLists) (p : Program) (sizes : Sizes) (start : State) (t : HasEnded shape p sizes start self) → result ≡ ran_of shape p sizes t.way.state }
    {
        self.retire_all(main);
        let Running {
            heap,
            seats,
            checks: _,
            idle: _,
            verdicts,
            ready: _,
            mut ends,
            x: _,
        } = self;
        add_ends(&mut ends, seats.as_slice());
        let free = heap.free();
        Ran {
            journal: heap.into_journal().into_events(),
            verdicts,
            ends,
            free,
        }
    }
}

/// Adds the end of each thread.
fn add_ends(ends: &mut Vec<End>, seats: &[Seat])
    requires { vec_len ends.old + length seats.now ≤ vec_capacity ends.old }
    ensures { ends.new.items ≡ ends.old.items ++ map (λ seat. end_of_turn (turn_of_want seat.want)) seats.now }
{
    for seat in seats {
        ends.push_reserved(end_of(seat.want));
    }
}

/// How the thread ended; at the end of a run each has.
fn end_of(want: Want) -> End
    ensures { result ≡ end_of_turn (turn_of_want want) }
{
    match want {
        Want::End(end) => end,
        Want::New { .. } => End::Finished,
        Want::Load { .. } => End::Finished,
        Want::Store { .. } => End::Finished,
        Want::Cas { .. } => End::Finished,
        Want::Launch { .. } => End::Finished,
    }
}
