//! Turns: who takes the next one is chosen, and takes it.
ghost use Rattle.std.specs.Prelude.{◌≡◌, ◌+◌, ◌%◌, ◌/◌, ◌^◌, ◌<◌, ◌≤◌, ◌||◌, ℕ, true, false, not, length, vec_len, vec_capacity};
ghost use Rattle.st_events.specs.declared.limits.Sizes.{Sizes};
ghost use Rattle.st_events.specs.Shape.{ShapeLists};
ghost use Rattle.st_resolved.specs.Terms.{Program};
ghost use Rattle.st_resolved.specs.Views.{program_of};
ghost use Rattle.st_run_meaning.specs.Agents.{mutator, check, number_after as next_number};
ghost use Rattle.st_run_meaning.specs.States.{State};
ghost use Rattle.st_run_meaning.specs.Steps.{turn_of};
ghost use Rattle.st_sched.specs.Choosing.{some_over};

use crate::agents::{Agent, add_checks, add_mutators};
use crate::answering::answer;
use crate::checks::{ActiveCheck, Awaits};
use crate::running::Running;
use st_events::Args;
use st_mutator::Want;
use st_resolved::Resolved;
use st_run_meaning::{INCREMENT, LOW_BITS, MULTIPLIER};

impl Running {
    ghost use Rattle.st_sched.specs.Answering.{IsPlainWant};
    ghost use Rattle.st_sched.specs.Choosing.{all_ready, chosen_of, has_room};
    ghost use Rattle.st_sched.specs.Standing.{number_at};
    ghost use Rattle.st_sched.specs.UnderWay.{IsTurnOf, IsOnTheWay, HasEnded, HasSeat, Stands, AreSeats};

    /// Turns of checks, and then one of a thread. The answer is false where nobody can take a turn any more.
    pub fn go_on(&mut self, program: &Resolved) -> bool
        requires { (shape : ShapeLists) × (sizes : Sizes) × (start : State) × IsOnTheWay shape (program_of program.now) sizes start self.old }
        ensures on { (shape : ShapeLists) (sizes : Sizes) (start : State) → IsOnTheWay shape (program_of program.now) sizes start self.old → result ≡ true → IsOnTheWay shape (program_of program.now) sizes start self.new }
        ensures more { result ≡ true → length self.old.heap.journal < length self.new.heap.journal }
        ensures over { (shape : ShapeLists) (sizes : Sizes) (start : State) → IsOnTheWay shape (program_of program.now) sizes start self.old → result ≡ false → HasEnded shape (program_of program.now) sizes start self.new }
    {
        'turns: loop {
            let x = number_after(self.x);
            match self.next_ready(x) {
                None => return false,
                Some(Agent::Mutator(m)) => {
                    self.turn_of_mutator(program, m);
                    self.x = x;
                    return true;
                }
                Some(Agent::Check(index)) => {
                    self.turn_of_check(program, index);
                    self.x = x;
                }
            }
        }
    }

    /// Who takes the next turn, if anyone can: threads come first, and then checks, each in order of number.
    fn next_ready(&mut self, x: u64) -> Option<Agent>
        requires { length self.old.seats.items + length self.old.checks.items ≤ vec_capacity self.old.ready }
        ensures chosen { result ≡ chosen_of x (all_ready self.old.seats.items self.old.checks.items (length self.old.idle.items)) }
        ensures rest { self.new ≡ record self.old { ready = self.new.ready } }
        ensures capacity { vec_capacity self.new.ready ≡ vec_capacity self.old.ready }
    {
        let room = self.can_launch();
        self.ready.truncate(0);
        add_mutators(&mut self.ready, self.seats.as_slice(), room);
        add_checks(&mut self.ready, self.checks.as_slice());
        if self.ready.is_empty() {
            return None;
        }
        Some(self.ready[choice(x, self.ready.len())])
    }

    /// Whether a check can be launched: some lane is idle, or some active check has finished.
    fn can_launch(&self) -> bool
        ensures { result ≡ has_room (length self.now.idle.items) self.now.checks.items }
    {
        !self.idle.is_empty() || some_finished(self.checks.as_slice())
    }

    /// What the thread asks for is done, and it goes on by the reply.
    fn turn_of_mutator(&mut self, program: &Resolved, m: usize)
        requires { IsTurnOf (program_of program.now) (mutator m) self.old }
        ensures stands { (t : IsTurnOf (program_of program.now) (mutator m) self.old) → Stands t.run.shape (program_of program.now) t.run.sizes (turn_of t.run.shape (program_of program.now) t.run.sizes t.run.state (mutator m)) self.new }
        ensures seats { (t : IsTurnOf (program_of program.now) (mutator m) self.old) → AreSeats (program_of program.now) t.run.sizes (turn_of t.run.shape (program_of program.now) t.run.sizes t.run.state (mutator m)).journal self.new.seats.items }
    {
        let want = self.seats[m].want;
        match want {
            Want::Launch { site, args } => self.turn_of_launch(program, m, site, args),
            _ => self.turn_of_answer(program, m, want),
        }
    }

    /// The thread launches a check.
    fn turn_of_launch(&mut self, program: &Resolved, m: usize, site: u16, args: Args)
        requires turn { IsTurnOf (program_of program.now) (mutator m) self.old }
        requires want { HasSeat self.old.seats.items m (Want.Launch site args) }
        ensures stands { (t : IsTurnOf (program_of program.now) (mutator m) self.old) → Stands t.run.shape (program_of program.now) t.run.sizes (turn_of t.run.shape (program_of program.now) t.run.sizes t.run.state (mutator m)) self.new }
        ensures seats { (t : IsTurnOf (program_of program.now) (mutator m) self.old) → AreSeats (program_of program.now) t.run.sizes (turn_of t.run.shape (program_of program.now) t.run.sizes t.run.state (mutator m)).journal self.new.seats.items }
    {
        self.launch(program, m as u8, site, args);
        self.seats[m].reply(0);
    }

    /// The thread's request, which is no launch, is done.
    fn turn_of_answer(&mut self, program: &Resolved, m: usize, want: Want)
        requires turn { IsTurnOf (program_of program.now) (mutator m) self.old }
        requires want { HasSeat self.old.seats.items m want }
        requires plain { IsPlainWant want }
        ensures stands { (t : IsTurnOf (program_of program.now) (mutator m) self.old) → Stands t.run.shape (program_of program.now) t.run.sizes (turn_of t.run.shape (program_of program.now) t.run.sizes t.run.state (mutator m)) self.new }
        ensures seats { (t : IsTurnOf (program_of program.now) (mutator m) self.old) → AreSeats (program_of program.now) t.run.sizes (turn_of t.run.shape (program_of program.now) t.run.sizes t.run.state (mutator m)).journal self.new.seats.items }
    {
        let reply = answer(&mut self.heap, m as u8, want);
        self.seats[m].reply(reply);
    }

    /// The check reads the cell that it waits for.
    fn turn_of_check(&mut self, program: &Resolved, index: usize)
        requires turn { IsTurnOf (program_of program.now) (check (number_at self.old.checks.items index)) self.old }
        requires index { index < length self.old.checks.items }
        ensures stands { (t : IsTurnOf (program_of program.now) (check (number_at self.old.checks.items index)) self.old) → Stands t.run.shape (program_of program.now) t.run.sizes (turn_of t.run.shape (program_of program.now) t.run.sizes t.run.state (check (number_at self.old.checks.items index))) self.new }
        ensures seats { self.new.seats.items ≡ self.old.seats.items }
        ensures heap { self.new.heap ≡ self.old.heap }
    {
        let check = &mut self.checks[index];
        match check.awaits {
            Awaits::Cell { obj, field } => check.read(program, &self.heap, obj, field),
            Awaits::Retire(_) => {}
        }
    }
}

/// Whether some active check has finished.
fn some_finished(checks: &[ActiveCheck]) -> bool
    ensures { result ≡ some_over checks.now }
{
    checks.iter().any(|check| check.is_finished())
}

/// The number by which the turn after this one is chosen.
fn number_after(x: u64) -> u64
    ensures { result ≡ next_number x }
{
    x.wrapping_mul(MULTIPLIER).wrapping_add(INCREMENT)
}

/// Which of so many is chosen by the number.
fn choice(x: u64, count: usize) -> usize
    requires { 0 < count }
    ensures chosen { result ≡ x / 2 ^ LOW_BITS % count }
    ensures within { result < count }
{
    ((x >> LOW_BITS) % count as u64) as usize
}
