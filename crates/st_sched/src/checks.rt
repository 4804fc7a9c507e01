//! An active check: it reads one cell after another, until it has a verdict.
ghost use Rattle.std.specs.Prelude.{◌≡◌, ◌≤◌, ℕ, true, false, Some};
ghost use Rattle.st_resolved.specs.Terms.{Program};
ghost use Rattle.st_resolved.specs.Views.{program_of};
ghost use Rattle.st_check_meaning.specs.Plain.{check_course};
ghost use Rattle.st_check_meaning.specs.Turns.{Turn, turn_of};
ghost use Rattle.st_eval.specs.Evaluations.{words_of, IsMadeFor, budget, turn_by, IsTurn};
ghost use Rattle.st_snap.specs.Snapshots.{IsLaneOf, HadCell, word_at_launch, is_lost_for};
ghost use Rattle.st_eval.specs.declared.evals.Eval.{Eval};
ghost use Rattle.st_sched.specs.Checks.{is_over, AwaitsTurn};

use st_eval::{Ask, Eval};
use st_events::{Args, MOST_ARGS, Verdict};
use st_resolved::Resolved;
use st_snap::{Lane, SnapHeap};

/// What an active check does next.
#[derive(Clone, Copy, Debug)]
pub(crate) enum Awaits {
    /// It reads this cell.
    Cell { obj: u32, field: u8 },
    /// It has finished with this verdict, and is to be retired.
    Retire(Verdict),
}

/// An active check with its lane and its evaluator.
#[derive(Drop)]
pub(crate) struct ActiveCheck {
    pub lane: Lane,
    pub eval: Eval,
    pub awaits: Awaits,
}

impl ActiveCheck {
    /// Begins the check of this lane, by its site and its arguments.
    pub fn begin(
        lane: Lane,
        mut eval: Eval,
        program: &Resolved,
        site: u16,
        args: Args,
    ) -> ActiveCheck
        requires made { IsMadeFor (program_of program.now) eval }
        requires few { args.count ≤ MOST_ARGS }
        ensures lane { result.lane ≡ lane }
        ensures made { IsMadeFor (program_of program.now) result.eval }
        ensures budget { budget result.eval ≡ budget eval }
        ensures turn { AwaitsTurn (program_of program.now) (turn_of (check_course (program_of program.now) site (words_of args)) (budget eval)) result.awaits result.eval }
    {
        eval.start(program, site, args);
        let ask = eval.next(program, 0);
        ActiveCheck {
            lane,
            eval,
            awaits: awaits_of(ask),
        }
    }

    /// Whether the check has a verdict.
    pub fn is_finished(&self) -> bool
        ensures { result ≡ is_over self.now.awaits }
    {
        match self.awaits {
            Awaits::Cell { .. } => false,
            Awaits::Retire(_) => true,
        }
    }

    /// Reads the cell that the check waits for, as the heap was at its launch, and goes on by its word. Where that version is
    /// lost, the check is abandoned.
    pub fn read(&mut self, program: &Resolved, heap: &SnapHeap, obj: u32, field: u8)
        requires made { IsMadeFor (program_of program.now) self.old.eval }
        requires lane { IsLaneOf heap.now self.old.lane }
        requires cell { HadCell heap.now self.old.lane.number obj field }
        ensures lane { self.new.lane ≡ self.old.lane }
        ensures made { IsMadeFor (program_of program.now) self.new.eval }
        ensures budget { budget self.new.eval ≡ budget self.old.eval }
        ensures lost { is_lost_for heap.now obj self.old.lane.number ≡ true → self.new.awaits ≡ Awaits.Retire (Verdict.Abandoned obj) }
        ensures read { (word : ℕ) → is_lost_for heap.now obj self.old.lane.number ≡ false → word_at_launch heap.now self.old.lane.number obj field ≡ Some word → AwaitsTurn (program_of program.now) (turn_by (program_of program.now) self.old.eval word) self.new.awaits self.new.eval }
    {
        match heap.read(&self.lane, obj, field) {
            Ok(word) => {
                let ask = self.eval.next(program, word);
                self.awaits = awaits_of(ask);
            }
            Err(lost) => self.awaits = Awaits::Retire(Verdict::Abandoned { obj: lost.obj }),
        }
    }
}

/// What the check does after this answer.
fn awaits_of(ask: Ask) -> Awaits
    ensures { (p : Program) (turn : Turn) (e : Eval) → IsTurn p turn ask e → AwaitsTurn p turn result e }
{
    match ask {
        Ask::Read { obj, field } => Awaits::Cell { obj, field },
        Ask::Done(plain) => Awaits::Retire(Verdict::Plain(plain)),
    }
}
