//! Checks are launched, and retired.
ghost use Rattle.std.specs.Prelude.{◌≡◌, ◌≤◌, ◌<◌, ◌+◌, [], ◌∷◌, ◌++◌, take, drop, get_or, vec_len, vec_capacity};
ghost use Rattle.st_resolved.specs.Terms.{Program};
ghost use Rattle.st_resolved.specs.Views.{program_of};

use crate::checks::{ActiveCheck, Awaits};
use crate::running::Running;
use st_events::{Args, NoLane, Plain, Verdict};
use st_resolved::Resolved;

/// What stands in the place of a verdict until its check is retired.
const NO_VERDICT_YET: Verdict = Verdict::Plain(Plain::Fails);

impl Running {
    ghost use Rattle.st_sched.specs.Standing.{HasVerdictAt, finished_in, number_at};
    ghost use Rattle.st_sched.specs.UnderWay.{IsUnderWay, Stands, IsHistory, CanLaunch, CanLaunchAfter, IsFresh, KeepsTheRest, with_retires, with_launch};

    /// Thread `m` retires each check that has finished, in order of number, from the one at `index` on.
    fn retire_finished(&mut self, m: u8, index: usize)
        requires run { (p : Program) × IsUnderWay p self.old }
        requires thread { m ≤ self.old.heap.sizes.mutators }
        ensures stands { (p : Program) (t : IsUnderWay p self.old) → Stands t.shape p t.sizes (with_retires m (finished_in (drop index self.old.checks.items)) t.state) self.new }
        ensures history { (p : Program) (t : IsUnderWay p self.old) → IsHistory t.shape t.sizes (with_retires m (finished_in (drop index self.old.checks.items)) t.state).journal }
        ensures rest { KeepsTheRest self.old self.new }
    {
        if index >= self.checks.len() {
            return;
        }
        match self.checks[index].awaits {
            Awaits::Cell { .. } => self.retire_finished(m, index + 1),
            Awaits::Retire(verdict) => {
                self.retire(m, index, verdict);
                self.retire_finished(m, index);
            }
        }
    }

    /// Thread `m` retires the check at `index`, which has this verdict; its evaluator is idle again.
    fn retire(&mut self, m: u8, index: usize, verdict: Verdict)
        requires run { (p : Program) × IsUnderWay p self.old }
        requires thread { m ≤ self.old.heap.sizes.mutators }
        requires verdict { HasVerdictAt self.old.checks.items index verdict }
        ensures stands { (p : Program) (t : IsUnderWay p self.old) → Stands t.shape p t.sizes (with_retires m (number_at self.old.checks.items index ∷ []) t.state) self.new }
        ensures history { (p : Program) (t : IsUnderWay p self.old) → IsHistory t.shape t.sizes (with_retires m (number_at self.old.checks.items index ∷ []) t.state).journal }
        ensures checks { self.new.checks.items ≡ take index self.old.checks.items ++ drop (index + 1) self.old.checks.items }
        ensures rest { KeepsTheRest self.old self.new }
    {
        let ActiveCheck {
            lane,
            eval,
            awaits: _,
        } = take_out(&mut self.checks, index);
        self.verdicts[lane.number() as usize - 1] = verdict;
        self.heap.retire(m, lane);
        self.idle.push_reserved(eval);
    }

    /// Thread `m` retires each check that has finished, in order of number.
    pub fn retire_all(&mut self, m: u8)
        requires run { (p : Program) × IsUnderWay p self.old }
        requires thread { m ≤ self.old.heap.sizes.mutators }
        ensures stands { (p : Program) (t : IsUnderWay p self.old) → Stands t.shape p t.sizes (with_retires m (finished_in self.old.checks.items) t.state) self.new }
        ensures history { (p : Program) (t : IsUnderWay p self.old) → IsHistory t.shape t.sizes (with_retires m (finished_in self.old.checks.items) t.state).journal }
        ensures rest { KeepsTheRest self.old self.new }
    {
        self.retire_finished(m, 0);
    }

    /// Thread `m` retires each check that has finished, and launches the check of a site.
    pub fn launch(&mut self, program: &Resolved, m: u8, site: u16, args: Args)
        requires run { IsUnderWay (program_of program.now) self.old }
        requires launch { CanLaunchAfter (program_of program.now) m site args self.old }
        ensures stands { (t : IsUnderWay (program_of program.now) self.old) → IsFresh t → Stands t.shape (program_of program.now) t.sizes (with_launch t.shape t.sizes m site args (with_retires m (finished_in self.old.checks.items) t.state)) self.new }
        ensures rest { KeepsTheRest self.old self.new }
    {
        self.retire_all(m);
        self.begin_check(program, m, site, args);
    }

    /// The check of the site is launched; it takes an idle evaluator.
    fn begin_check(&mut self, program: &Resolved, m: u8, site: u16, args: Args)
        requires launch { CanLaunch (program_of program.now) m site args self.old }
        ensures stands { (t : IsUnderWay (program_of program.now) self.old) → IsFresh t → Stands t.shape (program_of program.now) t.sizes (with_launch t.shape t.sizes m site args t.state) self.new }
        ensures rest { KeepsTheRest self.old self.new }
    {
        let lane = match self.heap.launch(m, site, args) {
            Ok(lane) => lane,
            Err(NoLane) => unreachable!(),
        };
        let eval = match self.idle.pop() {
            Some(eval) => eval,
            None => unreachable!(),
        };
        self.verdicts.push_reserved(NO_VERDICT_YET);
        self.checks
            .push_reserved(ActiveCheck::begin(lane, eval, program, site, args));
    }
}

/// Takes the check at `index` out; the others stay in order.
fn take_out(checks: &mut Vec<ActiveCheck>, index: usize) -> ActiveCheck
    requires { index < vec_len checks.old }
    ensures taken { result ≡ get_or checks.old.items index result }
    ensures others { checks.new.items ≡ take index checks.old.items ++ drop (index + 1) checks.old.items }
    ensures capacity { vec_capacity checks.new ≡ vec_capacity checks.old }
{
    checks.remove(index)
}
