//! A run is opened: all memory that it ever takes is taken here.

ghost use Rattle.std.specs.Prelude.{◌≡◌, ◌+◌, ◌*◌, ◌/◌, ◌≤◌, [], length, IfOk, vec_capacity};
ghost use Rattle.std.specs.List.{All};
ghost use Rattle.st_events.specs.Sizes.{AreWithinLimits};
ghost use Rattle.st_resolved.specs.Views.{program_of};
ghost use Rattle.st_resolved.specs.WellFormed.{IsWellFormed};
ghost use Rattle.st_run_meaning.specs.States.{first_state};
ghost use Rattle.st_mutator.specs.Mutators.{HasFewLocals};
ghost use Rattle.st_snap.specs.Snapshots.{event_room};
ghost use Rattle.st_sched.specs.Standing.{IsIdleEval};
ghost use Rattle.st_sched.specs.UnderWay.{AreSeats};

use crate::running::Running;
use crate::seats::Seat;
use st_eval::Eval;
use st_events::{NoMemory, Shape, Sizes};
use st_resolved::Resolved;
use st_snap::SnapHeap;
use std::alloc::Global;

impl Running {
    ghost use Rattle.st_sched.specs.UnderWay.{IsOnTheWay};

    /// The run before its first turn.
    pub fn open(
        alloc: Global,
        shape: &Shape,
        program: &Resolved,
        sizes: &Sizes,
        seed: u64,
    ) -> Result<Running, NoMemory>
        requires formed { IsWellFormed shape.now (program_of program.now) }
        requires sizes { AreWithinLimits sizes.now }
        requires threads { sizes.now.mutators ≡ length (program_of program.now).threads }
        ensures { IfOk result (λ r. IsOnTheWay shape.now (program_of program.now) sizes.now (first_state seed) r) }
    {
        let lanes = usize::from(sizes.lanes);
        let mutators = usize::from(sizes.mutators);
        Ok(Running {
            heap: SnapHeap::make(alloc, shape, sizes)?,
            seats: seats_of(alloc, program, sizes)?,
            checks: Vec::with_capacity(alloc, lanes)?,
            idle: evaluators(alloc, program, sizes)?,
            verdicts: Vec::with_capacity(alloc, most_checks(sizes))?,
            ready: Vec::with_capacity(alloc, mutators + lanes)?,
            ends: Vec::with_capacity(alloc, mutators)?,
            x: seed,
        })
    }
}

/// How many checks a run can launch at most: a launch costs two of a thread's charge.
fn most_checks(sizes: &Sizes) -> usize
    requires { AreWithinLimits sizes.now }
    ensures { event_room sizes.now ≤ 2 * result + 1 }
{
    usize::from(sizes.mutators) * sizes.events as usize / 2
}

/// The threads of the program, each before its first step.
fn seats_of(alloc: Global, program: &Resolved, sizes: &Sizes) -> Result<Vec<Seat>, NoMemory>
    requires { HasFewLocals (program_of program.now) }
    ensures { IfOk result (λ seats. AreSeats (program_of program.now) sizes.now [] seats.items) }
{
    let mut seats = Vec::with_capacity(alloc, usize::from(sizes.mutators))?;
    for m in 0..sizes.mutators {
        seats.push_reserved(Seat::make(alloc, program, m, sizes)?);
    }
    Ok(seats)
}

/// An evaluator for each lane.
fn evaluators(alloc: Global, program: &Resolved, sizes: &Sizes) -> Result<Vec<Eval>, NoMemory>
    ensures made { IfOk result (λ evals. All (IsIdleEval (program_of program.now) sizes.now) evals.items) }
    ensures count { IfOk result (λ evals. length evals.items ≡ sizes.now.lanes) }
    ensures room { IfOk result (λ evals. sizes.now.lanes ≤ vec_capacity evals) }
{
    let lanes = usize::from(sizes.lanes);
    let mut evals = Vec::with_capacity(alloc, lanes)?;
    'lanes: while evals.len() < lanes {
        evals.push_reserved(Eval::make(alloc, program, sizes.calls)?);
    }
    Ok(evals)
}
