//! A scheduled run, whole.

ghost use Rattle.std.specs.Prelude.{◌≡◌, length, IfOk};
ghost use Rattle.st_events.specs.Sizes.{AreWithinLimits};
ghost use Rattle.st_resolved.specs.Views.{program_of};
ghost use Rattle.st_resolved.specs.WellFormed.{IsWellFormed};
ghost use Rattle.st_run_meaning.specs.Runs.{scheduled_run};
ghost use Rattle.st_thread_meaning.specs.Right.{IsRightRun};

use crate::running::Running;
use st_events::{NoMemory, Ran, Shape, Sizes};
use st_resolved::Resolved;
use std::alloc::Global;

/// Runs the program, whose threads and checks take turns as the seed says, to its end.
pub fn run_resolved(
    alloc: Global,
    shape: &Shape,
    program: &Resolved,
    sizes: &Sizes,
    seed: u64,
) -> Result<Ran, NoMemory>
    requires formed { IsWellFormed shape.now (program_of program.now) }
    requires sizes { AreWithinLimits sizes.now }
    requires threads { sizes.now.mutators ≡ length (program_of program.now).threads }
    ensures run { IfOk result (λ ran. ran ≡ scheduled_run shape.now (program_of program.now) sizes.now seed) }
    ensures right { IfOk result (λ ran. IsRightRun shape.now (program_of program.now) sizes.now ran) }
{
    let mut running = Running::open(alloc, shape, program, sizes, seed)?;
    'turns: while running.go_on(program) {}
    Ok(running.close(main_thread(sizes)))
}

/// The number of the main thread: it comes after those of the program's threads.
fn main_thread(sizes: &Sizes) -> u8
    ensures { result ≡ sizes.now.mutators }
{
    sizes.mutators
}
