//! A scheduled run of a typed program.
ghost use Rattle.std.specs.Prelude.{◌≡◌, length, IfOk};
ghost use Rattle.st_events.specs.Sizes.{AreWithinLimits};
ghost use Rattle.st_resolved.specs.Views.{program_of};
ghost use Rattle.st_run_meaning.specs.Runs.{scheduled_run};
ghost use Rattle.st_thread_meaning.specs.Right.{IsRightRun};

use crate::runs::run_resolved;
use st_events::{NoMemory, Ran, Sizes};
use st_types::Typed;
use std::alloc::Global;

/// Runs a typed program on one thread, to its end: its threads and its checks take turns as the seed says. Want of memory is answered
/// at the opening alone; after that no memory is taken.
pub fn run_scheduled(
    alloc: Global,
    typed: &Typed,
    sizes: &Sizes,
    seed: u64,
) -> Result<Ran, NoMemory>
    requires sizes { AreWithinLimits sizes.now }
    requires threads { sizes.now.mutators ≡ length (program_of typed.now.resolved).threads }
    ensures run { IfOk result (λ ran. ran ≡ scheduled_run typed.now.shape (program_of typed.now.resolved) sizes.now seed) }
    ensures right { IfOk result (λ ran. IsRightRun typed.now.shape (program_of typed.now.resolved) sizes.now ran) }
{
    run_resolved(alloc, typed.shape(), typed.resolved(), sizes, seed)
}
