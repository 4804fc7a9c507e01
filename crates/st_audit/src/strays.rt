//! Which thread's own events are not what its code does: the least.
ghost use Rattle.std.specs.Prelude.{◌≡◌, ◌<◌, ◌^◌, length, All, IfOk};
ghost use Rattle.std.specs.Option.{option_or};
ghost use Rattle.st_events.specs.Terms.{AreWithinLimits};
ghost use Rattle.st_resolved.specs.Views.{program_of};
ghost use Rattle.st_mutator.specs.Mutators.{HasFewLocals};
ghost use Rattle.st_audit.specs.Differences.{NamesSmall};
ghost use Rattle.st_audit.specs.Findings.{AreCompared, IsComparedAlone};

use crate::differences::first_difference;
use st_events::{Event, NoMemory, Sizes};
use st_resolved::Resolved;
use std::alloc::Global;

/// A thread whose own events are not what its code does.
#[derive(Clone, Copy, Debug)]
pub(crate) struct Stray {
    pub(crate) thread: u8,
    /// The number of its first own event that differs, from 1.
    pub(crate) event: u32,
}

/// The least thread whose own events are not what its code does.
pub(crate) fn first_stray(
    alloc: Global,
    program: &Resolved,
    sizes: &Sizes,
    events: &[Event],
) -> Result<Option<Stray>, NoMemory>
    requires threads { sizes.now.mutators ≡ length (program_of program.now).threads }
    requires few { HasFewLocals (program_of program.now) }
    requires sizes { AreWithinLimits sizes.now }
    requires events { length events.now < 2 ^ 32 }
    requires small { All NamesSmall events.now }
    ensures { IfOk result (AreCompared (program_of program.now) sizes.now events.now) }
{
    let mut found = None;
    for thread in 0..sizes.mutators {
        let stray = stray_of(alloc, program, sizes, thread, events)?;
        found = first_of(found, stray);
    }
    Ok(found)
}

/// The thread, where its own events are not what its code does.
fn stray_of(
    alloc: Global,
    program: &Resolved,
    sizes: &Sizes,
    thread: u8,
    events: &[Event],
) -> Result<Option<Stray>, NoMemory>
    requires few { HasFewLocals (program_of program.now) }
    requires sizes { AreWithinLimits sizes.now }
    requires events { length events.now < 2 ^ 32 }
    requires small { All NamesSmall events.now }
    ensures { IfOk result (IsComparedAlone (program_of program.now) sizes.now thread events.now) }
{
    match first_difference(alloc, program, sizes, thread, events)? {
        Some(event) => Ok(Some(Stray { thread, event })),
        None => Ok(None),
    }
}

/// The stray that was found before, else the next.
fn first_of(found: Option<Stray>, next: Option<Stray>) -> Option<Stray>
    ensures { result ≡ option_or found next }
{
    found.or(next)
}
