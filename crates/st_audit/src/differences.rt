//! A thread's own events beside what its code does: the first that differs.
ghost use Rattle.std.specs.Prelude.{◌≡◌, ◌<◌, ◌^◌, true, false, length, All, IfOk};
ghost use Rattle.st_events.specs.History.{is_own};
ghost use Rattle.st_events.specs.Sizes.{AreWithinLimits};
ghost use Rattle.st_resolved.specs.Views.{program_of};
ghost use Rattle.st_thread_meaning.specs.Threads.{reply_of, IsAnswerTo};
ghost use Rattle.st_mutator.specs.Mutators.{HasFewLocals, turn_of_want};
ghost use Rattle.st_audit.specs.Differences.{NamesSmall, IsCompared, asked_by, is_end};

use st_events::{Event, NoMemory, Sizes};
use st_mutator::{Mutator, Want};
use st_resolved::Resolved;
use std::alloc::Global;

/// The number, from 1, of the first own event of thread `m` that is not what its code does; one more than it has where the next is missing. None
/// where its own events follow its code to its end.
pub(crate) fn first_difference(
    alloc: Global,
    program: &Resolved,
    sizes: &Sizes,
    m: u8,
    events: &[Event],
) -> Result<Option<u32>, NoMemory>
    requires few { HasFewLocals (program_of program.now) }
    requires sizes { AreWithinLimits sizes.now }
    requires events { length events.now < 2 ^ 32 }
    requires small { All NamesSmall events.now }
    ensures { IfOk result (IsCompared (program_of program.now) sizes.now m events.now) }
{
    let mut thread = Mutator::make(alloc, program, m, sizes.objects, sizes.events)?;
    let mut want = thread.next(0);
    let mut count = 0;
    for event in events {
        if !is_own(*event, m) {
            continue;
        }
        if !answers(*event, want) {
            return Ok(Some(count + 1));
        }
        want = thread.next(reply_of(*event));
        count += 1;
    }
    if has_ended(want) {
        Ok(None)
    } else {
        Ok(Some(count + 1))
    }
}

/// Whether the thread has ended.
fn has_ended(want: Want) -> bool
    ensures { result ≡ is_end (turn_of_want want) }
{
    match want {
        Want::End(_) => true,
        _ => false,
    }
}

/// Whether it is an own event of the thread.
fn is_own(event: Event, thread: u8) -> bool
    ensures { result ≡ is_own thread event }
{
    match event {
        Event::New { m, .. } => m == thread,
        Event::Load { m, .. } => m == thread,
        Event::Store { m, .. } => m == thread,
        Event::Cas { m, .. } => m == thread,
        Event::Launch { m, .. } => m == thread,
        Event::Retire { .. } => false,
    }
}

/// The reply that the thread has from its event.
fn reply_of(event: Event) -> u64
    ensures { result ≡ reply_of event }
{
    match event {
        Event::New { obj, .. } => u64::from(obj),
        Event::Load { value, .. } => value,
        Event::Store { .. } => 0,
        Event::Cas { done, .. } => u64::from(done),
        Event::Launch { .. } => 0,
        Event::Retire { .. } => 0,
    }
}

/// What the event answers, if it answers anything.
fn asked_by(event: Event) -> Option<Want>
    ensures { result ≡ asked_by event }
{
    match event {
        Event::New { class, .. } => Some(Want::New { class }),
        Event::Load { obj, field, .. } => Some(Want::Load { obj, field }),
        Event::Store {
            obj,
            field,
            value,
            ..
        } => Some(Want::Store { obj, field, value }),
        Event::Cas {
            obj,
            field,
            expect,
            value,
            ..
        } => Some(Want::Cas {
            obj,
            field,
            expect,
            value,
        }),
        Event::Launch { site, args, .. } => Some(Want::Launch { site, args }),
        Event::Retire { .. } => None,
    }
}

/// Whether the event answers what the thread asks for.
fn answers(event: Event, want: Want) -> bool
    ensures right { result ≡ true → IsAnswerTo event (turn_of_want want) }
    ensures other { result ≡ false → ¬ IsAnswerTo event (turn_of_want want) }
{
    match asked_by(event) {
        Some(asked) => asked == want,
        None => false,
    }
}
