//! The audit of a journal: the first finding.
ghost use Rattle.std.specs.Prelude.{◌≡◌, ◌<◌, ◌^◌, length, Err, OnOk, IfOk};
ghost use Rattle.st_events.specs.Terms.{AreWithinLimits, IsWithinLimits};
ghost use Rattle.st_resolved.specs.Views.{program_of};
ghost use Rattle.st_resolved.specs.WellFormed.{IsWellFormed};
ghost use Rattle.st_audit.specs.declared.findings.Finding.{Finding};
ghost use Rattle.st_audit.specs.declared.findings.Finding.TheVariants.{Memory};
ghost use Rattle.st_audit.specs.Findings.{IsRightJournal, IsFinding, AreReplayed};

use crate::counts::{count_launches, other_count};
use crate::findings::Finding;
use crate::losses::marks_of;
use crate::strays::{Stray, first_stray};
use crate::verdicts::{Wrong, first_wrong};
use st_events::{Event, NoMemory, ReplayError, Shape, Sizes, Verdict, replay};
use st_resolved::Resolved;
use st_types::Typed;
use std::alloc::Global;

/// Whether the journal and its verdicts are right for the program: Ok exactly where they are, else the first finding. `Memory` may come wherever
/// memory is refused.
pub fn audit_program(
    alloc: Global,
    shape: &Shape,
    program: &Resolved,
    sizes: &Sizes,
    events: &[Event],
    verdicts: &[Verdict],
) -> Result<(), Finding>
    requires well_formed { IsWellFormed shape.now (program_of program.now) }
    requires sizes { AreWithinLimits sizes.now }
    requires events { length events.now < 2 ^ 32 }
    requires verdicts { length verdicts.now < 2 ^ 32 }
    ensures ok { OnOk result (IsRightJournal shape.now (program_of program.now) sizes.now events.now verdicts.now) }
    ensures found { (f : Finding) → result ≡ Err f → IsFinding shape.now (program_of program.now) sizes.now events.now verdicts.now f }
    // So Ok comes exactly where all is right, but for want of memory.
    ensures right { IsRightJournal shape.now (program_of program.now) sizes.now events.now verdicts.now → (f : Finding) → result ≡ Err f → f ≡ Memory }
{
    first_finding(alloc, shape, program, sizes, events, verdicts)
}

/// The same of a typed program, with its shape.
pub fn audit(
    alloc: Global,
    typed: &Typed,
    sizes: &Sizes,
    events: &[Event],
    verdicts: &[Verdict],
) -> Result<(), Finding>
    requires sizes { AreWithinLimits sizes.now }
    requires events { length events.now < 2 ^ 32 }
    requires verdicts { length verdicts.now < 2 ^ 32 }
    ensures ok { OnOk result (IsRightJournal typed.now.shape (program_of typed.now.resolved) sizes.now events.now verdicts.now) }
    ensures found { (f : Finding) → result ≡ Err f → IsFinding typed.now.shape (program_of typed.now.resolved) sizes.now events.now verdicts.now f }
    ensures right { IsRightJournal typed.now.shape (program_of typed.now.resolved) sizes.now events.now verdicts.now → (f : Finding) → result ≡ Err f → f ≡ Memory }
{
    let shape = typed.shape();
    let program = typed.resolved();
    audit_program(alloc, shape, program, sizes, events, verdicts)
}

/// The first finding.
fn first_finding(
    alloc: Global,
    shape: &Shape,
    program: &Resolved,
    sizes: &Sizes,
    events: &[Event],
    verdicts: &[Verdict],
) -> Result<(), Finding>
    requires well_formed { IsWellFormed shape.now (program_of program.now) }
    requires sizes { AreWithinLimits sizes.now }
    requires events { length events.now < 2 ^ 32 }
    requires verdicts { length verdicts.now < 2 ^ 32 }
    ensures ok { OnOk result (IsRightJournal shape.now (program_of program.now) sizes.now events.now verdicts.now) }
    ensures found { (f : Finding) → result ≡ Err f → IsFinding shape.now (program_of program.now) sizes.now events.now verdicts.now f }
{
    if program.threads.len() != usize::from(sizes.mutators) {
        return Err(Finding::WrongSizes);
    }
    match first_illegal(alloc, shape, sizes, events)? {
        Some(place) => return Err(Finding::NotLegal { place }),
        None => {}
    }
    match first_stray(alloc, program, sizes, events)? {
        Some(Stray { thread, event }) => return Err(Finding::NotTrace { thread, event }),
        None => {}
    }
    match other_count(count_launches(events), verdicts.len() as u32) {
        Some(other) => {
            return Err(Finding::VerdictCount {
                launches: other.launches,
                verdicts: other.verdicts,
            });
        }
        None => {}
    }
    let marks = marks_of(alloc, shape, sizes, events, verdicts)?;
    match first_wrong(alloc, shape, program, sizes, events, verdicts, &marks)? {
        Some(Wrong { number, plain }) => Err(Finding::WrongVerdict { number, plain }),
        None => Ok(()),
    }
}

/// The place of the first event that is not legal.
fn first_illegal(
    alloc: Global,
    shape: &Shape,
    sizes: &Sizes,
    events: &[Event],
) -> Result<Option<u32>, NoMemory>
    requires shape { IsWithinLimits shape.now }
    requires sizes { AreWithinLimits sizes.now }
    requires events { length events.now < 2 ^ 32 }
    ensures { IfOk result (AreReplayed shape.now sizes.now events.now) }
{
    match replay(alloc, shape, sizes, events) {
        Ok(_) => Ok(None),
        Err(ReplayError::NotLegal { place, .. }) => Ok(Some(place)),
        Err(ReplayError::Memory) => Err(NoMemory),
    }
}
