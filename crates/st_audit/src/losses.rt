//! Which checks that claim to be abandoned have lost the version that they name. A ledger says when the pool is full; the versions that a change
//! loses then are those that active checks need.
ghost use Rattle.std.specs.Prelude.{◌≡◌, ◌≢◌, ◌+◌, ◌<◌, ◌^◌, ℕ, nat_lt, length, map, filter, List, Some, IfOk, IfSome, IfNone, slice_get, ◌++◌, ◌∷◌, []};
ghost use Rattle.st_events.specs.declared.limits.Sizes.{Sizes};
ghost use Rattle.st_events.specs.Terms.{ShapeLists, World, next, Pair, IsLegal, lost_pairs, IsWithinLimits, AreWithinLimits};
ghost use Rattle.st_events.specs.declared.verdicts.Verdict.TheVariants.{Abandoned};
ghost use Rattle.st_audit.specs.Balance.{IsLedgerOf};
ghost use Rattle.st_audit.specs.Ledgers.{changed_by};
ghost use Rattle.st_audit.specs.Marks.{AreMarks};

use crate::ledgers::Ledger;
use st_events::{Event, NoMemory, Shape, Sizes, Verdict};
use std::alloc::Global;

/// A mark for each verdict: whether it claims a version that is lost.
pub(crate) fn marks_of(
    alloc: Global,
    shape: &Shape,
    sizes: &Sizes,
    events: &[Event],
    verdicts: &[Verdict],
) -> Result<Vec<bool>, NoMemory>
    requires shape { IsWithinLimits shape.now }
    requires sizes { AreWithinLimits sizes.now }
    requires events { length events.now < 2 ^ 32 }
    requires legal { IsLegal shape.now sizes.now events.now }
    ensures { IfOk result (λ marks. AreMarks verdicts.now (lost_pairs shape.now sizes.now events.now) marks.items) }
{
    let mut marks = vec![in alloc; false; verdicts.len()]?;
    let mut ledger = Ledger::start(alloc, sizes)?;
    for event in events {
        mark_losses(&mut marks, verdicts, &ledger, *event);
        ledger.note(*event)?;
    }
    Ok(marks)
}

/// Marks the checks that lose a version by the event, where they claim so.
fn mark_losses(marks: &mut Vec<bool>, verdicts: &[Verdict], ledger: &Ledger, event: Event)
    requires { length marks.old.items ≡ length verdicts.now }
    ensures marks { (shape : ShapeLists) (sizes : Sizes) (w : World) (objects : ℕ) → IsLedgerOf sizes ledger.now w objects → AreMarks verdicts.now w.lost marks.old.items → AreMarks verdicts.now (next shape sizes w event).lost marks.new.items }
    ensures count { length marks.new.items ≡ length verdicts.now }
{
    let obj = match changed_by(event) {
        Some(obj) => obj,
        None => return,
    };
    if !ledger.is_full() {
        return;
    }
    mark(marks, verdicts, ledger.active(), ledger.stamp(obj), obj);
}

/// The object that the event changes, if it changes one.
fn changed_by(event: Event) -> Option<u32>
    ensures { result ≡ changed_by event }
{
    match event {
        Event::Store { obj, .. } => Some(obj),
        Event::Cas { obj, done, .. } => { if done { Some(obj) } else { None } }
        _ => None,
    }
}

/// Marks the checks that lose the old version of an object, where they claim so: the active ones above its stamp.
fn mark(marks: &mut Vec<bool>, verdicts: &[Verdict], active: &[u32], stamp: u32, obj: u32)
    requires { length marks.old.items ≡ length verdicts.now }
    ensures marks { (pairs : List Pair) → AreMarks verdicts.now pairs marks.old.items → AreMarks verdicts.now (pairs ++ map (λ n. record { obj = obj; check = n }) (filter (λ n. nat_lt stamp n) active.now)) marks.new.items }
    ensures count { length marks.new.items ≡ length verdicts.now }
{
    for number in active {
        if *number <= stamp {
            continue;
        }
        mark_one(marks, verdicts, *number, obj);
    }
}

/// Marks the check, where it claims the object.
fn mark_one(marks: &mut Vec<bool>, verdicts: &[Verdict], number: u32, obj: u32)
    requires { length marks.old.items ≡ length verdicts.now }
    ensures marks { (pairs : List Pair) → AreMarks verdicts.now pairs marks.old.items → AreMarks verdicts.now (pairs ++ (record { obj = obj; check = number }) ∷ []) marks.new.items }
    ensures count { length marks.new.items ≡ length verdicts.now }
{
    match claim_of(verdicts, number, obj) {
        Some(index) => marks[index] = true,
        None => {}
    }
}

/// The index of the check's verdict, where it claims the object.
fn claim_of(verdicts: &[Verdict], number: u32, obj: u32) -> Option<usize>
    ensures claims { IfSome result (λ index. (number ≡ index + 1) × (slice_get verdicts.now index ≡ Some (Abandoned obj))) }
    ensures none { IfNone result ((index : ℕ) → number ≡ index + 1 → slice_get verdicts.now index ≢ Some (Abandoned obj)) }
{
    if number == 0 {
        return None;
    }
    let index = (number - 1) as usize;
    match verdicts.get(index) {
        Some(Verdict::Abandoned { obj: claimed }) => {
            if *claimed == obj { Some(index) } else { None }
        }
        _ => None,
    }
}
