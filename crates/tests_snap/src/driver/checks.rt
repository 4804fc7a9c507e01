//! The calls of checks: a launch puts a check at the end of the list, a retire takes the one at a place out of it.
ghost use Rattle.std.specs.Prelude.{◌≡◌, ◌↔◌, ◌<◌, Some, length, slice_index_or, IfOk, IfErr, OnErr, IsOk, IsErr, IsTrue};
ghost use Rattle.std.specs.List.{remove};
ghost use Rattle.st_snap.specs.Snapshots.{word_at_launch, is_lost_for};
ghost use Rattle.tests_snap.specs.Drive.{object_at, check_at, with_retire, Launches, IsRefusedUnless, CanLaunch, CanRead, CanRetire};

use super::{Driven, Failed, NO_ARGS, Refused, known_at};
use st_events::Lost;
use st_snap::Lane;

impl Driven {
    /// The number of the launched check; None where every lane is active.
    pub fn launch(&mut self, m: u8) -> Result<Option<u32>, Failed>
        ensures refused { IsRefusedUnless (CanLaunch self.old m) result }
        ensures err { OnErr result (self.new ≡ self.old) }
        ensures launched { IfOk result (λ number. Launches self.old self.new m number) }
    {
        if m >= self.sizes.mutators {
            return Err(Failed::Refused);
        }
        if self.heap.spare() == 0 {
            return Err(Failed::Refused);
        }
        // Room for the check comes first: where it is wanting, the heap is as before.
        if self.checks.reserve(1).is_err() {
            return Err(Failed::NoMemory);
        }
        let lane = match self.heap.launch(m, 0, NO_ARGS) {
            Ok(lane) => lane,
            Err(_) => return Ok(None),
        };
        let number = lane.number();
        self.checks.push_reserved(lane);
        Ok(Some(number))
    }

    /// The word of the heap at the check's launch, unless that version was lost.
    pub fn read(&self, check: usize, object: usize, field: u8) -> Result<Result<u64, Lost>, Refused>
        ensures asked { IsOk result ↔ CanRead self.now check object field }
        ensures word { IfOk result (λ read. IfOk read (λ word. word_at_launch self.now.heap (check_at self.now check) (object_at self.now object) field ≡ Some word)) }
        ensures lost { IfOk result (λ read. IsErr read ↔ IsTrue (is_lost_for self.now.heap (object_at self.now object) (check_at self.now check))) }
        ensures object { IfOk result (λ read. IfErr read (λ lost. lost.obj ≡ object_at self.now object)) }
    {
        if check >= self.checks.len() {
            return Err(Refused);
        }
        if object >= self.objects.len() {
            return Err(Refused);
        }
        let (obj, fields) = known_at(self.objects.as_slice(), object);
        if field >= fields {
            return Err(Refused);
        }
        Ok(self.heap.read(&self.checks[check], obj, field))
    }

    /// Retires a check; those that came after it move up.
    pub fn retire(&mut self, m: u8, check: usize) -> Result<(), Refused>
        ensures asked { IsOk result ↔ CanRetire self.old m check }
        ensures err { OnErr result (self.new ≡ self.old) }
        ensures event { IfOk result (λ _. self.new ≡ with_retire self.old m check) }
    {
        if m > self.sizes.mutators {
            return Err(Refused);
        }
        if check >= self.checks.len() {
            return Err(Refused);
        }
        if self.heap.spare() == 0 {
            return Err(Refused);
        }
        let lane = take_check(&mut self.checks, check);
        self.heap.retire(m, lane);
        Ok(())
    }
}

/// Takes the check at a place out of the list.
fn take_check(checks: &mut Vec<Lane>, place: usize) -> Lane
    requires { place < length checks.old.items }
    ensures lane { result ≡ slice_index_or checks.old.items place (record { number = 0; index = 0 }) }
    ensures others { checks.new.items ≡ remove checks.old.items place }
{
    checks.remove(place)
}
