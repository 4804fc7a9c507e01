//! The calls of mutators: each is one event on the object that stands at a place of the list.
ghost use Rattle.std.specs.Prelude.{◌≡◌, ◌↔◌, Some, IfOk, OnErr, IsOk, IsTrue};
ghost use Rattle.st_events.specs.declared.events.Event.{Event};
ghost use Rattle.st_events.specs.Heap.{word_at};
ghost use Rattle.st_events.specs.Legal.{next_object};
ghost use Rattle.st_snap.specs.Snapshots.{world_of, heap_now};
ghost use Rattle.tests_snap.specs.Drive.{object_at, with_act, with_new, IsRefusedUnless, CanAct, CanNew};

use super::{Driven, Failed, Refused};

impl Driven {
    /// Makes an object where no check is active, and answers its number.
    pub fn new(&mut self, m: u8) -> Result<u32, Failed>
        ensures refused { IsRefusedUnless (CanNew self.old m) result }
        ensures err { OnErr result (self.new ≡ self.old) }
        ensures next { IfOk result (λ obj. obj ≡ next_object self.old.heap.sizes (world_of self.old.heap) m) }
        ensures event { IfOk result (λ obj. self.new ≡ with_new self.old m obj) }
    {
        if m >= self.sizes.mutators {
            return Err(Failed::Refused);
        }
        if self.heap.spare() == 0 {
            return Err(Failed::Refused);
        }
        if self.heap.room(m) == 0 {
            return Err(Failed::Refused);
        }
        if !self.checks.is_empty() {
            return Err(Failed::Refused);
        }
        // Room for the object comes first: where it is wanting, the heap is as before.
        if self.objects.reserve(1).is_err() {
            return Err(Failed::NoMemory);
        }
        let obj = self.heap.new(m, 1);
        self.objects.push_reserved((obj, self.width));
        Ok(obj)
    }

    /// The word of the live heap.
    pub fn load(&mut self, m: u8, object: usize, field: u8) -> Result<u64, Refused>
        ensures asked { IsOk result ↔ CanAct self.old m object field }
        ensures err { OnErr result (self.new ≡ self.old) }
        ensures word { IfOk result (λ word. word_at (heap_now self.old.heap) (object_at self.old object) field ≡ Some word) }
        ensures event { IfOk result (λ word. self.new ≡ with_act self.old (Event.Load m (object_at self.old object) field word)) }
    {
        let obj = self.cell(m, object, field)?;
        Ok(self.heap.load(m, obj, field))
    }

    /// Writes a word of the live heap.
    pub fn store(&mut self, m: u8, object: usize, field: u8, value: u64) -> Result<(), Refused>
        ensures asked { IsOk result ↔ CanAct self.old m object field }
        ensures err { OnErr result (self.new ≡ self.old) }
        ensures event { IfOk result (λ _. self.new ≡ with_act self.old (Event.Store m (object_at self.old object) field value)) }
    {
        let obj = self.cell(m, object, field)?;
        self.heap.store(m, obj, field, value);
        Ok(())
    }

    /// Writes `value` exactly where the word of the live heap is `expect`, and answers whether it was.
    pub fn cas(
        &mut self,
        m: u8,
        object: usize,
        field: u8,
        expect: u64,
        value: u64,
    ) -> Result<bool, Refused>
        ensures asked { IsOk result ↔ CanAct self.old m object field }
        ensures err { OnErr result (self.new ≡ self.old) }
        ensures done { IfOk result (λ done. IsTrue done ↔ (word_at (heap_now self.old.heap) (object_at self.old object) field ≡ Some expect)) }
        ensures event { IfOk result (λ done. self.new ≡ with_act self.old (Event.Cas m (object_at self.old object) field expect value done)) }
    {
        let obj = self.cell(m, object, field)?;
        Ok(self.heap.cas(m, obj, field, expect, value))
    }
}
