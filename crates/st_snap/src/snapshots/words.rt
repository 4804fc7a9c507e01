//! The calls of mutators on the live heap: each is one event of the journal, and no check's lane changes.
ghost use Rattle.std.specs.Prelude.{◌≡◌, ◌<◌, ◌≤◌, ◌↔◌, length, Some, IsTrue};
ghost use Rattle.st_snap.specs.Terms.{word_at, next_object, Event};
ghost use Rattle.st_snap.specs.Snapshots.{world_of, heap_now, lanes_now, IsLegalHeap, with_event, HasSpare, has_kind_of, HasCell};

use super::{SnapHeap, append};
use st_events::Event;

impl SnapHeap {
    /// Mutator `m` makes the next object of its region, with all fields 0. The answer is the object's number.
    pub fn new(&mut self, m: u8, class: u8) -> u32
        requires thread { m < self.old.sizes.mutators }
        requires class { 1 ≤ class }
        requires declared { class < length self.old.shape.classes }
        requires room { (world_of self.old).made m < self.old.sizes.objects }
        requires spare { HasSpare self.old }
        ensures next { result ≡ next_object self.old.sizes (world_of self.old) m }
        ensures event { self.new ≡ with_event self.old (Event.New m result class) }
        ensures legal { IsLegalHeap self.new }
        ensures lanes { lanes_now self.new ≡ lanes_now self.old }
    {
        let obj = self
            .table
            .make_object(&self.shape, self.sizes.objects, m, class);
        append(&mut self.journal, Event::New { m, obj, class });
        obj
    }

    /// The word of the live heap.
    pub fn load(&mut self, m: u8, obj: u32, field: u8) -> u64
        requires thread { m < self.old.sizes.mutators }
        requires cell { HasCell self.old obj field }
        requires spare { HasSpare self.old }
        ensures word { word_at (heap_now self.old) obj field ≡ Some result }
        ensures event { self.new ≡ with_event self.old (Event.Load m obj field result) }
        ensures legal { IsLegalHeap self.new }
        ensures lanes { lanes_now self.new ≡ lanes_now self.old }
    {
        let value = self.table.load(obj, field);
        append(
            &mut self.journal,
            Event::Load {
                m,
                obj,
                field,
                value,
            },
        );
        value
    }

    /// Writes a word of the live heap.
    pub fn store(&mut self, m: u8, obj: u32, field: u8, value: u64)
        requires thread { m < self.old.sizes.mutators }
        requires cell { HasCell self.old obj field }
        requires kind { IsTrue (has_kind_of self.old obj field value) }
        requires spare { HasSpare self.old }
        ensures event { self.new ≡ with_event self.old (Event.Store m obj field value) }
        ensures legal { IsLegalHeap self.new }
        ensures lanes { lanes_now self.new ≡ lanes_now self.old }
    {
        self.table.change(obj, field, value);
        append(
            &mut self.journal,
            Event::Store {
                m,
                obj,
                field,
                value,
            },
        );
    }

    /// Writes `value` exactly where the word of the live heap is `expect`, and answers whether it was.
    pub fn cas(&mut self, m: u8, obj: u32, field: u8, expect: u64, value: u64) -> bool
        requires thread { m < self.old.sizes.mutators }
        requires cell { HasCell self.old obj field }
        requires expect { IsTrue (has_kind_of self.old obj field expect) }
        requires kind { IsTrue (has_kind_of self.old obj field value) }
        requires spare { HasSpare self.old }
        ensures done { IsTrue result ↔ (word_at (heap_now self.old) obj field ≡ Some expect) }
        ensures event { self.new ≡ with_event self.old (Event.Cas m obj field expect value result) }
        ensures legal { IsLegalHeap self.new }
        ensures lanes { lanes_now self.new ≡ lanes_now self.old }
    {
        let done = self.table.change_where(obj, field, expect, value);
        append(
            &mut self.journal,
            Event::Cas {
                m,
                obj,
                field,
                expect,
                value,
                done,
            },
        );
        done
    }
}
