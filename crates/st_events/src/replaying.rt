//! The state of a replay: what the events so far say, as far as the legality of the next one asks for it.
ghost use Rattle.std.specs.Prelude.{◌≡◌, ◌≢◌, ◌==◌, ◌+◌, ◌^◌, ◌<◌, length, ◌≤◌, IfOk, IfSome, IfNone, OnOk, None, slice_index, EachIndex};
ghost use Rattle.st_events.specs.Legal.{next_object};
ghost use Rattle.st_events.specs.Seen.{seen, HasRoom, LooksAlike, reason_of};
ghost use Rattle.st_events.specs.Shape.{IsWithinLimits};
ghost use Rattle.st_events.specs.Sizes.{AreWithinLimits};
ghost use Rattle.st_events.specs.World.{next, first_world, is_among, without};
ghost use Rattle.st_events.specs.declared.events.Event.TheVariants.{New};

mod fitting;
mod legality;

use crate::errors::NoMemory;
use crate::events::Event;
use crate::heaps::{FIRST_OF_REGIONS, HeapMap};
use crate::limits::Sizes;
use crate::shapes::Shape;
use std::alloc::Global;

/// What the events so far say.
#[derive(Drop)]
pub(crate) struct Replay<'a> {
    shape: &'a Shape,
    sizes: &'a Sizes,
    /// The heap so far.
    heap: HeapMap,
    /// How many objects each mutator has made.
    made: Vec<u32>,
    /// How many checks were launched.
    launches: u32,
    /// The numbers of the active checks, in the order of their launches.
    active: Vec<u32>,
}

impl<'a> Replay<'a> {
    /// Before the first event.
    pub(crate) fn start(
        alloc: Global,
        shape: &'a Shape,
        sizes: &'a Sizes,
    ) -> Result<Replay<'a>, NoMemory>
        requires shape { IsWithinLimits shape.now }
        requires sizes { AreWithinLimits sizes.now }
        ensures first { IfOk result (λ r. LooksAlike (seen r) (first_world shape.now)) }
        ensures room { IfOk result HasRoom }
        ensures shape { IfOk result (λ r. r.shape.now ≡ shape.now) }
        ensures sizes { IfOk result (λ r. r.sizes.now ≡ sizes.now) }
    {
        Ok(Replay {
            shape,
            sizes,
            heap: HeapMap::make(alloc, shape, sizes)?,
            made: vec![in alloc; 0; sizes.mutators as usize]?,
            launches: 0,
            active: Vec::new(alloc),
        })
    }

    /// How many objects the mutator has made.
    fn made_by(&self, m: u8) -> u32
        ensures { result ≡ (seen self.now).made m }
    {
        match self.made.get(m as usize) {
            Some(count) => *count,
            None => 0,
        }
    }

    /// Whether the object is the next of the mutator's region.
    fn is_next(&self, m: u8, obj: u32) -> bool
        ensures { result ≡ (obj == next_object self.now.sizes.now (seen self.now) m) }
    {
        let first = FIRST_OF_REGIONS as u64 + u64::from(m) * u64::from(self.sizes.objects);
        u64::from(obj) == first + u64::from(self.made_by(m))
    }

    /// Whether the number is that of the next check.
    fn is_next_number(&self, number: u32) -> bool
        ensures { result ≡ (number == (seen self.now).epoch + 1) }
    {
        u64::from(number) == u64::from(self.launches) + 1
    }

    /// Whether the check is active.
    fn is_active(&self, number: u32) -> bool
        ensures { result ≡ is_among self.now.active.items number }
    {
        self.active.iter().any(|n| *n == number)
    }

    /// Takes in an event that is legal now.
    pub(crate) fn apply(&mut self, event: Event) -> Result<(), NoMemory>
        requires legal { reason_of self.old event ≡ None }
        requires room { HasRoom self.old }
        requires shape { IsWithinLimits self.old.shape.now }
        requires sizes { AreWithinLimits self.old.sizes.now }
        requires launches { self.old.launches + 1 < 2 ^ 32 }
        ensures next { OnOk result (LooksAlike (seen self.new) (next self.old.shape.now self.old.sizes.now (seen self.old) event)) }
        ensures room { OnOk result (HasRoom self.new) }
        ensures shape { self.new.shape.now ≡ self.old.shape.now }
        ensures sizes { self.new.sizes.now ≡ self.old.sizes.now }
        ensures launches { self.new.launches ≤ self.old.launches + 1 }
    {
        match event {
            Event::New { m, obj, class } => self.make(m, obj, class),
            Event::Load { .. } => {}
            Event::Store {
                obj,
                field,
                value,
                ..
            } => self.heap.set(obj, field, value),
            Event::Cas {
                obj,
                field,
                value,
                done,
                ..
            } => {
                if done {
                    self.heap.set(obj, field, value);
                }
            }
            Event::Launch { number, .. } => {
                self.active.push(number)?;
                self.launches += 1;
            }
            Event::Retire { number, .. } => drop_number(&mut self.active, number),
        }
        Ok(())
    }

    /// Makes an object that is the next of the mutator's region.
    fn make(&mut self, m: u8, obj: u32, class: u8)
        requires legal { reason_of self.old (New m obj class) ≡ None }
        requires room { HasRoom self.old }
        requires shape { IsWithinLimits self.old.shape.now }
        requires sizes { AreWithinLimits self.old.sizes.now }
        ensures next { LooksAlike (seen self.new) (next self.old.shape.now self.old.sizes.now (seen self.old) (New m obj class)) }
        ensures room { HasRoom self.new }
        ensures shape { self.new.shape.now ≡ self.old.shape.now }
        ensures sizes { self.new.sizes.now ≡ self.old.sizes.now }
        ensures launches { self.new.launches ≡ self.old.launches }
    {
        self.heap.put_new(self.shape, obj, class);
        self.made[m as usize] += 1;
    }

    /// The heap so far.
    pub(crate) fn into_heap(self) -> HeapMap
        ensures { result ≡ self.entry.heap }
    {
        let Replay {
            shape: _,
            sizes: _,
            heap,
            made: _,
            launches: _,
            active: _,
        } = self;
        heap
    }
}

/// A place of the number in the list, if it stands there.
fn place_of(numbers: &[u32], number: u32) -> Option<usize>
    ensures there { IfSome result (λ place. (place < length numbers.now) × (slice_index numbers.now place ≡ number)) }
    ensures none { IfNone result (EachIndex numbers.now (λ k. slice_index numbers.now k ≢ number)) }
{
    numbers.iter().position(|n| *n == number)
}

/// Takes a number out of a list.
fn drop_number(numbers: &mut Vec<u32>, number: u32)
    ensures { numbers.new.items ≡ without number numbers.old.items }
{
    while let Some(place) = place_of(numbers, number) {
        numbers.remove(place);
    }
}
