//! A heap in memory takes in one event after another.
ghost use Rattle.std.specs.Prelude.{◌≡◌, length};
ghost use Rattle.st_events.specs.Heap.{heap_of};
ghost use Rattle.st_events.specs.Shape.{IsWithinLimits};
ghost use Rattle.st_audit.specs.Heaps.{CanTake, heap_next};

use st_events::{Event, HeapMap, Shape};

/// The heap after one event more.
pub(crate) fn take_in(heap: &mut HeapMap, shape: &Shape, event: Event)
    requires shape { IsWithinLimits shape.now }
    requires can { CanTake (length heap.old) (heap_of heap.old) event }
    ensures heap { heap_of heap.new ≡ heap_next shape.now (heap_of heap.old) event }
    ensures room { length heap.new ≡ length heap.old }
{
    match event {
        Event::New { obj, class, .. } => heap.put_new(shape, obj, class),
        Event::Load { .. } => {}
        Event::Store {
            obj,
            field,
            value,
            ..
        } => heap.set(obj, field, value),
        Event::Cas {
            obj,
            field,
            value,
            done,
            ..
        } => {
            if done {
                heap.set(obj, field, value);
            }
        }
        Event::Launch { .. } => {}
        Event::Retire { .. } => {}
    }
}
