//! What a thread asks of the heap is done, and answered.
ghost use Rattle.std.specs.Prelude.{◌≡◌, ◌<◌, ℕ};
ghost use Rattle.st_events.specs.declared.limits.Sizes.{Sizes};
ghost use Rattle.st_snap.specs.Snapshots.{with_event, lanes_now, HasSpare};
ghost use Rattle.st_sched.specs.Answering.{event_of_want, reply_to, IsPlainWant, CanAnswer};

use st_mutator::Want;
use st_snap::SnapHeap;

/// Does what thread `m` asks for, which is no launch, and gives the reply.
pub(crate) fn answer(heap: &mut SnapHeap, m: u8, want: Want) -> u64
    requires plain { IsPlainWant want }
    requires legal { CanAnswer heap.old m want }
    requires spare { HasSpare heap.old }
    ensures event { heap.new ≡ with_event heap.old (event_of_want heap.old m want) }
    ensures reply { result ≡ reply_to heap.old m want }
    ensures lanes { lanes_now heap.new ≡ lanes_now heap.old }
{
    match want {
        Want::New { class } => u64::from(heap.new(m, class)),
        Want::Load { obj, field } => heap.load(m, obj, field),
        Want::Store { obj, field, value } => {
            heap.store(m, obj, field, value);
            0
        }
        Want::Cas {
            obj,
            field,
            expect,
            value,
        } => u64::from(heap.cas(m, obj, field, expect, value)),
        Want::Launch { .. } => unreachable!(),
        Want::End(_) => unreachable!(),
    }
}
