//! How a mutator comes to hold an object, and what it reads of it then.
ghost use Rattle.std.specs.Prelude.{◌≡◌, ◌≢◌, ◌+◌, ◌<◌, [], ◌∷◌, IsSome};
ghost use Rattle.st_layout.specs.declared.limits.TheConstants.{MOST_FIELDS};
ghost use Rattle.st_layout.specs.Packed.{high_half, low_half};
ghost use Rattle.st_rule.specs.declared.views.Phase.TheVariants.{Inside};
ghost use Rattle.st_rule.specs.Draws.{heap_seen};
ghost use Rattle.st_rule.specs.Seats.{IsSeatOf, IsFair, HoldsNothing};
ghost use Rattle.st_barrier.specs.Hands.{StaysAs, HasLoadedFields};

use st_events::Judge;
use st_layout::{hi, lo};
use st_rule::{MutSeat, Shared};
use std::sync::Wait;
use std::thread;

/// Locks an object that exists, and gives the stamp of its header. Waits until nobody else holds it.
pub(crate) fn lock<J: Judge, R: Wait>(
    rt: &R,
    shared: &Shared<J>,
    seat: &mut MutSeat<J>,
    obj: u32,
) -> u32
    requires table { IsSeatOf J.meant shared.now seat.old }
    requires phase { seat.old.view.gate.phase ≡ Inside }
    requires hand { HoldsNothing seat.old }
    requires object { IsSome (heap_seen seat.old.view obj) }
    ensures stays { StaysAs seat.old seat.new }
    ensures fair { IsFair seat.new }
    ensures hand { HasLoadedFields obj result [] seat.new }
{
    let mut stamp = 0;
    for _ in rt.forever() {
        match shared.lock(seat, obj, stamp) {
            Ok(()) => return stamp,
            Err(found) => {
                stamp = next_stamp(stamp, found);
                if lo(found) != 0 {
                    thread::yield_now();
                }
            }
        }
    }
    unreachable!()
}

/// The stamp that the next try is made with, where a try with this one found this header. Where nobody holds the object the try was refused for its
/// stamp alone, so the next takes the header's: a try that kept its own would be refused for ever once the object was changed after a launch.
fn next_stamp(stamp: u32, found: u64) -> u32
    ensures free { low_half found ≡ 0 → result ≡ high_half found }
    ensures held { low_half found ≢ 0 → result ≡ stamp }
{
    if lo(found) == 0 {
        hi(found) as u32
    } else {
        stamp
    }
}

/// Reads a field of the held object.
pub(crate) fn read<J: Judge>(
    shared: &Shared<J>,
    seat: &mut MutSeat<J>,
    obj: u32,
    field: u8,
    stamp: u32,
) -> u64
    requires table { IsSeatOf J.meant shared.now seat.old }
    requires hand { HasLoadedFields obj stamp [] seat.old }
    requires field { field < MOST_FIELDS }
    ensures stays { StaysAs seat.old seat.new }
    ensures fair { IsFair seat.new }
    ensures hand { HasLoadedFields obj stamp (record { field = field; value = result } ∷ []) seat.new }
{
    shared.field_load(seat, obj, field)
}
