//! Load.
//!
//! Why the value is that of the heap at the ticket: the word is loaded and the ticket drawn while the object is held, so no store of it is
//! drawn in between, and none is drawn whose word is not written.
ghost use Rattle.st_barrier.specs.Calls.{MayCall, HasCell, Loads};
ghost use Rattle.st_gate.specs.Phases.{IsInside};
ghost use Rattle.st_rule.specs.Seats.{IsSeatOf, IsFair, HoldsNothing};

use crate::events::note;
use crate::locking::{lock, read};
use st_events::{Event, Judge};
use st_gate::Inside;
use st_rule::{MutSeat, Shared};
use std::sync::Wait;

/// Reads a word of an object. Waits only while another thread holds the object.
pub fn load<J: Judge, R: Wait>(
    rt: &R,
    shared: &Shared<J>,
    inside: &mut Inside<J>,
    obj: u32,
    field: u8,
) -> u64
    requires table { IsSeatOf J.meant shared.now inside.old.seat }
    requires caller { MayCall inside.old.seat }
    requires cell { HasCell inside.old.seat obj field }
    ensures load { Loads obj field result inside.old.seat inside.new.seat }
    ensures fair { IsFair inside.new.seat }
{
    load_with(rt, shared, &mut inside.seat, obj, field)
}

/// The same with the seat alone.
fn load_with<J: Judge, R: Wait>(
    rt: &R,
    shared: &Shared<J>,
    seat: &mut MutSeat<J>,
    obj: u32,
    field: u8,
) -> u64
    requires table { IsSeatOf J.meant shared.now seat.old }
    requires inside { IsInside seat.old }
    requires hand { HoldsNothing seat.old }
    requires caller { MayCall seat.old }
    requires cell { HasCell seat.old obj field }
    ensures load { Loads obj field result seat.old seat.new }
    ensures fair { IsFair seat.new }
    ensures inside { IsInside seat.new }
    ensures hand { HoldsNothing seat.new }
{
    let m = seat.number();
    let stamp = lock(rt, shared, seat, obj);
    let value = read(shared, seat, obj, field, stamp);
    let event = Event::Load {
        m,
        obj,
        field,
        value,
    };
    note(shared, seat, obj, stamp, event);
    value
}
