//! Store.
ghost use Rattle.st_barrier.specs.Calls.{MayCall, HasCell, FitsCell, MakesEvent};
ghost use Rattle.st_events.specs.declared.events.Event.TheVariants.{Store};
ghost use Rattle.st_gate.specs.Phases.{IsInside};
ghost use Rattle.st_rule.specs.Seats.{IsSeatOf, IsFair, HoldsNothing};

use crate::events::apply_change;
use crate::locking::lock;
use st_events::Judge;
use st_gate::Inside;
use st_rule::{MutSeat, Shared};
use std::sync::Wait;

/// Writes a word of an object, of the kind of its field. Waits only while another thread holds the object.
pub fn store<J: Judge, R: Wait>(
    rt: &R,
    shared: &Shared<J>,
    inside: &mut Inside<J>,
    obj: u32,
    field: u8,
    value: u64,
)
    requires table { IsSeatOf J.meant shared.now inside.old.seat }
    requires caller { MayCall inside.old.seat }
    requires cell { HasCell inside.old.seat obj field }
    requires kind { FitsCell inside.old.seat obj field value }
    ensures store { MakesEvent (Store inside.old.seat.view.gate.number obj field value) inside.old.seat inside.new.seat }
    ensures fair { IsFair inside.new.seat }
{
    store_with(rt, shared, &mut inside.seat, obj, field, value);
}

/// The same with the seat alone.
fn store_with<J: Judge, R: Wait>(
    rt: &R,
    shared: &Shared<J>,
    seat: &mut MutSeat<J>,
    obj: u32,
    field: u8,
    value: u64,
)
    requires table { IsSeatOf J.meant shared.now seat.old }
    requires inside { IsInside seat.old }
    requires hand { HoldsNothing seat.old }
    requires caller { MayCall seat.old }
    requires cell { HasCell seat.old obj field }
    requires kind { FitsCell seat.old obj field value }
    ensures store { MakesEvent (Store seat.old.view.gate.number obj field value) seat.old seat.new }
    ensures fair { IsFair seat.new }
    ensures inside { IsInside seat.new }
    ensures hand { HoldsNothing seat.new }
{
    let stamp = lock(rt, shared, seat, obj);
    apply_change(shared, seat, obj, stamp, field, value, None);
}
