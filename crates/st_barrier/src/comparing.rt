//! Cas.
ghost use Rattle.std.specs.Prelude.{◌<◌, Some, true, false};
ghost use Rattle.st_barrier.specs.Calls.{MayCall, HasCell, FitsCell, MakesEvent, Compares};
ghost use Rattle.st_barrier.specs.Hands.{HoldsQuietly};
ghost use Rattle.st_barrier.specs.Keeping.{HoldsFound, MayChange};
ghost use Rattle.st_events.specs.declared.events.Event.TheVariants.{Cas};
ghost use Rattle.st_gate.specs.Phases.{IsInside};
ghost use Rattle.st_layout.specs.declared.limits.TheConstants.{MOST_FIELDS};
ghost use Rattle.st_rule.specs.Draws.{MayDraw};
ghost use Rattle.st_rule.specs.Seats.{IsSeatOf, IsFair, HoldsNothing};

use crate::events::{apply_change, note};
use crate::locking::{lock, read};
use st_events::{Event, Judge};
use st_gate::Inside;
use st_rule::{MutSeat, Shared};
use std::sync::Wait;

/// Compares a word of an object with `expect`, and writes `value` where they are the same. True where it did. Waits only while another
/// thread holds the object.
pub fn cas<J: Judge, R: Wait>(
    rt: &R,
    shared: &Shared<J>,
    inside: &mut Inside<J>,
    obj: u32,
    field: u8,
    expect: u64,
    value: u64,
) -> bool
    requires table { IsSeatOf J.meant shared.now inside.old.seat }
    requires caller { MayCall inside.old.seat }
    requires cell { HasCell inside.old.seat obj field }
    requires expected { FitsCell inside.old.seat obj field expect }
    requires kind { FitsCell inside.old.seat obj field value }
    ensures cas { Compares obj field expect value result inside.old.seat inside.new.seat }
    ensures fair { IsFair inside.new.seat }
{
    cas_with(rt, shared, &mut inside.seat, obj, field, expect, value)
}

/// The same with the seat alone.
fn cas_with<J: Judge, R: Wait>(
    rt: &R,
    shared: &Shared<J>,
    seat: &mut MutSeat<J>,
    obj: u32,
    field: u8,
    expect: u64,
    value: u64,
) -> bool
    requires table { IsSeatOf J.meant shared.now seat.old }
    requires inside { IsInside seat.old }
    requires hand { HoldsNothing seat.old }
    requires caller { MayCall seat.old }
    requires cell { HasCell seat.old obj field }
    requires expected { FitsCell seat.old obj field expect }
    requires kind { FitsCell seat.old obj field value }
    ensures cas { Compares obj field expect value result seat.old seat.new }
    ensures fair { IsFair seat.new }
    ensures inside { IsInside seat.new }
    ensures hand { HoldsNothing seat.new }
{
    let stamp = lock(rt, shared, seat, obj);
    let found = read(shared, seat, obj, field, stamp);
    if found == expect {
        exchange(shared, seat, obj, stamp, field, expect, value);
        true
    } else {
        miss(shared, seat, obj, stamp, field, expect, value);
        false
    }
}

/// A Cas that is done: what was found in the field is what was expected.
fn exchange<J: Judge>(
    shared: &Shared<J>,
    seat: &mut MutSeat<J>,
    obj: u32,
    stamp: u32,
    field: u8,
    expect: u64,
    value: u64,
)
    requires table { IsSeatOf J.meant shared.now seat.old }
    requires fair { IsFair seat.old }
    requires hand { HoldsFound obj stamp field (Some expect) seat.old }
    requires field { field < MOST_FIELDS }
    requires event { MayChange (Cas seat.old.view.gate.number obj field expect value true) obj stamp field value (Some expect) seat.old }
    ensures made { MakesEvent (Cas seat.old.view.gate.number obj field expect value true) seat.old seat.new }
    ensures fair { IsFair seat.new }
    ensures hand { HoldsNothing seat.new }
{
    apply_change(shared, seat, obj, stamp, field, value, Some(expect));
}

/// A Cas that is not done: it changes nothing.
fn miss<J: Judge>(
    shared: &Shared<J>,
    seat: &mut MutSeat<J>,
    obj: u32,
    stamp: u32,
    field: u8,
    expect: u64,
    value: u64,
)
    requires table { IsSeatOf J.meant shared.now seat.old }
    requires hand { HoldsQuietly obj stamp seat.old }
    requires event { MayDraw seat.old.view (Cas seat.old.view.gate.number obj field expect value false) false }
    ensures made { MakesEvent (Cas seat.old.view.gate.number obj field expect value false) seat.old seat.new }
    ensures fair { IsFair seat.new }
    ensures hand { HoldsNothing seat.new }
{
    let event = Event::Cas {
        m: seat.number(),
        obj,
        field,
        expect,
        value,
        done: false,
    };
    note(shared, seat, obj, stamp, event);
}
