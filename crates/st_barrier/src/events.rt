//! The events of a mutator that holds the object: the ticket is drawn, the word is written, and the object is given back.
//!
//! The order is what makes the event one step for all others: while the object is held nobody else can look at it or change it, so what is
//! written after the draw counts as written at the draw. A store that gave the object back before its draw would let another store in
//! between, and its ticket would come too late.
ghost use Rattle.std.specs.Prelude.{◌≡◌, ◌<◌, false, true};
ghost use Rattle.st_layout.specs.declared.limits.TheConstants.{MOST_FIELDS};
ghost use Rattle.st_rule.specs.declared.views.Phase.TheVariants.{Inside};
ghost use Rattle.st_rule.specs.Draws.{HasInHand, MayDraw, AwaitsField, AwaitsClass};
ghost use Rattle.st_rule.specs.Holding.{IsMaking};
ghost use Rattle.st_rule.specs.Needs.{is_any};
ghost use Rattle.st_rule.specs.Seats.{IsSeatOf, IsFair, HoldsNothing};
ghost use Rattle.st_barrier.specs.Calls.{MakesEvent};
ghost use Rattle.st_barrier.specs.Hands.{StaysAs, HoldsQuietly, HasEpoch, IsPlain, KeepsEpoch};
ghost use Rattle.st_barrier.specs.Keeping.{HoldsFound, MayChange, KnowsChecks, HasLaunchSince, event_of_change, lanes_in};

use crate::changes::{FieldChange, change_event};
use crate::drawing::{
    draw_needed, draw_new, draw_plain, draw_unneeded, give_back, give_back_changed, write_class,
    write_field,
};
use crate::needs::{LANE_PLACES, is_any_needed, is_launched_since, needing_checks};
use crate::versions::{forward, keep_version, load_fields};
use st_events::{Event, Judge};
use st_rule::{MutSeat, Shared};

/// An event that changes nothing. The object gets back the stamp that it had.
pub(crate) fn note<J: Judge>(
    shared: &Shared<J>,
    seat: &mut MutSeat<J>,
    obj: u32,
    stamp: u32,
    event: Event,
)
    requires table { IsSeatOf J.meant shared.now seat.old }
    requires hand { HoldsQuietly obj stamp seat.old }
    requires event { MayDraw seat.old.view event false }
    requires plain { IsPlain event }
    ensures made { MakesEvent event seat.old seat.new }
    ensures fair { IsFair seat.new }
    ensures hand { HoldsNothing seat.new }
{
    draw_plain(shared, seat, obj, stamp, event);
    give_back(shared, seat, obj, stamp);
}

/// A change of one field: a Store where no word is told as found, and else the Cas that found it. The object gets the epoch as its stamp.
#[inline(always)]
pub(crate) fn apply_change<J: Judge>(
    shared: &Shared<J>,
    seat: &mut MutSeat<J>,
    obj: u32,
    stamp: u32,
    field: u8,
    value: u64,
    found: Option<u64>,
)
    requires table { IsSeatOf J.meant shared.now seat.old }
    requires fair { IsFair seat.old }
    requires hand { HoldsFound obj stamp field found seat.old }
    requires event { MayChange (event_of_change seat.old.view.gate.number obj field value found) obj stamp field value found seat.old }
    requires field { field < MOST_FIELDS }
    ensures made { MakesEvent (event_of_change seat.old.view.gate.number obj field value found) seat.old seat.new }
    ensures fair { IsFair seat.new }
    ensures hand { HoldsNothing seat.new }
{
    let epoch = load_epoch(shared, seat);
    draw_change(shared, seat, obj, stamp, field, value, found, epoch);
    finish_change(shared, seat, obj, field, value, epoch);
}

/// Draws the change. Where no check was launched since the object's stamp no lane is looked at.
#[inline(always)]
fn draw_change<J: Judge>(
    shared: &Shared<J>,
    seat: &mut MutSeat<J>,
    obj: u32,
    stamp: u32,
    field: u8,
    value: u64,
    found: Option<u64>,
    epoch: u32,
)
    requires table { IsSeatOf J.meant shared.now seat.old }
    requires fair { IsFair seat.old }
    requires hand { HoldsFound obj stamp field found seat.old }
    requires event { MayChange (event_of_change seat.old.view.gate.number obj field value found) obj stamp field value found seat.old }
    requires epoch { HasEpoch epoch seat.old }
    ensures made { MakesEvent (event_of_change seat.old.view.gate.number obj field value found) seat.old seat.new }
    ensures fair { IsFair seat.new }
    ensures flight { AwaitsField seat.new.view obj field value }
    ensures epoch { KeepsEpoch seat.old seat.new }
{
    if is_launched_since(stamp, epoch) {
        draw_since_launch(shared, seat, obj, stamp, field, value, found);
    } else {
        draw_unneeded(shared, seat, obj, stamp, field, value, found);
    }
}

/// Draws a change of an object that was not changed since some launch, and keeps the old version first where some check needs it. It stands apart
/// from its caller in the built program too, so that a change that no check can need stays as short as it is.
#[inline(never)]
fn draw_since_launch<J: Judge>(
    shared: &Shared<J>,
    seat: &mut MutSeat<J>,
    obj: u32,
    stamp: u32,
    field: u8,
    value: u64,
    found: Option<u64>,
)
    requires table { IsSeatOf J.meant shared.now seat.old }
    requires fair { IsFair seat.old }
    requires hand { HoldsFound obj stamp field found seat.old }
    requires event { MayChange (event_of_change seat.old.view.gate.number obj field value found) obj stamp field value found seat.old }
    requires launched { HasLaunchSince stamp seat.old }
    ensures made { MakesEvent (event_of_change seat.old.view.gate.number obj field value found) seat.old seat.new }
    ensures fair { IsFair seat.new }
    ensures flight { AwaitsField seat.new.view obj field value }
    ensures epoch { KeepsEpoch seat.old seat.new }
{
    let checks = needing_checks(shared, seat, stamp);
    if is_any_needed(&checks, shared.sizes().lanes) {
        let event = change_event(seat.number(), obj, field, value, found);
        let change = FieldChange {
            obj,
            stamp,
            field,
            value,
            event,
        };
        draw_and_keep(shared, seat, change, found, &checks);
    } else {
        draw_unneeded(shared, seat, obj, stamp, field, value, found);
    }
}

/// Draws a change whose old version some check needs, keeps that, and tells each lane of it.
fn draw_and_keep<J: Judge>(
    shared: &Shared<J>,
    seat: &mut MutSeat<J>,
    change: FieldChange,
    found: Option<u64>,
    checks: &[u32; LANE_PLACES],
)
    requires table { IsSeatOf J.meant shared.now seat.old }
    requires fair { IsFair seat.old }
    requires hand { HoldsFound change.obj change.stamp change.field found seat.old }
    requires event { MayChange change.event change.obj change.stamp change.field change.value found seat.old }
    requires checks { KnowsChecks change.stamp checks.now seat.old }
    requires some { is_any (lanes_in checks.now seat.old.view.terms.sizes.lanes) ≡ true }
    ensures made { MakesEvent change.event seat.old seat.new }
    ensures fair { IsFair seat.new }
    ensures flight { AwaitsField seat.new.view change.obj change.field change.value }
    ensures epoch { KeepsEpoch seat.old seat.new }
{
    let fields = load_fields(shared, seat, change, found);
    let index = draw_needed(shared, seat, change, found, &fields, checks);
    let target = keep_version(shared, seat, change, &fields, index);
    forward(shared, seat, change, checks, target);
}

/// Writes the field of a change that is drawn, and gives the object back.
fn finish_change<J: Judge>(
    shared: &Shared<J>,
    seat: &mut MutSeat<J>,
    obj: u32,
    field: u8,
    value: u64,
    epoch: u32,
)
    requires table { IsSeatOf J.meant shared.now seat.old }
    requires flight { AwaitsField seat.old.view obj field value }
    requires field { field < MOST_FIELDS }
    requires epoch { HasEpoch epoch seat.old }
    ensures stays { StaysAs seat.old seat.new }
    ensures fair { IsFair seat.new }
    ensures hand { HoldsNothing seat.new }
{
    write_field(shared, seat, obj, field, value);
    give_back_changed(shared, seat, obj, epoch);
}

/// A New of an object of the class. The object gets the epoch as its stamp.
pub(crate) fn make<J: Judge>(
    shared: &Shared<J>,
    seat: &mut MutSeat<J>,
    obj: u32,
    class: u8,
    event: Event,
)
    requires table { IsSeatOf J.meant shared.now seat.old }
    requires fair { IsFair seat.old }
    requires hand { HasInHand seat.old.view obj }
    requires event { MayDraw seat.old.view event false }
    requires makes { IsMaking event class }
    ensures made { MakesEvent event seat.old seat.new }
    ensures fair { IsFair seat.new }
    ensures hand { HoldsNothing seat.new }
{
    let epoch = load_epoch(shared, seat);
    draw_new(shared, seat, obj, class, event);
    finish_new(shared, seat, obj, class, epoch);
}

/// Writes the class of an object whose New is drawn, and gives the object back.
fn finish_new<J: Judge>(shared: &Shared<J>, seat: &mut MutSeat<J>, obj: u32, class: u8, epoch: u32)
    requires table { IsSeatOf J.meant shared.now seat.old }
    requires flight { AwaitsClass seat.old.view obj class }
    requires epoch { HasEpoch epoch seat.old }
    ensures stays { StaysAs seat.old seat.new }
    ensures fair { IsFair seat.new }
    ensures hand { HoldsNothing seat.new }
{
    write_class(shared, seat, obj, class);
    give_back_changed(shared, seat, obj, epoch);
}

/// The epoch, which stays as it is while the seat is inside.
fn load_epoch<J: Judge>(shared: &Shared<J>, seat: &mut MutSeat<J>) -> u32
    requires table { IsSeatOf J.meant shared.now seat.old }
    requires fair { IsFair seat.old }
    requires phase { seat.old.view.gate.phase ≡ Inside }
    ensures stays { StaysAs seat.old seat.new }
    ensures fair { IsFair seat.new }
    ensures hand { seat.new.view.held ≡ seat.old.view.held }
    ensures epoch { HasEpoch result seat.new }
{
    let word = shared.plan().epoch_word();
    shared.board_load(seat, word) as u32
}
