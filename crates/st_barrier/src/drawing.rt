//! The steps of an event, each with what it leaves to do: a draw leaves a word to write, or the object to give back; a word that is written leaves
//! the object to give back.
ghost use Rattle.std.specs.Prelude.{◌≡◌, ◌<◌, false, true};
ghost use Rattle.st_layout.specs.declared.limits.TheConstants.{MOST_FIELDS};
ghost use Rattle.st_rule.specs.Draws.{HasInHand, MayDraw, AwaitsField, AwaitsClass};
ghost use Rattle.st_rule.specs.Holding.{IsMaking};
ghost use Rattle.st_rule.specs.Needs.{is_any};
ghost use Rattle.st_rule.specs.Seats.{IsSeatOf, IsFair, HoldsNothing};
ghost use Rattle.st_barrier.specs.Calls.{MakesEvent};
ghost use Rattle.st_barrier.specs.Hands.{StaysAs, HoldsQuietly, HasEpoch, IsPlain, OwesHeader, KeepsEpoch};
ghost use Rattle.st_barrier.specs.Keeping.{HoldsFound, HoldsFields, MayChange, KnowsChecks, KnowsNoNeed, Flies, awaiting_of, event_of_change, lanes_in};

use crate::changes::{FieldChange, change_event};
use crate::needs::LANE_PLACES;
use crate::versions::FIELD_PLACES;
use st_events::{Event, Judge};
use st_rule::{MutSeat, Shared};

/// Draws an event that changes nothing. The object is left to give back.
pub(crate) fn draw_plain<J: Judge>(
    shared: &Shared<J>,
    seat: &mut MutSeat<J>,
    obj: u32,
    stamp: u32,
    event: Event,
)
    requires table { IsSeatOf J.meant shared.now seat.old }
    requires hand { HoldsQuietly obj stamp seat.old }
    requires event { MayDraw seat.old.view event false }
    requires plain { IsPlain event }
    ensures made { MakesEvent event seat.old seat.new }
    ensures fair { IsFair seat.new }
    ensures hand { HoldsQuietly obj stamp seat.new }
{
    shared.draw(seat, event, false);
}

/// Gives back an object that was not changed, with the stamp that it had.
pub(crate) fn give_back<J: Judge>(shared: &Shared<J>, seat: &mut MutSeat<J>, obj: u32, stamp: u32)
    requires table { IsSeatOf J.meant shared.now seat.old }
    requires hand { HoldsQuietly obj stamp seat.old }
    ensures stays { StaysAs seat.old seat.new }
    ensures fair { IsFair seat.new }
    ensures hand { HoldsNothing seat.new }
{
    shared.unlock(seat, obj, stamp);
}

/// Draws a change whose old version no check needs. The field is left to write.
#[inline(always)]
pub(crate) fn draw_unneeded<J: Judge>(
    shared: &Shared<J>,
    seat: &mut MutSeat<J>,
    obj: u32,
    stamp: u32,
    field: u8,
    value: u64,
    found: Option<u64>,
)
    requires table { IsSeatOf J.meant shared.now seat.old }
    requires hand { HoldsFound obj stamp field found seat.old }
    requires event { MayChange (event_of_change seat.old.view.gate.number obj field value found) obj stamp field value found seat.old }
    requires unneeded { KnowsNoNeed stamp seat.old }
    ensures made { MakesEvent (event_of_change seat.old.view.gate.number obj field value found) seat.old seat.new }
    ensures fair { IsFair seat.new }
    ensures flight { AwaitsField seat.new.view obj field value }
    ensures epoch { KeepsEpoch seat.old seat.new }
{
    let event = change_event(seat.number(), obj, field, value, found);
    shared.draw(seat, event, false);
}

/// Draws a change with an index of the free list, and gives that. The old version is left to keep, and then the field to write.
pub(crate) fn draw_needed<J: Judge>(
    shared: &Shared<J>,
    seat: &mut MutSeat<J>,
    change: FieldChange,
    found: Option<u64>,
    fields: &[u64; FIELD_PLACES],
    checks: &[u32; LANE_PLACES],
) -> u32
    requires table { IsSeatOf J.meant shared.now seat.old }
    requires hand { HoldsFields change.obj change.stamp change.field found fields.now MOST_FIELDS seat.old }
    requires event { MayChange change.event change.obj change.stamp change.field change.value found seat.old }
    requires checks { KnowsChecks change.stamp checks.now seat.old }
    requires some { is_any (lanes_in checks.now seat.old.view.terms.sizes.lanes) ≡ true }
    ensures made { MakesEvent change.event seat.old seat.new }
    ensures fair { IsFair seat.new }
    ensures flight { Flies change.obj change.field change.value result fields.now 0 seat.new }
    ensures awaiting { awaiting_of seat.new.view.held ≡ lanes_in checks.now seat.old.view.terms.sizes.lanes }
    ensures board { seat.new.view.board ≡ seat.old.view.board }
{
    let (_ticket, index) = shared.draw(seat, change.event, true);
    index
}

/// Draws a New of an object of the class. The class word is left to write.
pub(crate) fn draw_new<J: Judge>(
    shared: &Shared<J>,
    seat: &mut MutSeat<J>,
    obj: u32,
    class: u8,
    event: Event,
)
    requires table { IsSeatOf J.meant shared.now seat.old }
    requires hand { HasInHand seat.old.view obj }
    requires event { MayDraw seat.old.view event false }
    requires makes { IsMaking event class }
    ensures made { MakesEvent event seat.old seat.new }
    ensures fair { IsFair seat.new }
    ensures flight { AwaitsClass seat.new.view obj class }
    ensures epoch { KeepsEpoch seat.old seat.new }
{
    shared.draw(seat, event, false);
}

/// Writes the field of the change. The object is left to give back.
pub(crate) fn write_field<J: Judge>(
    shared: &Shared<J>,
    seat: &mut MutSeat<J>,
    obj: u32,
    field: u8,
    value: u64,
)
    requires table { IsSeatOf J.meant shared.now seat.old }
    requires flight { AwaitsField seat.old.view obj field value }
    requires field { field < MOST_FIELDS }
    ensures stays { StaysAs seat.old seat.new }
    ensures fair { IsFair seat.new }
    ensures hand { OwesHeader obj seat.new }
    ensures epoch { KeepsEpoch seat.old seat.new }
{
    shared.field_store(seat, obj, field, value);
}

/// Writes the class of the new object. The object is left to give back.
pub(crate) fn write_class<J: Judge>(shared: &Shared<J>, seat: &mut MutSeat<J>, obj: u32, class: u8)
    requires table { IsSeatOf J.meant shared.now seat.old }
    requires flight { AwaitsClass seat.old.view obj class }
    ensures stays { StaysAs seat.old seat.new }
    ensures fair { IsFair seat.new }
    ensures hand { OwesHeader obj seat.new }
    ensures epoch { KeepsEpoch seat.old seat.new }
{
    shared.class_store(seat, obj, class);
}

/// Gives back an object that was changed or made, with the epoch as its stamp.
pub(crate) fn give_back_changed<J: Judge>(
    shared: &Shared<J>,
    seat: &mut MutSeat<J>,
    obj: u32,
    epoch: u32,
)
    requires table { IsSeatOf J.meant shared.now seat.old }
    requires hand { OwesHeader obj seat.old }
    requires epoch { HasEpoch epoch seat.old }
    ensures stays { StaysAs seat.old seat.new }
    ensures fair { IsFair seat.new }
    ensures hand { HoldsNothing seat.new }
{
    shared.unlock(seat, obj, epoch);
}
