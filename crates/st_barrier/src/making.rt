//! New.
ghost use Rattle.std.specs.Prelude.{◌≡◌, ◌≤◌, ◌<◌, [], length};
ghost use Rattle.st_barrier.specs.Calls.{MayCall, MakesEvent};
ghost use Rattle.st_barrier.specs.Hands.{StaysAs, HasLoadedFields};
ghost use Rattle.st_events.specs.declared.events.Event.TheVariants.{New};
ghost use Rattle.st_gate.specs.Phases.{IsInside};
ghost use Rattle.st_rule.specs.Draws.{IsNextOf};
ghost use Rattle.st_rule.specs.Entries.{objects_made, next_of};
ghost use Rattle.st_rule.specs.Seats.{IsSeatOf, IsFair, HoldsNothing};

use crate::events::make;
use st_events::{Event, FIRST_OF_REGIONS, Judge};
use st_gate::Inside;
use st_rule::{MutSeat, Shared};

/// Makes the next object of the mutator's region, of a declared class, with all fields 0, and gives its number. Waits for nobody.
pub fn new<J: Judge>(shared: &Shared<J>, inside: &mut Inside<J>, class: u8) -> u32
    requires table { IsSeatOf J.meant shared.now inside.old.seat }
    requires caller { MayCall inside.old.seat }
    requires room { objects_made inside.old.seat.view < inside.old.seat.view.terms.sizes.objects }
    requires some_class { 1 ≤ class }
    requires declared { class < length inside.old.seat.view.terms.shape.classes }
    ensures new { MakesEvent (New inside.old.seat.view.gate.number result class) inside.old.seat inside.new.seat }
    ensures object { result ≡ next_of inside.old.seat.view }
    ensures fair { IsFair inside.new.seat }
{
    new_with(shared, &mut inside.seat, class)
}

/// The same with the seat alone.
fn new_with<J: Judge>(shared: &Shared<J>, seat: &mut MutSeat<J>, class: u8) -> u32
    requires table { IsSeatOf J.meant shared.now seat.old }
    requires inside { IsInside seat.old }
    requires hand { HoldsNothing seat.old }
    requires caller { MayCall seat.old }
    requires room { objects_made seat.old.view < seat.old.view.terms.sizes.objects }
    requires some_class { 1 ≤ class }
    requires declared { class < length seat.old.view.terms.shape.classes }
    ensures new { MakesEvent (New seat.old.view.gate.number result class) seat.old seat.new }
    ensures object { result ≡ next_of seat.old.view }
    ensures fair { IsFair seat.new }
    ensures inside { IsInside seat.new }
    ensures hand { HoldsNothing seat.new }
{
    let obj = next_object(shared, seat);
    let event = new_event(seat, obj, class);
    lock_next(shared, seat, obj);
    make(shared, seat, obj, class, event);
    obj
}

/// The New of an object by this seat.
fn new_event<J: Judge>(seat: &MutSeat<J>, obj: u32, class: u8) -> Event
    ensures { result ≡ New seat.now.view.gate.number obj class }
{
    Event::New {
        m: seat.number(),
        obj,
        class,
    }
}

/// The next object of the seat's region.
fn next_object<J: Judge>(shared: &Shared<J>, seat: &MutSeat<J>) -> u32
    requires table { IsSeatOf J.meant shared.now seat.now }
    requires caller { MayCall seat.now }
    ensures { result ≡ next_of seat.now.view }
{
    let objects = shared.sizes().objects;
    FIRST_OF_REGIONS as u32 + u32::from(seat.number()) * objects + (objects - seat.room())
}

/// Locks the next object of the seat's region. Nobody else can hold it, and it has stamp 0.
fn lock_next<J: Judge>(shared: &Shared<J>, seat: &mut MutSeat<J>, obj: u32)
    requires table { IsSeatOf J.meant shared.now seat.old }
    requires inside { IsInside seat.old }
    requires hand { HoldsNothing seat.old }
    requires next { IsNextOf seat.old.view obj }
    ensures stays { StaysAs seat.old seat.new }
    ensures fair { IsFair seat.new }
    ensures hand { HasLoadedFields obj 0 [] seat.new }
{
    match shared.lock(seat, obj, 0) {
        Ok(()) => {}
        Err(_) => unreachable!(),
    }
}
