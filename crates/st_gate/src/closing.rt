//! How a thread closes the gate until it is alone, and opens it again.
//!
//! The closer takes the closing word by compare and exchange, so there is one closer at a time. Then it sees the flag of every other number
//! clear once, the main thread's among them. A number that it saw clear cannot go inside any more: it would look at the closing word
//! afterwards, and find it set. So once each was seen, nobody else is inside, until the closer opens the gate.
ghost use Rattle.std.specs.Prelude.{◌≡◌, ◌+◌, ◌≤◌, [], ◌∷◌};
ghost use Rattle.st_gate.specs.Exclusion.{ExcludesOthers};
ghost use Rattle.st_gate.specs.Later.{IsLater};
ghost use Rattle.st_gate.specs.Others.{HasSeen, others_below};
ghost use Rattle.st_gate.specs.Phases.{IsAlone, IsOutside, IsClosing};
ghost use Rattle.st_rule.specs.Seats.{IsSeatOf, IsFair, sizes_of, told_of};

use crate::kinds::Alone;
use st_events::Judge;
use st_rule::{MutSeat, Shared};
use std::sync::Wait;
use std::thread;

/// Opens the gate.
pub fn open_gate<J: Judge>(shared: &Shared<J>, alone: Alone<J>) -> MutSeat<J>
    requires table { IsSeatOf J.meant shared.now alone.seat }
    ensures phase { IsOutside result }
    ensures later { IsLater alone.seat result }
    ensures fair { IsFair result }
{
    let Alone { mut seat } = alone;
    shared.give_gate(&mut seat);
    seat
}

/// Closes the gate. Waits until no other thread closes it, and then until every other number was seen outside once.
pub fn close_gate<J: Judge, R: Wait>(rt: &R, shared: &Shared<J>, seat: MutSeat<J>) -> Alone<J>
    requires table { IsSeatOf J.meant shared.now seat }
    requires phase { IsOutside seat }
    ensures later { IsLater seat result.seat }
    ensures fair { IsFair result.seat }
    ensures alone { ExcludesOthers (told_of J.meant J.right shared.now) result.seat }
{
    let mut closer = seat;
    take(rt, shared, &mut closer);
    see_others(rt, shared, &mut closer);
    Alone { seat: closer }
}

/// Takes the closing word.
fn take<J: Judge, R: Wait>(rt: &R, shared: &Shared<J>, seat: &mut MutSeat<J>)
    requires table { IsSeatOf J.meant shared.now seat.old }
    requires phase { IsOutside seat.old }
    ensures later { IsLater seat.old seat.new }
    ensures fair { IsFair seat.new }
    ensures none { HasSeen seat.new [] }
{
    for _ in rt.forever() {
        if shared.take_gate(seat) {
            return;
        }
        thread::yield_now();
    }
}

/// Sees the flag of every other number clear, one after another.
fn see_others<J: Judge, R: Wait>(rt: &R, shared: &Shared<J>, seat: &mut MutSeat<J>)
    requires table { IsSeatOf J.meant shared.now seat.old }
    requires none { HasSeen seat.old [] }
    requires fair { IsFair seat.old }
    ensures later { IsLater seat.old seat.new }
    ensures fair { IsFair seat.new }
    ensures alone { IsAlone seat.new }
{
    for k in 0..numbers(shared) {
        see_number(rt, shared, seat, k);
    }
}

/// How many numbers there are: the mutators', and the main thread's.
fn numbers<J: Judge>(shared: &Shared<J>) -> u8
    ensures { result ≡ (sizes_of shared.now).mutators + 1 }
{
    shared.sizes().mutators + 1
}

/// Sees the flag of number `k` clear, unless it is the closer's own.
fn see_number<J: Judge, R: Wait>(rt: &R, shared: &Shared<J>, seat: &mut MutSeat<J>, k: u8)
    requires table { IsSeatOf J.meant shared.now seat.old }
    requires within { k ≤ seat.old.view.terms.sizes.mutators }
    requires seen { HasSeen seat.old (others_below k seat.old.view.gate.number) }
    requires fair { IsFair seat.old }
    ensures later { IsLater seat.old seat.new }
    ensures fair { IsFair seat.new }
    ensures seen { HasSeen seat.new (others_below (k + 1) seat.new.view.gate.number) }
{
    if k != seat.number() {
        see_clear(rt, shared, seat, k);
    }
}

/// Sees the flag of number `k` clear.
fn see_clear<J: Judge, R: Wait>(rt: &R, shared: &Shared<J>, seat: &mut MutSeat<J>, k: u8)
    requires table { IsSeatOf J.meant shared.now seat.old }
    requires within { k ≤ seat.old.view.terms.sizes.mutators }
    requires closing { IsClosing seat.old }
    requires fair { IsFair seat.old }
    ensures later { IsLater seat.old seat.new }
    ensures fair { IsFair seat.new }
    ensures seen { HasSeen seat.new (k ∷ seat.old.view.gate.clear) }
{
    for _ in rt.forever() {
        if shared.see(seat, k) {
            return;
        }
        thread::yield_now();
    }
}
