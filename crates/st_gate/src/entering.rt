//! How a mutator enters the gate, and leaves it.
//!
//! Why no mutator is inside while another thread is alone: to enter, a mutator first sets its flag and then looks at the closing
//! word; to close, a thread first takes the closing word and then sees each flag. Of two that do so at the same time, the one whose
//! second step comes last finds what the other did first. So a mutator that finds the closing word 0 is seen by every later closer,
//! and a closer that finds a flag clear knows that its mutator will find the closing word set.
//!
//! A mutator that finds it set steps back: it clears its flag before it waits. With its flag up, it and the closer would wait for each
//! other for ever.
ghost use Rattle.st_gate.specs.Later.{IsLater};
ghost use Rattle.st_gate.specs.Phases.{IsOutside};
ghost use Rattle.st_rule.specs.Seats.{IsSeatOf, IsFair};

use crate::kinds::Inside;
use st_events::Judge;
use st_rule::{MutSeat, Shared};
use std::sync::Wait;
use std::thread;

/// Enters the gate. Waits while the gate is closed.
pub fn enter<J: Judge, R: Wait>(rt: &R, shared: &Shared<J>, mut seat: MutSeat<J>) -> Inside<J>
    requires table { IsSeatOf J.meant shared.now seat }
    requires phase { IsOutside seat }
    ensures later { IsLater seat result.seat }
    ensures fair { IsFair result.seat }
{
    for _ in rt.forever() {
        shared.flag_in(&mut seat);
        if shared.look(&mut seat) {
            return Inside { seat };
        }
        shared.flag_out(&mut seat);
        thread::yield_now();
    }
    unreachable!()
}

/// Leaves the gate.
pub fn leave<J: Judge>(shared: &Shared<J>, inside: Inside<J>) -> MutSeat<J>
    requires table { IsSeatOf J.meant shared.now inside.seat }
    ensures phase { IsOutside result }
    ensures later { IsLater inside.seat result }
    ensures fair { IsFair result }
{
    let Inside { seat: mut visitor } = inside;
    shared.flag_out(&mut visitor);
    visitor
}
