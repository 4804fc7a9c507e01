//! The read: the object's own word, then the forwarding word, then the copy.
//!
//! Why this order is right is told at the head of st_rule's `lane_steps.rt`: the live word is loaded before it is known whether it counts, and the
//! forwarding word then tells. Read first, it could say "not yet" before a store, and the live word be loaded behind it.
ghost use Rattle.std.specs.Prelude.{◌≡◌, ◌+◌, ◌≤◌, None, Some, IsSome, IfOk, IfErr};
ghost use Rattle.st_events.specs.Heap.{word_at};
ghost use Rattle.st_rule.specs.LaneSeats.{IsLaneOf};
ghost use Rattle.st_rule.specs.Reading.{past_of};
ghost use Rattle.st_reader.specs.Reads.{IsLostTo, LeavesLane, CountsSteps, HasLive, LoadsLive, LoadsForward, LoadsBoth};

use crate::counting::Steps;
use st_events::{Judge, Lost};
use st_layout::{hi, lo};
use st_rule::{LOST, LaneSeat, Shared};
use std::sync::ledger::Ledger;

/// The word of a cell in the heap of the check's launch. `Lost` comes only where the version is lost in the journal that the seat has then seen.
pub fn read<J: Judge, L: Ledger>(
    shared: &Shared<J>,
    lane: &mut LaneSeat<J>,
    obj: u32,
    field: u8,
    steps: &mut Steps<L>,
) -> Result<u64, Lost>
    requires table { IsLaneOf J.meant shared.now lane.old }
    requires cell { IsSome (word_at (past_of lane.old.view) obj field) }
    requires quiet { lane.old.view.read ≡ None }
    ensures word { IfOk result (λ word. word_at (past_of lane.old.view) obj field ≡ Some word) }
    ensures lost { IfErr result (λ lost. (lost.obj ≡ obj) × IsLostTo lane.new.view obj) }
    ensures lane { LeavesLane lane.old lane.new }
    ensures steps { CountsSteps lane.old.view lane.new.view steps.old steps.new }
{
    lane.is_fair();
    let check = u64::from(lane.check());
    let (value, forward) = load_both(shared, lane, obj, field, steps);
    if hi(forward) != check {
        return Ok(value);
    }
    let named = lo(forward);
    if named == u64::from(LOST) {
        return Err(Lost { obj });
    }
    steps.tick();
    Ok(shared.check_copy(lane, (named - 1) as u32, field))
}

/// The object's own word, and the lane's forwarding word that was loaded after it.
#[tactic(auto, using(crate::proofs::ReadLemmas::loads_both))]
fn load_both<J: Judge, L: Ledger>(
    shared: &Shared<J>,
    lane: &mut LaneSeat<J>,
    obj: u32,
    field: u8,
    steps: &mut Steps<L>,
) -> (u64, u64)
    requires table { IsLaneOf J.meant shared.now lane.old }
    requires cell { IsSome (word_at (past_of lane.old.view) obj field) }
    requires quiet { lane.old.view.read ≡ None }
    ensures both { LoadsBoth obj field result.0 result.1 lane.old lane.new }
    ensures table { IsLaneOf J.meant shared.now lane.new }
    ensures steps { steps.new ≡ steps.old + 2 }
{
    let value = load_live(shared, lane, obj, field, steps);
    let forward = load_forward(shared, lane, obj, field, steps);
    (value, forward)
}

/// The object's own word: the first half of a read.
fn load_live<J: Judge, L: Ledger>(
    shared: &Shared<J>,
    lane: &mut LaneSeat<J>,
    obj: u32,
    field: u8,
    steps: &mut Steps<L>,
) -> u64
    requires table { IsLaneOf J.meant shared.now lane.old }
    requires cell { IsSome (word_at (past_of lane.old.view) obj field) }
    requires quiet { lane.old.view.read ≡ None }
    ensures live { LoadsLive obj field result lane.old lane.new }
    ensures half { HasLive obj field lane.new }
    ensures table { IsLaneOf J.meant shared.now lane.new }
    ensures steps { steps.new ≡ steps.old + 1 }
{
    lane.is_fair();
    steps.tick();
    shared.check_field(lane, obj, field)
}

/// The lane's forwarding word at the object whose own word was loaded: the second half.
fn load_forward<J: Judge, L: Ledger>(
    shared: &Shared<J>,
    lane: &mut LaneSeat<J>,
    obj: u32,
    field: u8,
    steps: &mut Steps<L>,
) -> u64
    requires table { IsLaneOf J.meant shared.now lane.old }
    requires half { HasLive obj field lane.old }
    ensures forward { LoadsForward result lane.old lane.new }
    ensures table { IsLaneOf J.meant shared.now lane.new }
    ensures steps { steps.new ≡ steps.old + 1 }
{
    steps.tick();
    shared.check_forward(lane, obj)
}
