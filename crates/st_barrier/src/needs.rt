//! Which checks need the old version of an object that changes: the active ones that were launched after its stamp.
//!
//! Where the epoch is not above the stamp no check was launched since, so no lane is looked at. The board stays as it is while the mutator is inside.
ghost use Rattle.std.specs.Prelude.{◌≡◌, ◌<◌, ◌≤◌, nat_lt};
ghost use Rattle.st_layout.specs.declared.limits.TheConstants.{MOST_LANES};
ghost use Rattle.st_rule.specs.declared.views.Phase.TheVariants.{Inside};
ghost use Rattle.st_rule.specs.Draws.{MayLoadBoard};
ghost use Rattle.st_rule.specs.Needs.{is_any};
ghost use Rattle.st_rule.specs.Plays.{IsBoardWord};
ghost use Rattle.st_rule.specs.Seats.{IsSeatOf, IsFair};
ghost use Rattle.st_barrier.specs.Hands.{StaysAs, KeepsEpoch};
ghost use Rattle.st_barrier.specs.Keeping.{LoadsPlace, LoadsNeed, HasLaunchSince, KnowsChecks, need_of, lanes_in};

use st_events::Judge;
use st_layout::MOST_LANES;
use st_rule::{MutSeat, Shared};

/// As many as a table may have lanes.
pub(crate) const LANE_PLACES: usize = MOST_LANES as usize;

/// Whether some check was launched after the stamp.
pub(crate) fn is_launched_since(stamp: u32, epoch: u32) -> bool
    ensures { result ≡ nat_lt stamp epoch }
{
    stamp < epoch
}

/// Loads the word of each lane: the check of each that needs the version with this stamp, and 0 where none does.
pub(crate) fn needing_checks<J: Judge>(
    shared: &Shared<J>,
    seat: &mut MutSeat<J>,
    stamp: u32,
) -> [u32; LANE_PLACES]
    requires table { IsSeatOf J.meant shared.now seat.old }
    requires fair { IsFair seat.old }
    requires phase { seat.old.view.gate.phase ≡ Inside }
    requires launched { HasLaunchSince stamp seat.old }
    ensures stays { StaysAs seat.old seat.new }
    ensures fair { IsFair seat.new }
    ensures hand { seat.new.view.held ≡ seat.old.view.held }
    ensures epoch { KeepsEpoch seat.old seat.new }
    ensures checks { KnowsChecks stamp result seat.new }
{
    let mut checks = [0; LANE_PLACES];
    for lane in 0..shared.sizes().lanes {
        checks[lane as usize] = load_check(shared, seat, lane, stamp);
    }
    checks
}

/// The check of one lane, where it needs the version.
fn load_check<J: Judge>(shared: &Shared<J>, seat: &mut MutSeat<J>, lane: u8, stamp: u32) -> u32
    requires table { IsSeatOf J.meant shared.now seat.old }
    requires fair { IsFair seat.old }
    requires phase { seat.old.view.gate.phase ≡ Inside }
    requires lane { lane < seat.old.view.terms.sizes.lanes }
    ensures need { LoadsNeed stamp result lane seat.old seat.new }
    ensures fair { IsFair seat.new }
{
    let place = shared.plan().lane_word(lane);
    let word = load_word(shared, seat, place);
    need(stamp, word as u32)
}

/// The check, where it was launched after the stamp.
fn need(stamp: u32, check: u32) -> u32
    ensures { result ≡ need_of stamp check }
{
    if stamp < check { check } else { 0 }
}

/// Loads a word of the board.
pub(crate) fn load_word<J: Judge>(shared: &Shared<J>, seat: &mut MutSeat<J>, place: u32) -> u64
    requires table { IsSeatOf J.meant shared.now seat.old }
    requires board { MayLoadBoard seat.old.view place }
    ensures loads { LoadsPlace place result seat.old seat.new }
    ensures fair { IsFair seat.new }
    ensures fits { IsBoardWord seat.old.view.terms.sizes place result }
{
    shared.board_load(seat, place)
}

/// Whether any of the first lanes needs it.
pub(crate) fn is_any_needed(checks: &[u32; LANE_PLACES], lanes: u8) -> bool
    requires { lanes ≤ MOST_LANES }
    ensures { result ≡ is_any (lanes_in checks.now lanes) }
{
    for lane in 0..lanes {
        if checks[lane as usize] > 0 {
            return true;
        }
    }
    false
}
