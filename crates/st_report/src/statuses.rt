//! The statuses that a run ends with.
ghost use Rattle.std.specs.Prelude.{◌≡◌};
ghost use Rattle.st_report.specs.Status.{run_status as run_status_of};

use crate::tallies::{some_fault, some_undecided, some_unfinished};
use st_events::Ran;

/// The status where every check holds.
pub const STATUS_HOLDS: u8 = 0;
/// The status where some check fails, or faults.
pub const STATUS_CHECK_FAILS: u8 = 1;
/// The status where some thread does not come to its end.
pub const STATUS_UNFINISHED: u8 = 4;
/// The status where some check has no answer, and none fails.
pub const STATUS_UNDECIDED: u8 = 8;

const _: () = prove!(
    STATUS_HOLDS == 0 && STATUS_CHECK_FAILS == 1 && STATUS_UNFINISHED == 4 && STATUS_UNDECIDED == 8
);

/// The status of a run whose output was written whole.
#[tactic(auto, unfolding(crate::specs::Status::run_status))]
pub fn run_status(ran: &Ran) -> u8
    ensures { result ≡ run_status_of ran.now }
{
    if some_unfinished(&ran.ends) {
        STATUS_UNFINISHED
    } else if some_fault(&ran.verdicts) {
        STATUS_CHECK_FAILS
    } else if some_undecided(&ran.verdicts) {
        STATUS_UNDECIDED
    } else {
        STATUS_HOLDS
    }
}
