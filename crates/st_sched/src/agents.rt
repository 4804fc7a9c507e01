//! Who can take the next turn.
ghost use Rattle.std.specs.Prelude.{◌≡◌, ◌+◌, ◌≤◌, ◌++◌, ℕ, length, vec_len, vec_capacity};
ghost use Rattle.st_sched.specs.Choosing.{ready_seats, ready_checks};

use crate::checks::ActiveCheck;
use crate::seats::Seat;

/// Who takes a turn.
#[derive(Clone, Copy, Debug)]
pub(crate) enum Agent {
    /// The thread of this number.
    Mutator(usize),
    /// The active check at this place.
    Check(usize),
}

/// Adds each thread that can take a turn. A launch can be one only where there is `room` for it.
pub(crate) fn add_mutators(ready: &mut Vec<Agent>, seats: &[Seat], room: bool)
    requires { vec_len ready.old + length seats.now ≤ vec_capacity ready.old }
    ensures added { ready.new.items ≡ ready.old.items ++ ready_seats 0 room seats.now }
    ensures capacity { vec_capacity ready.new ≡ vec_capacity ready.old }
{
    for (m, seat) in seats.iter().enumerate() {
        if seat.can_turn(room) {
            ready.push_reserved(Agent::Mutator(m));
        }
    }
}

/// Adds each active check that has not finished.
pub(crate) fn add_checks(ready: &mut Vec<Agent>, checks: &[ActiveCheck])
    requires { vec_len ready.old + length checks.now ≤ vec_capacity ready.old }
    ensures added { ready.new.items ≡ ready.old.items ++ ready_checks 0 checks.now }
    ensures capacity { vec_capacity ready.new ≡ vec_capacity ready.old }
{
    for (index, check) in checks.iter().enumerate() {
        if !check.is_finished() {
            ready.push_reserved(Agent::Check(index));
        }
    }
}
