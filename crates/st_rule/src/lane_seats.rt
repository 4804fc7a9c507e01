//! The seat of an active check.
ghost use Rattle.std.specs.Prelude.{◌≡◌, ◌<◌};
ghost use Rattle.st_rule.specs.LaneSeats.{IsFairLane};

use crate::views::View;
use atomic_table::Seat;
use st_events::Judge;
use std::marker::{Model, PhantomData};

/// The seat of an active check. It is moved and never copied. No call makes one yet.
#[derive(Drop)]
pub struct LaneSeat<J: Judge> {
    pub(crate) seat: Seat<(), View>,
    lane: u8,
    check: u32,
    of: PhantomData<J>,
}

impl<J: Judge> Model for LaneSeat<J> {
    ghost use Rattle.std.specs.Prelude.{◌≡◌};
    ghost use Rattle.st_rule.specs.LaneSeats.{LaneValue, KeepsLane, lane_of};

    ghost Value = { LaneValue };

    ghost view = { λ s. record { table = s.seat.table_id; id = s.seat.id; view = lane_of s.seat.me.0 } };

    ghost invariant = { λ s. KeepsLane s.seat.me × (s.lane ≡ (lane_of s.seat.me.0).lane) × (s.check ≡ (lane_of s.seat.me.0).check) };
}

impl<J: Judge> LaneSeat<J> {
    /// The lane's number.
    pub fn lane(&self) -> u8
        ensures lane { result ≡ self.now.view.lane }
        ensures within { result < self.now.view.terms.sizes.lanes }
    {
        self.lane
    }

    /// The number of the check that it has in hand.
    pub fn check(&self) -> u32
        ensures { result ≡ self.now.view.check }
    {
        self.check
    }

    /// The terms are within the limits, and the past and what the seat has seen are legal. Nothing is computed.
    pub fn is_fair(&self)
        ensures { IsFairLane self.now.view }
    {
        let _ = &self.seat;
    }
}
