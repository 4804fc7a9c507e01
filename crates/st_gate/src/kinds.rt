//! A seat that is inside the gate, and one that is alone.
ghost use Rattle.st_gate.specs.Phases.{IsAlone, IsInside};
ghost use Rattle.st_rule.specs.Seats.{HoldsNothing};

use st_events::Judge;
use st_rule::MutSeat;

/// The seat of a mutator that is inside the gate and holds no object. It must be spent by `leave`.
pub struct Inside<J: Judge> {
    pub seat: MutSeat<J>,
    pub ghost inside: { IsInside seat },
    pub ghost hand: { HoldsNothing seat },
}

/// The seat of a thread that has closed the gate and is alone. It must be spent by `open_gate`.
pub struct Alone<J: Judge> {
    pub seat: MutSeat<J>,
    pub ghost alone: { IsAlone seat },
}
