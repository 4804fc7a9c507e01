//! The table of words that threads share, its rule, and the seats with which they take steps on it.
//! Each step is one call with its contract, and each keeps the rule, whatever the other threads did before.
#![tactic(auto)]

mod accesses;
mod barrier_accesses;
mod barrier_steps;
mod closing;
mod forwards;
mod keys;
mod lane_seats;
mod lane_steps;
mod making;
mod naming;
mod object_accesses;
mod object_steps;
mod passing;
mod places;
mod plays;
mod seats;
mod steps;
mod tables;
mod views;

pub use closing::Closed;
pub use forwards::LOST;
pub use lane_seats::LaneSeat;
pub use naming::Naming;
pub use seats::{MutSeat, SeatLog};
pub use tables::Shared;
pub use views::{
    Entry, GateView, HandsView, JoinedView, JournalView, LaneView, MutView, Phase, Tally, Terms,
    View,
};
