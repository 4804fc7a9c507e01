//! A check's read of the heap of its launch, while mutators change the heap: at most three atomic steps, waiting for nobody.
#![tactic(auto)]

mod counting;
mod reading;

pub use counting::Steps;
pub use reading::read;
