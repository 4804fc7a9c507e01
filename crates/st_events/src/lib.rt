//! What every other crate speaks of: events of the heap, verdicts, ends, the sizes of a run and its journal.
//! Plain types and their definitions; nothing here runs a program.
#![tactic(auto)]

mod errors;
mod events;
mod heaps;
mod journals;
mod judges;
mod laws;
mod limits;
mod replaying;
mod replays;
mod runs;
mod shapes;
#[cfg(test)]
mod tests;
mod verdicts;

pub use errors::{Lost, NoLane, NoMemory, ReplayError, Why};
pub use events::{Args, Event, Site};
pub use heaps::{FIRST_OF_REGIONS, HeapMap, SHARED_OBJECT};
pub use journals::Journal;
pub use judges::Judge;
pub use laws::laws_of_journals;
pub use limits::{
    EVENT_COST, LAUNCH_COST, MOST_CALLS, MOST_COPIES, MOST_EVENTS, MOST_LANES, MOST_MUTATORS,
    MOST_OBJECTS, Sizes, USUAL_CALLS, USUAL_COPIES, USUAL_EVENTS, USUAL_LANES, USUAL_OBJECTS,
};
pub use replays::replay;
pub use runs::Ran;
pub use shapes::{Kind, MOST_ARGS, MOST_CHECKS, MOST_CLASSES, MOST_FIELDS, Shape};
pub use verdicts::{End, Plain, Verdict};
