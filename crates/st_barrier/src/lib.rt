//! The heap calls of mutators that share one table. Each is one legal event of one journal, whatever the other threads do.
#![tactic(auto)]

mod changes;
mod comparing;
mod drawing;
mod events;
mod loading;
mod locking;
mod making;
mod needs;
mod storing;
mod versions;

pub use comparing::cas;
pub use loading::load;
pub use making::new;
pub use storing::store;
