//! What a table is told once, when it is made.

use st_events::Sizes;
use std::snapshot::Snapshot;

/// The sizes of the run, and the judge of its checks, of which only proofs keep a picture.
#[derive(Drop)]
pub struct Key<J> {
    pub sizes: Sizes,
    pub judge: Snapshot<J>,
}
