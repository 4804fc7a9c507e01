//! The snapshot heap on one thread: a live heap that goes on changing while each active check reads the heap exactly as
//! it stood at its launch. Old versions of objects are kept in copies that checks share, and lost where no copy is free.
#![tactic(auto)]

mod headers;
mod lanes;
mod pools;
mod shape_copies;
mod snapshots;
mod tables;

pub use lanes::Lane;
pub use snapshots::SnapHeap;
