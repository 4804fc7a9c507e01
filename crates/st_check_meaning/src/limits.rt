//! The most of what a check may do that no size of a run sets.

/// The most predicate calls that may be open at a time. One more is Deep. The check's own expression stands at depth 0.
pub const MOST_DEPTH: usize = 4_096;

// Code and definitions take the same number: a changed one is refused here.
const _: () = prove!(MOST_DEPTH == 4_096);
