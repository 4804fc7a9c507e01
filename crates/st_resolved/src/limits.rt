//! The most that a program may have of each. Fields, check statements and arguments have their limits with the shape, and
//! threads with the sizes, in st_events.

/// The most predicates of a program.
pub const MOST_PREDS: usize = 64;
/// The most procedures of a program.
pub const MOST_PROCS: usize = 64;
/// The most parameters of a predicate or a procedure.
pub const MOST_PARAMS: usize = 8;
/// The most locals of a body, its parameters included.
pub const MOST_LOCALS: usize = 32;

// Code and definitions take the same four numbers: a changed one is refused here.
const _: () = prove!(MOST_PREDS == 64 && MOST_PROCS == 64 && MOST_PARAMS == 8 && MOST_LOCALS == 32);
