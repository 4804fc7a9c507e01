//! What steps that are no events take of a thread's charge, and how deep its calls may be. What an event takes is said in st_events.

/// What one turn of a loop takes, before its condition is evaluated.
pub const TURN_COST: u32 = 1;
/// What a call of a procedure takes, once it is known that it is not too deep.
pub const CALL_COST: u32 = 1;
/// The most procedure calls that may be open at a time. The thread's own body stands at depth 0.
pub const MOST_OPEN_CALLS: usize = 256;

// Code and definitions take the same three numbers: a changed one is refused here.
const _: () = prove!(TURN_COST == 1 && CALL_COST == 1 && MOST_OPEN_CALLS == 256);
