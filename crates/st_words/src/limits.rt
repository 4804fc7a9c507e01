//! Limits of the words alone. Those of a run's sizes are st_events'.

/// The most checking threads of a run.
pub const MOST_CHECKERS: u8 = 8;
/// The checking threads of a run where nothing else is asked for.
pub const USUAL_CHECKERS: u8 = 2;
/// The most turns of each thread of a generated source.
pub const MOST_TURNS: u32 = 1_000;
/// The most digits of a number, leading zeros included.
pub(crate) const MOST_DIGITS: usize = 20;

// The numbers of the table of options, once more.
const _: () = prove!(
    MOST_CHECKERS == 8 && USUAL_CHECKERS == 2 && MOST_TURNS == 1_000 && MOST_DIGITS == 20
);
