//! The most of each thing that a plan has room for.

/// The most threads of a program.
pub const MOST_MUTATORS: u8 = 8;
/// The most checks that are active at a time.
pub const MOST_LANES: u8 = 8;
/// The most objects of one mutator.
pub const MOST_OBJECTS: u32 = 16_384;
/// The largest pool of copies.
pub const MOST_COPIES: u32 = 1_048_576;
/// The most launches of a run, each of which has a row.
pub const MOST_ROWS: u32 = 4_194_304;
/// The most fields of a class, and the most shared variables.
pub const MOST_FIELDS: u8 = 12;

// Code and definitions take the same six numbers: a changed one is refused here.
const _: () = prove!(
    MOST_MUTATORS == 8
        && MOST_LANES == 8
        && MOST_OBJECTS == 16_384
        && MOST_COPIES == 1_048_576
        && MOST_ROWS == 4_194_304
        && MOST_FIELDS == 12
);
