//! Where each thing stands: the single words at the start of the table, and the words within a cell, a copy and a row.

use crate::limits::{MOST_COPIES, MOST_FIELDS, MOST_LANES, MOST_MUTATORS, MOST_OBJECTS, MOST_ROWS};

/// The word that says who closes the gate.
pub const CLOSING_WORD: u32 = 0;
/// The clock's word.
pub const CLOCK_WORD: u32 = 1;
/// The word of the launches so far.
pub const EPOCH_WORD: u32 = 2;
/// The word of the free list's length.
pub const AVAILABLE_WORD: u32 = 3;
/// The first flag, after the single words.
pub const FIRST_FLAG: u32 = 4;

/// The cells that each plan has: cell 0, which is unused, and the shared object's.
pub const FIXED_CELLS: u32 = 2;

/// Within a cell, the class number.
pub const CLASS_INDEX: u32 = 0;
/// Within a cell, the header.
pub const HEADER_INDEX: u32 = 1;
/// Within a cell, the forwarding word of lane 0.
pub const FORWARDS_INDEX: u32 = 2;
/// Within a cell, field 0.
pub const FIELDS_INDEX: u32 = FORWARDS_INDEX + MOST_LANES as u32;

/// The words of a cell. The last of them are unused.
pub const CELL_WORDS: u32 = 24;
/// The words of a copy: the object's number, then the fields.
pub const COPY_WORDS: u32 = 1 + MOST_FIELDS as u32;
/// The words of a check's row.
pub const ROW_WORDS: u32 = 3;

const _: () = prove!(FIELDS_INDEX + MOST_FIELDS as u32 <= CELL_WORDS);

/// The words of the largest table.
pub const MOST_WORDS: u32 = FIRST_FLAG
    + (MOST_MUTATORS as u32 + 1)
    + MOST_LANES as u32
    + (FIXED_CELLS + MOST_MUTATORS as u32 * MOST_OBJECTS) * CELL_WORDS
    + MOST_COPIES * COPY_WORDS
    + MOST_COPIES
    + MOST_ROWS * ROW_WORDS;

// Code and definitions take the same sizes of the parts: a changed one is refused here.
const _: () = prove!(
    FIXED_CELLS == 2
        && CELL_WORDS == 24
        && COPY_WORDS == 13
        && ROW_WORDS == 3
        && MOST_WORDS == 30_408_773
);
