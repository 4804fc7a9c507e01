//! The statuses that the program ends with, beside those of a run: 0 where every check holds, 4 where some thread does not
//! come to its end, 1 where some check fails, 8 where some check has no answer.

use st_report::{STATUS_CHECK_FAILS, STATUS_HOLDS, STATUS_UNDECIDED, STATUS_UNFINISHED};

/// The status where the words are refused.
pub const STATUS_WORDS: u8 = 2;
/// The status where the source or the journal is refused.
pub const STATUS_INPUT: u8 = 3;
/// The status where a read of a file failed.
pub const STATUS_READ_FAULT: u8 = 5;
/// The status where a write of the output failed.
pub const STATUS_WRITE_FAULT: u8 = 6;
/// The status where there was no memory.
pub const STATUS_NO_MEMORY: u8 = 7;

/// The status of a command that has no checks to speak of: it was done.
pub(crate) const STATUS_DONE: u8 = STATUS_HOLDS;
/// The status of an audit that found something.
pub(crate) const STATUS_FOUND: u8 = STATUS_CHECK_FAILS;

// The numbers of the table in README.md, once more.
const _: () = prove!(
    STATUS_HOLDS == 0
        && STATUS_CHECK_FAILS == 1
        && STATUS_WORDS == 2
        && STATUS_INPUT == 3
        && STATUS_UNFINISHED == 4
        && STATUS_READ_FAULT == 5
        && STATUS_WRITE_FAULT == 6
        && STATUS_NO_MEMORY == 7
        && STATUS_UNDECIDED == 8
);
