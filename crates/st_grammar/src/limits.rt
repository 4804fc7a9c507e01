//! The limit of a source that no crate below has.

/// The most tokens between two neighbouring ones of `;`, `{` and `}`, or between one of these and the start or the end.
pub const MOST_TOKENS_BETWEEN: usize = 128;

// Code and definitions take the same number: a changed one is refused here.
const _: () = prove!(MOST_TOKENS_BETWEEN == 128);
