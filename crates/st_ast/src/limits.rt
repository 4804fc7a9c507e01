//! The limits of a source that several crates know.

/// The most classes of a source.
pub const MOST_SOURCE_CLASSES: usize = 64;
/// The most braces `{` that are open at a time. So no more blocks stand one in another.
pub const MOST_OPEN_BRACES: usize = 16;

// Code and definitions take the same two numbers: a changed one is refused here.
const _: () = prove!(MOST_SOURCE_CLASSES == 64 && MOST_OPEN_BRACES == 16);
