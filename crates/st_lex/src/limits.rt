//! The limits of a source text and of the numbers in it.

/// The most bytes of a source text.
pub const MOST_SOURCE_BYTES: usize = 1_048_576;
/// The largest number that a source text may name.
pub const LARGEST_NUMBER: u64 = 9_223_372_036_854_775_807;

// Code and definitions take the same two numbers: a changed one is refused here.
const _: () = prove!(MOST_SOURCE_BYTES == 1_048_576 && LARGEST_NUMBER == 9_223_372_036_854_775_807);
