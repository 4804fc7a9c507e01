//! The version of the format.

/// The version that is written, and the only one that is read.
pub const VERSION: u32 = 1;

const _: () = prove!(VERSION == 1);
