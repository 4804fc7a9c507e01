//! What forwarding words say.

/// The low half of a forwarding word whose version is lost. Else it is one more than a copy's number.
pub const LOST: u32 = 4_294_967_295;

// Code and definitions take the same word: a changed one is refused here.
const _: () = prove!(LOST == 4_294_967_295);
