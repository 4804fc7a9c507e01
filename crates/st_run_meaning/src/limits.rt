//! The numbers from which turns are chosen.

/// What a number is multiplied by to make the next one.
pub const MULTIPLIER: u64 = 6_364_136_223_846_793_005;
/// What is added then. The sum counts modulo 2^64.
pub const INCREMENT: u64 = 1_442_695_040_888_963_407;
/// How many low bits of a number have no part in the choice: they repeat soon.
pub const LOW_BITS: u32 = 33;

// Code and definitions take the same three numbers: a changed digit is refused here.
const _: () = prove!(
    MULTIPLIER == 6_364_136_223_846_793_005
        && INCREMENT == 1_442_695_040_888_963_407
        && LOW_BITS == 33
);
