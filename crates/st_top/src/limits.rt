//! The sizes of a demonstration, the seeds, and how long a journal may be.

/// The most bytes of a journal file that is audited.
pub const MOST_JOURNAL_BYTES: u32 = 67_108_864;

/// The seed of a run whose words name none.
pub(crate) const USUAL_SEED: u64 = 0;

/// The seed of a demonstration.
pub(crate) const DEMO_SEED: u64 = 0;
/// How many checks of a demonstration may be active at a time.
pub(crate) const DEMO_LANES: u8 = 8;
/// How many objects each thread of a demonstration may make.
pub(crate) const DEMO_OBJECTS: u32 = 16_384;
/// The pool of copies of a demonstration.
pub(crate) const DEMO_COPIES: u32 = 65_536;
/// The charge of each thread of a demonstration.
pub(crate) const DEMO_EVENTS: u32 = 1_048_576;
/// The budget of each check of a demonstration.
pub(crate) const DEMO_CALLS: u32 = 1_000_000;

// Each number once more, since the contracts take it from here.
const _: () = prove!(
    MOST_JOURNAL_BYTES == 67_108_864
        && USUAL_SEED == 0
        && DEMO_SEED == 0
        && DEMO_LANES == 8
        && DEMO_OBJECTS == 16_384
        && DEMO_COPIES == 65_536
        && DEMO_EVENTS == 1_048_576
        && DEMO_CALLS == 1_000_000
);
