//! The sizes of a run, and the table of their limits.
ghost use Rattle.std.specs.Prelude.{◌≡◌, ◌≤◌, ◌↔◌, IsTrue};

/// The most threads that a program may have.
pub const MOST_MUTATORS: u8 = 8;
/// The most checks that may be active at a time.
pub const MOST_LANES: u8 = 8;
/// The most objects that one mutator may make.
pub const MOST_OBJECTS: u32 = 16_384;
/// The largest pool of copies.
pub const MOST_COPIES: u32 = 1_048_576;
/// The largest charge of a mutator.
pub const MOST_EVENTS: u32 = 1_048_576;
/// The most predicate calls of one check.
pub const MOST_CALLS: u32 = 1_000_000;

/// How many checks may be active at a time where nothing else is asked for.
pub const USUAL_LANES: u8 = 8;
/// How many objects each mutator may make where nothing else is asked for.
pub const USUAL_OBJECTS: u32 = 4_096;
/// The pool of copies where nothing else is asked for.
pub const USUAL_COPIES: u32 = 4_096;
/// The charge of each mutator where nothing else is asked for.
pub const USUAL_EVENTS: u32 = 65_536;
/// The budget of each check where nothing else is asked for.
pub const USUAL_CALLS: u32 = 100_000;

/// What an event takes of its mutator's charge.
pub const EVENT_COST: u32 = 1;
/// What a launch takes of it: the Retire of its check is paid, too.
pub const LAUNCH_COST: u32 = 2;

/// The sizes of a run.
#[derive(Clone, Copy, Debug, PartialEq, Eq)]
pub struct Sizes {
    /// How many threads the program has.
    pub mutators: u8,
    /// How many checks may be active at a time.
    pub lanes: u8,
    /// How many objects each mutator may make.
    pub objects: u32,
    /// How many copies of old versions can be kept at a time, for all mutators and checks together.
    pub copies: u32,
    /// The charge of each mutator, which bounds its events.
    pub events: u32,
    /// The budget of predicate calls of each check.
    pub calls: u32,
}

impl Sizes {
    ghost use Rattle.st_events.specs.Sizes.{AreWithinLimits, usual_sizes};

    /// The sizes of a program with so many threads, where nothing else is asked for.
    pub fn usual(mutators: u8) -> Sizes
        requires { mutators ≤ MOST_MUTATORS }
        ensures usual { result ≡ usual_sizes mutators }
        ensures fits { AreWithinLimits result }
    {
        Sizes {
            mutators,
            lanes: USUAL_LANES,
            objects: USUAL_OBJECTS,
            copies: USUAL_COPIES,
            events: USUAL_EVENTS,
            calls: USUAL_CALLS,
        }
    }

    /// Whether each number is within the table of limits.
    pub fn fits(&self) -> bool
        ensures { IsTrue result ↔ AreWithinLimits self.now }
    {
        self.mutators <= MOST_MUTATORS
            && (1..=MOST_LANES).contains(&self.lanes)
            && (1..=MOST_OBJECTS).contains(&self.objects)
            && self.copies <= MOST_COPIES
            && (1..=MOST_EVENTS).contains(&self.events)
            && self.calls <= MOST_CALLS
    }
}
