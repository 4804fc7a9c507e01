//! What a run may use.
ghost use Rattle.std.specs.Prelude.{◌≡◌};

use st_events::{Sizes, USUAL_CALLS, USUAL_COPIES, USUAL_EVENTS, USUAL_LANES, USUAL_OBJECTS};

/// The sizes of a run but for the count of its threads, which the text tells.
#[derive(Clone, Copy, Debug)]
pub struct Amounts {
    pub lanes: u8,
    pub objects: u32,
    pub copies: u32,
    pub events: u32,
    pub calls: u32,
}

impl Amounts {
    /// What a run has where nothing else is asked for.
    pub const USUAL: Amounts = Amounts {
        lanes: USUAL_LANES,
        objects: USUAL_OBJECTS,
        copies: USUAL_COPIES,
        events: USUAL_EVENTS,
        calls: USUAL_CALLS,
    };

    /// The sizes of a run of so many threads.
    pub fn sizes(self, mutators: u8) -> Sizes
        ensures { result ≡ record { mutators = mutators; lanes = self.lanes; objects = self.objects; copies = self.copies; events = self.events; calls = self.calls } }
    {
        Sizes {
            mutators,
            lanes: self.lanes,
            objects: self.objects,
            copies: self.copies,
            events: self.events,
            calls: self.calls,
        }
    }
}
