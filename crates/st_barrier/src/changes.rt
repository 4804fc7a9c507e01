//! A change of one field of a held object.
ghost use Rattle.std.specs.Prelude.{◌≡◌};
ghost use Rattle.st_barrier.specs.Keeping.{event_of_change};

use st_events::Event;

/// What is changed, and by which event.
#[derive(Clone, Copy)]
pub(crate) struct FieldChange {
    pub obj: u32,
    /// The stamp that the object's header had when it was locked.
    pub stamp: u32,
    pub field: u8,
    /// The field's new word.
    pub value: u64,
    /// A Store, or a Cas that is done.
    pub event: Event,
}

/// The event of a change by a mutator: a Store where no word is told as found, and else the Cas that found it.
pub(crate) fn change_event(m: u8, obj: u32, field: u8, value: u64, found: Option<u64>) -> Event
    ensures { result ≡ event_of_change m obj field value found }
{
    match found {
        None => Event::Store {
            m,
            obj,
            field,
            value,
        },
        Some(expect) => Event::Cas {
            m,
            obj,
            field,
            expect,
            value,
            done: true,
        },
    }
}
