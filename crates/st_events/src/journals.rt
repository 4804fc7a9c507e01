//! A list of events with room reserved for more.
ghost use Rattle.std.specs.Prelude.{◌≡◌, ◌+◌, ◌-◌, ◌^◌, ◌<◌, ◌≤◌, [], ◌∷◌, ◌++◌, length, IfOk, OnOk, OnErr, IsErr};

use crate::errors::NoMemory;
use crate::events::Event;
use std::alloc::Global;
use std::marker::Model;

/// A list of events in the order of their tickets. Contracts see the list, and beside it the spare: how many more
/// events it takes without asking for memory.
#[derive(Drop)]
pub struct Journal {
    events: Vec<Event>,
    spare: u32,
}

impl Model for Journal {
    ghost use Rattle.std.specs.Prelude.{◌+◌, ◌^◌, ◌<◌, ◌≤◌, vec_len, vec_capacity};
    ghost use Rattle.st_events.specs.Journal.{Written};

    ghost Value = { Written };

    ghost view = { λ j. record { events = j.events.items; spare = j.spare } };

    ghost invariant = { λ j. (vec_len j.events + j.spare ≤ vec_capacity j.events) × (vec_len j.events < 2 ^ 32) };
}

impl Journal {
    /// An empty journal with a spare of at least `room`.
    pub fn with_room(alloc: Global, room: u32) -> Result<Journal, NoMemory>
        ensures empty { IfOk result (λ journal. journal.events ≡ []) }
        ensures spare { IfOk result (λ journal. room ≤ journal.spare) }
    {
        Ok(Journal {
            events: Vec::with_capacity(alloc, room as usize)?,
            spare: room,
        })
    }

    /// Appends `event`. With a spare above 0 it takes no memory and succeeds; at 0 it asks for memory, and where
    /// that is refused nothing has changed.
    pub fn push(&mut self, event: Event) -> Result<(), NoMemory>
        requires { length self.old.events < 2 ^ 32 - 1 }
        ensures ok { OnOk result (self.new.events ≡ self.old.events ++ event ∷ []) }
        ensures spare { OnOk result (self.new.spare ≡ self.old.spare - 1) }
        ensures no_memory_only_without_spare { IsErr result → self.old.spare ≡ 0 }
        ensures err { OnErr result (self.new ≡ self.old) }
    {
        if self.spare == 0 {
            self.events.push(event)?;
        } else {
            self.events.push_reserved(event);
            self.spare -= 1;
        }
        Ok(())
    }

    /// How many events `push` takes without asking for memory.
    pub fn spare(&self) -> u32
        ensures { result ≡ self.now.spare }
    {
        self.spare
    }

    /// How many events there are.
    pub fn len(&self) -> u32
        ensures { result ≡ length self.now.events }
    {
        self.events.len() as u32
    }

    /// The events, in the order of their tickets.
    pub fn events(&self) -> &[Event]
        ensures { result.now ≡ self.now.events }
    {
        self.events.as_slice()
    }

    /// Hands the events out, in the order of their tickets, without taking memory.
    pub fn into_events(self) -> Vec<Event>
        ensures { result.items ≡ self.events }
    {
        let Journal { events, spare: _ } = self;
        events
    }
}
