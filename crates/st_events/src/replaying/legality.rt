//! The first reason why an event is not legal after what a replay has seen, a function for each kind of event.
ghost use Rattle.std.specs.Prelude.{◌≡◌};
ghost use Rattle.st_events.specs.Seen.{reason_of};
ghost use Rattle.st_events.specs.declared.events.Event.TheVariants.{New, Load, Store, Cas, Launch, Retire};

use super::Replay;
use crate::errors::Why;
use crate::events::{Args, Event};

impl<'a> Replay<'a> {
    /// The first reason why the event is not legal now, if it is not.
    pub(crate) fn why_not(&self, event: Event) -> Option<Why>
        ensures { result ≡ reason_of self.now event }
    {
        match event {
            Event::New { m, obj, class } => self.why_not_new(m, obj, class),
            Event::Load {
                m,
                obj,
                field,
                value,
            } => self.why_not_load(m, obj, field, value),
            Event::Store {
                m,
                obj,
                field,
                value,
            } => self.why_not_store(m, obj, field, value),
            Event::Cas {
                m,
                obj,
                field,
                expect,
                value,
                done,
            } => self.why_not_cas(m, obj, field, expect, value, done),
            Event::Launch {
                m,
                number,
                site,
                args,
            } => self.why_not_launch(m, number, site, args),
            Event::Retire { m, number } => self.why_not_retire(m, number),
        }
    }

    fn why_not_new(&self, m: u8, obj: u32, class: u8) -> Option<Why>
        ensures { result ≡ reason_of self.now (New m obj class) }
    {
        if m >= self.sizes.mutators {
            return Some(Why::WrongThread);
        }
        if !self.is_next(m, obj) {
            return Some(Why::WrongObject);
        }
        if self.made_by(m) >= self.sizes.objects {
            return Some(Why::WrongObject);
        }
        if class == 0 || class as usize >= self.shape.class_count() {
            return Some(Why::WrongField);
        }
        None
    }

    fn why_not_load(&self, m: u8, obj: u32, field: u8, value: u64) -> Option<Why>
        ensures { result ≡ reason_of self.now (Load m obj field value) }
    {
        if m >= self.sizes.mutators {
            return Some(Why::WrongThread);
        }
        if self.heap.class(obj).is_none() {
            return Some(Why::WrongObject);
        }
        match self.heap.get(obj, field) {
            None => Some(Why::WrongField),
            Some(word) => {
                if word == value {
                    None
                } else {
                    Some(Why::WrongValue)
                }
            }
        }
    }

    fn why_not_store(&self, m: u8, obj: u32, field: u8, value: u64) -> Option<Why>
        ensures { result ≡ reason_of self.now (Store m obj field value) }
    {
        if m >= self.sizes.mutators {
            return Some(Why::WrongThread);
        }
        if self.heap.class(obj).is_none() {
            return Some(Why::WrongObject);
        }
        if self.heap.get(obj, field).is_none() {
            return Some(Why::WrongField);
        }
        if !self.fits_cell(obj, field, value) {
            return Some(Why::WrongValue);
        }
        None
    }

    fn why_not_cas(
        &self,
        m: u8,
        obj: u32,
        field: u8,
        expect: u64,
        value: u64,
        done: bool,
    ) -> Option<Why>
        ensures { result ≡ reason_of self.now (Cas m obj field expect value done) }
    {
        if m >= self.sizes.mutators {
            return Some(Why::WrongThread);
        }
        if self.heap.class(obj).is_none() {
            return Some(Why::WrongObject);
        }
        let word = match self.heap.get(obj, field) {
            Some(word) => word,
            None => return Some(Why::WrongField),
        };
        if !self.fits_cell(obj, field, expect) {
            return Some(Why::WrongValue);
        }
        if !self.fits_cell(obj, field, value) {
            return Some(Why::WrongValue);
        }
        if done != (word == expect) {
            return Some(Why::WrongDone);
        }
        None
    }

    fn why_not_launch(&self, m: u8, number: u32, site: u16, args: Args) -> Option<Why>
        ensures { result ≡ reason_of self.now (Launch m site number args) }
    {
        if m >= self.sizes.mutators {
            return Some(Why::WrongThread);
        }
        if !self.is_next_number(number) {
            return Some(Why::WrongNumber);
        }
        let kinds = match self.shape.check_kinds(site) {
            Some(kinds) => kinds,
            None => return Some(Why::WrongSite),
        };
        if !self.args_fit(kinds, args) {
            return Some(Why::WrongValue);
        }
        if self.active.len() >= self.sizes.lanes as usize {
            return Some(Why::NoLane);
        }
        None
    }

    fn why_not_retire(&self, m: u8, number: u32) -> Option<Why>
        ensures { result ≡ reason_of self.now (Retire m number) }
    {
        if m > self.sizes.mutators {
            return Some(Why::WrongThread);
        }
        if !self.is_active(number) {
            return Some(Why::WrongNumber);
        }
        None
    }
}
