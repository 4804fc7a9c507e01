//! The accesses that the steps on objects make, each with the word that it may write. Here each is proved to keep the rule.
//!
//! Why each keeps it, whatever the other threads did before:
//! - A header names who holds its object. It is taken only where nobody does, and written back only by who does, so an object has one holder
//!   at a time, and only its holder writes its class and fields.
//! - So what a holder has loaded of a field is what the heap has there, until it draws an event itself. The ticket is drawn while the object is
//!   held: at that step the event joins the journal, and the value that it tells is the heap's.
//! - After the draw of a change the field still shows the old word, until its holder writes it. Nobody else can look, since nobody else
//!   holds the object. The header gets the epoch as its stamp last, which is the epoch of the draw: no check is launched while a seat is inside.
//! - The next object of a mutator's region is held by nobody else, and its header is 0. So its lock is never refused.
//! - The board's words stay as they are while some seat is inside, since only who is alone writes them.
ghost use Rattle.std.specs.Prelude.{◌≡◌, ◌+◌, ◌<◌, [], ◌∷◌, ◌++◌, length, Some, vec_len, vec_capacity};
ghost use Rattle.st_layout.specs.declared.limits.TheConstants.{MOST_FIELDS};
ghost use Rattle.st_layout.specs.Packed.{packed, high_half};
ghost use Rattle.st_events.specs.declared.events.Event.{Event};
ghost use Rattle.st_rule.specs.declared.views.Phase.TheVariants.{Inside};
ghost use Rattle.st_rule.specs.Draws.{MayLock, MayUnlock, HasInHand, AwaitsField, AwaitsClass, MayDraw, MayLoadBoard};
ghost use Rattle.st_rule.specs.Entries.{news_of};
ghost use Rattle.st_rule.specs.Needs.{copies_of};
ghost use Rattle.st_rule.specs.Plays.{Finds, FindsAndLearns, FindsBoard, FindsLock, FindsAndDraws};
ghost use Rattle.st_rule.specs.Seats.{IsSeatOf, IsSameSeat, IsFair, HoldsNothing};
ghost use Rattle.st_rule.specs.Turns.{looked_last, unlocked, field_found, word_written};

use crate::plays::{BoardLoad, Draw, Drawn, FieldLoad, LastLook, Lock, Unlock, WordStore};
use crate::seats::MutSeat;
use crate::tables::Shared;
use crate::views::Entry;
use st_events::{Event, Judge};
use st_layout::{hi, pack};

impl<J: Judge> Shared<J> {
    /// Loads the clock, for a seat that wants to have seen the whole journal.
    pub(crate) fn load_clock(&self, seat: &mut MutSeat<J>) -> u64
        requires table { IsSeatOf J.meant self.now seat.old }
        ensures seat { IsSameSeat seat.old seat.new }
        ensures fair { IsFair seat.new }
        ensures view { FindsAndLearns looked_last seat.old.view seat.new.view }
        ensures found { seat.new.view.tally.found ≡ Some result }
        ensures counts { high_half result ≡ length seat.new.view.journal.seen }
    {
        let word = self.clock_place();
        self.table.shared.load::<LastLook>(&mut seat.seat, word)
    }

    /// Loads a word of the board.
    pub(crate) fn load_board(&self, seat: &mut MutSeat<J>, word: u32) -> u64
        requires table { IsSeatOf J.meant self.now seat.old }
        requires board { MayLoadBoard seat.old.view word }
        ensures seat { IsSameSeat seat.old seat.new }
        ensures fair { IsFair seat.new }
        ensures view { FindsBoard word seat.old.view seat.new.view }
        ensures found { seat.new.view.tally.found ≡ Some result }
    {
        self.table
            .shared
            .load::<BoardLoad>(&mut seat.seat, word as usize)
    }

    /// Exchanges the header of an object, where nobody holds it, for what says that this seat does.
    pub(crate) fn exchange_header(
        &self,
        seat: &mut MutSeat<J>,
        obj: u32,
        stamp: u32,
        free: u64,
        mine: u64,
    ) -> u64
        requires table { IsSeatOf J.meant self.now seat.old }
        requires phase { seat.old.view.gate.phase ≡ Inside }
        requires hand { HoldsNothing seat.old }
        requires object { MayLock seat.old.view obj }
        requires free { free ≡ packed stamp 0 }
        requires own { mine ≡ packed stamp (seat.old.view.gate.number + 1) }
        ensures seat { IsSameSeat seat.old seat.new }
        ensures fair { IsFair seat.new }
        ensures view { FindsLock obj stamp seat.old.view seat.new.view }
        ensures found { seat.new.view.tally.found ≡ Some result }
    {
        seat.is_fair();
        let word = self.header_place(obj);
        self.table
            .shared
            .compare_exchange::<Lock>(&mut seat.seat, word, free, mine)
    }

    /// Stores to the header of the held object, which must say that nobody holds it.
    pub(crate) fn store_header(&self, seat: &mut MutSeat<J>, obj: u32, stamp: u32, value: u64)
        requires table { IsSeatOf J.meant self.now seat.old }
        requires hand { MayUnlock seat.old.view obj stamp }
        requires nobody { value ≡ packed stamp 0 }
        ensures seat { IsSameSeat seat.old seat.new }
        ensures fair { IsFair seat.new }
        ensures view { seat.new.view ≡ unlocked seat.old.view }
    {
        seat.is_fair();
        let word = self.header_place(obj);
        self.table
            .shared
            .store::<Unlock>(&mut seat.seat, word, value);
    }

    /// Loads a field of the held object.
    pub(crate) fn load_field(&self, seat: &mut MutSeat<J>, obj: u32, field: u8) -> u64
        requires table { IsSeatOf J.meant self.now seat.old }
        requires hand { HasInHand seat.old.view obj }
        requires field { field < MOST_FIELDS }
        ensures seat { IsSameSeat seat.old seat.new }
        ensures fair { IsFair seat.new }
        ensures view { Finds (field_found field) seat.old.view seat.new.view }
        ensures found { seat.new.view.tally.found ≡ Some result }
    {
        seat.is_fair();
        let word = self.field_place(obj, field);
        self.table.shared.load::<FieldLoad>(&mut seat.seat, word)
    }

    /// Stores to the field that the change in flight sets, which must be its word.
    pub(crate) fn store_field(&self, seat: &mut MutSeat<J>, obj: u32, field: u8, value: u64)
        requires table { IsSeatOf J.meant self.now seat.old }
        requires flight { AwaitsField seat.old.view obj field value }
        requires field { field < MOST_FIELDS }
        ensures seat { IsSameSeat seat.old seat.new }
        ensures fair { IsFair seat.new }
        ensures view { seat.new.view ≡ word_written seat.old.view }
    {
        seat.is_fair();
        let word = self.field_place(obj, field);
        self.table
            .shared
            .store::<WordStore>(&mut seat.seat, word, value);
    }

    /// Stores to the class word of the object that the New in flight makes, which must be its class number.
    pub(crate) fn store_class(&self, seat: &mut MutSeat<J>, obj: u32, value: u64)
        requires table { IsSeatOf J.meant self.now seat.old }
        requires flight { AwaitsClass seat.old.view obj value }
        ensures seat { IsSameSeat seat.old seat.new }
        ensures fair { IsFair seat.new }
        ensures view { seat.new.view ≡ word_written seat.old.view }
    {
        seat.is_fair();
        let word = self.class_place(obj);
        self.table
            .shared
            .store::<WordStore>(&mut seat.seat, word, value);
    }

    /// Adds to the clock, and writes the event with its ticket into the seat's own list.
    pub(crate) fn add_clock<D: Drawn>(&self, seat: &mut MutSeat<J>, event: Event, copy: bool) -> u64
        requires table { IsSeatOf J.meant self.now seat.old }
        requires picked { D.event ≡ event }
        requires event { MayDraw seat.old.view event copy }
        ensures seat { IsSameSeat seat.old seat.new }
        ensures fair { IsFair seat.new }
        ensures view { FindsAndDraws event seat.old.view seat.new.view }
        ensures found { seat.new.view.tally.found ≡ Some result }
    {
        let word = self.clock_place();
        let added = ticket_and_index(copy);
        let found = self
            .table
            .shared
            .fetch_add::<Draw<D>>(&mut seat.seat, word, added);
        keep_entry(&mut seat.entries, hi(found) as u32, event);
        seat.spare -= 1;
        seat.room -= objects_made(&event);
        found
    }
}

/// What a draw adds to the clock: one ticket, and one index where it takes a copy.
fn ticket_and_index(copy: bool) -> u64
    ensures { result ≡ packed 1 (copies_of copy) }
{
    if copy { pack(1, 1) } else { pack(1, 0) }
}

/// Writes an event with its ticket at the end of a seat's list.
fn keep_entry(entries: &mut Vec<Entry>, ticket: u32, event: Event)
    requires room { vec_len entries.old < vec_capacity entries.old }
    ensures items { entries.new.items ≡ entries.old.items ++ record { ticket = ticket; event = event } ∷ [] }
    ensures capacity { vec_capacity entries.new ≡ vec_capacity entries.old }
{
    entries.push_reserved(Entry { ticket, event });
}

/// How many objects an event makes.
fn objects_made(event: &Event) -> u32
    ensures { result ≡ news_of event.now }
{
    match event {
        Event::New { .. } => 1,
        _ => 0,
    }
}
