//! What the events so far say of copies: stamps, active checks, and which copies are kept. So it is known when the pool is full.
ghost use Rattle.std.specs.Prelude.{◌≡◌, ◌≢◌, ◌<◌, ◌≤◌, ◌+◌, ◌^◌, length, drop, slice_index, IfSome, IfNone, IfOk, OnOk, EachIndex};
ghost use Rattle.st_events.specs.Terms.{AreWithinLimits, without};
ghost use Rattle.st_audit.specs.Ledgers.{is_full_in, stamp_in, stamped, copied_if_needed, copied, launched, rows_since, count_needed, retired, noted};
ghost use Rattle.st_audit.specs.Balance.{CanNote, IsBalanced, first_books};

use crate::rows::{Row, count_needed, is_needed};
use st_events::{Event, FIRST_OF_REGIONS, NoMemory, Sizes};
use std::alloc::Global;
use std::marker::Model;

/// What the events so far say of copies.
#[derive(Debug, Drop)]
pub(crate) struct Ledger {
    /// How many copies the pool has.
    copies: u32,
    /// How many checks were launched.
    epoch: u32,
    /// Of each object the epoch at its New or its last change.
    stamps: Vec<u32>,
    /// The numbers of the active checks, in the order of their launches.
    active: Vec<u32>,
    /// Each row that was ever kept, in order.
    rows: Vec<Row>,
    /// At each launch, how many rows there were.
    before: Vec<usize>,
    /// How many rows some active check needs.
    kept: usize,
}

impl Model for Ledger {
    ghost use Rattle.st_audit.specs.Ledgers.{Books};

    ghost Value = { Books };

    ghost view = { λ l. record { copies = l.copies; epoch = l.epoch; stamps = l.stamps.items; active = l.active.items; rows = l.rows.items; before = l.before.items; kept = l.kept } };

    ghost invariant = { λ l. Unit {0} };
}

impl Ledger {
    /// Before the first event.
    pub(crate) fn start(alloc: Global, sizes: &Sizes) -> Result<Ledger, NoMemory>
        requires { AreWithinLimits sizes.now }
        ensures { IfOk result (λ ledger. ledger ≡ first_books sizes.now) }
    {
        let room = FIRST_OF_REGIONS + sizes.mutators as usize * sizes.objects as usize;
        Ok(Ledger {
            copies: sizes.copies,
            epoch: 0,
            stamps: vec![in alloc; 0; room]?,
            active: Vec::new(alloc),
            rows: Vec::new(alloc),
            before: Vec::new(alloc),
            kept: 0,
        })
    }

    /// Whether no copy is left.
    pub(crate) fn is_full(&self) -> bool
        ensures { result ≡ is_full_in self.now }
    {
        self.kept >= self.copies as usize
    }

    /// The active checks, in the order of their launches.
    pub(crate) fn active(&self) -> &[u32]
        ensures { result.now ≡ self.now.active }
    {
        self.active.as_slice()
    }

    /// The epoch at the object's New or its last change; 0 where there is no such object.
    pub(crate) fn stamp(&self, obj: u32) -> u32
        ensures { result ≡ stamp_in self.now obj }
    {
        match self.stamps.get(obj as usize) {
            Some(stamp) => *stamp,
            None => 0,
        }
    }

    /// Takes in an event.
    pub(crate) fn note(&mut self, event: Event) -> Result<(), NoMemory>
        requires can { CanNote event self.old }
        requires balance { IsBalanced self.old }
        ensures { OnOk result (self.new ≡ noted event self.old) }
    {
        match event {
            Event::New { obj, .. } => self.stamp_now(obj),
            Event::Load { .. } => {}
            Event::Store { obj, .. } => self.change(obj)?,
            Event::Cas { obj, done, .. } => {
                if done {
                    self.change(obj)?;
                }
            }
            Event::Launch { number, .. } => self.launch(number)?,
            Event::Retire { number, .. } => self.retire(number),
        }
        Ok(())
    }

    /// The object's stamp is the epoch from now on.
    fn stamp_now(&mut self, obj: u32)
        requires { obj < length self.old.stamps }
        ensures { self.new ≡ stamped obj self.old }
    {
        self.stamps[obj as usize] = self.epoch;
    }

    /// Keeps a copy, where some check needs the old version and a copy is left.
    fn change(&mut self, obj: u32) -> Result<(), NoMemory>
        requires object { obj < length self.old.stamps }
        requires kept { self.old.kept ≤ length self.old.rows }
        ensures { OnOk result (self.new ≡ stamped obj (copied obj self.old)) }
    {
        if !self.is_full() {
            self.copy(obj)?;
        }
        self.stamp_now(obj);
        Ok(())
    }

    /// Keeps a copy, where some check needs the old version.
    fn copy(&mut self, obj: u32) -> Result<(), NoMemory>
        requires { self.old.kept ≤ length self.old.rows }
        ensures { OnOk result (self.new ≡ copied_if_needed obj self.old) }
    {
        let row = Row {
            after: self.stamp(obj),
            up_to: self.epoch,
        };
        if is_needed(self.active.as_slice(), row) {
            self.rows.push(row)?;
            self.kept += 1;
        }
        Ok(())
    }

    /// Notes how many rows there are, for the check's Retire.
    fn launch(&mut self, number: u32) -> Result<(), NoMemory>
        requires { self.old.epoch + 1 < 2 ^ 32 }
        ensures { OnOk result (self.new ≡ launched number self.old) }
    {
        self.before.push(self.rows.len())?;
        self.active.push(number)?;
        self.epoch += 1;
        Ok(())
    }

    /// The rows that are needed by no other check are free again. Such a row was kept since the check's launch.
    fn retire(&mut self, number: u32)
        requires number { 1 ≤ number }
        requires kept { count_needed self.old.active (rows_since number self.old) ≤ self.old.kept }
        requires few { self.old.kept ≤ length self.old.rows }
        requires rows { length self.old.rows < 2 ^ 32 }
        ensures { self.new ≡ retired number self.old }
    {
        let needed = self.count_since(number);
        drop_number(&mut self.active, number);
        let left = self.count_since(number);
        self.kept = self.kept - needed + left;
    }

    /// How many rows that were kept since the check's launch some active check needs.
    fn count_since(&self, number: u32) -> usize
        requires { 1 ≤ number }
        ensures { result ≡ count_needed self.now.active (rows_since number self.now) }
    {
        let first = match self.before.get((number - 1) as usize) {
            Some(first) => *first,
            None => 0,
        };
        count_needed(self.active.as_slice(), rest_of(self.rows.as_slice(), first))
    }
}

/// The rows from this place on.
fn rest_of(rows: &[Row], first: usize) -> &[Row]
    ensures { result.now ≡ drop first rows.now }
{
    match rows.get(first..) {
        Some(rest) => rest,
        None => &[],
    }
}

/// A place of the number in the list, if it stands there.
fn place_of(numbers: &[u32], number: u32) -> Option<usize>
    ensures there { IfSome result (λ place. (place < length numbers.now) × (slice_index numbers.now place ≡ number)) }
    ensures none { IfNone result (EachIndex numbers.now (λ k. slice_index numbers.now k ≢ number)) }
{
    numbers.iter().position(|n| *n == number)
}

/// Takes a number out of a list.
fn drop_number(numbers: &mut Vec<u32>, number: u32)
    ensures { numbers.new.items ≡ without number numbers.old.items }
{
    while let Some(place) = place_of(numbers, number) {
        numbers.remove(place);
    }
}
