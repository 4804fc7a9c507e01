//! What a snapshot heap keeps beside its journal: the live heap, an object's header, the lanes and the pool of copies.
ghost use Rattle.std.specs.Prelude.{◌≡◌, ◌≢◌, ℕ, ◌+◌, ◌-◌, ◌*◌, ◌^◌, ◌<◌, ◌≤◌, length, slice_get, slice_index, slice_set, Some, None, IfOk, IsSome, IsTrue};
ghost use Rattle.std.specs.List.{Contains};
ghost use Rattle.st_snap.specs.Terms.{heap_of, word_at, IsWithinLimits, AreWithinLimits};
ghost use Rattle.st_events.specs.Legal.{is_word};

use crate::headers::{Forward, Header, LANES, Target};
use crate::lanes::{Lane, Lanes};
use crate::pools::Pool;
use st_events::{FIRST_OF_REGIONS, HeapMap, MOST_FIELDS, NoMemory, Shape, Sizes};
use std::alloc::Global;
use std::marker::Model;

/// The live heap and what the active checks need of older ones. Contracts see it as lists.
#[derive(Drop)]
pub(crate) struct Table {
    pub heap: HeapMap,
    /// By object.
    pub headers: Vec<Header>,
    /// How many objects each mutator has made.
    pub made: Vec<u32>,
    /// How many checks were launched.
    pub epoch: u32,
    pub lanes: Lanes,
    pub pool: Pool,
}

impl Model for Table {
    ghost use Rattle.st_snap.specs.Table.{TableLists};

    ghost Value = { TableLists };

    ghost view = { λ t. record { heap = t.heap; headers = t.headers.items; made = t.made.items; epoch = t.epoch; lanes = t.lanes; pool = t.pool } };
}

impl Table {
    ghost use Rattle.st_snap.specs.Lanes.{newest_of};
    ghost use Rattle.st_snap.specs.Pool.{KeptVersion, AreInOrder, is_read};
    ghost use Rattle.st_snap.specs.Table.{AreFirstTables, Makes, KeepsVersion, Writes, Changes, ChangesWhere, Launches, retired_at, ReadsByForward, IsLiveUnlessSent, IsSentToCopies, HasWords, object_room};

    /// Before the first event.
    pub fn make(alloc: Global, shape: &Shape, sizes: &Sizes) -> Result<Table, NoMemory>
        requires shape { IsWithinLimits shape.now }
        requires sizes { AreWithinLimits sizes.now }
        ensures { IfOk result (AreFirstTables shape.now sizes.now) }
    {
        let objects = FIRST_OF_REGIONS + sizes.mutators as usize * sizes.objects as usize;
        Ok(Table {
            heap: HeapMap::make(alloc, shape, sizes)?,
            headers: vec![in alloc; Header::UNTOUCHED; objects]?,
            made: vec![in alloc; 0; sizes.mutators as usize]?,
            epoch: 0,
            lanes: Lanes::make(alloc, sizes.lanes)?,
            pool: Pool::make(alloc, sizes.copies)?,
        })
    }

    /// Makes the next object of a mutator's region, and tells its number.
    pub fn make_object(&mut self, shape: &Shape, objects: u32, m: u8, class: u8) -> u32
        requires shape { IsWithinLimits shape.now }
        requires thread { m < length self.old.made }
        requires heap { FIRST_OF_REGIONS + m * objects + slice_index self.old.made m < length self.old.heap }
        requires headers { length self.old.headers ≡ length self.old.heap }
        requires fits { length self.old.heap < 2 ^ 32 }
        ensures { Makes shape.now objects self.old self.new m class result }
    {
        let count = self.made[m as usize];
        let obj = FIRST_OF_REGIONS as u32 + m as u32 * objects + count;
        self.made[m as usize] = count + 1;
        self.heap.put_new(shape, obj, class);
        self.headers[obj as usize].stamp = self.epoch;
        obj
    }

    /// How many objects a mutator has made.
    pub fn made_by(&self, m: u8) -> u32
        requires { m < length self.now.made }
        ensures { slice_get self.now.made m ≡ Some result }
    {
        self.made[m as usize]
    }

    /// The word of the live heap.
    pub fn load(&self, obj: u32, field: u8) -> u64
        requires { IsSome (word_at (heap_of self.now.heap) obj field) }
        ensures { word_at (heap_of self.now.heap) obj field ≡ Some result }
    {
        self.heap.get(obj, field).unwrap()
    }

    /// Sets a word, once the old version is kept for the checks that need it.
    #[tactic(auto, using(crate::proofs::TableLemmas::kept_cell, crate::proofs::TableLemmas::changes))]
    pub fn change(&mut self, obj: u32, field: u8, value: u64)
        requires cell { IsSome (word_at (heap_of self.old.heap) obj field) }
        requires header { obj < length self.old.headers }
        requires lanes { length self.old.lanes ≤ LANES }
        ensures { Changes self.old self.new obj field value }
    {
        self.keep_version(obj);
        self.write(obj, field, value);
    }

    /// Sets a word, and the stamp of its object to the epoch.
    fn write(&mut self, obj: u32, field: u8, value: u64)
        requires cell { IsSome (word_at (heap_of self.old.heap) obj field) }
        requires header { obj < length self.old.headers }
        ensures writes { Writes self.old self.new obj field value }
        ensures cell { IsSome (word_at (heap_of self.new.heap) obj field) }
        ensures headers { length self.new.headers ≡ length self.old.headers }
    {
        self.headers[obj as usize].stamp = self.epoch;
        self.heap.set(obj, field, value);
    }

    /// Sets a word where it is `expect`, and tells whether it was.
    pub fn change_where(&mut self, obj: u32, field: u8, expect: u64, value: u64) -> bool
        requires cell { IsSome (word_at (heap_of self.old.heap) obj field) }
        requires header { obj < length self.old.headers }
        requires lanes { length self.old.lanes ≤ LANES }
        ensures done { result ≡ is_word (word_at (heap_of self.old.heap) obj field) expect }
        ensures changed { ChangesWhere result self.old self.new obj field value }
    {
        if self.load(obj, field) != expect {
            return false;
        }
        self.change(obj, field, value);
        true
    }

    /// Keeps the version of the object for each active check that was launched after its stamp, in one copy for all of
    /// them, and sends these checks to it. The forwarding words come before the change of the field, so that no check
    /// reads a new word.
    fn keep_version(&mut self, obj: u32)
        requires header { obj < length self.old.headers }
        requires lanes { length self.old.lanes ≤ LANES }
        ensures version { KeepsVersion self.old self.new obj }
        ensures headers { length self.new.headers ≡ length self.old.headers }
    {
        let stamp = self.headers[obj as usize].stamp;
        if stamp < self.lanes.newest() {
            let words = self.heap.words(obj);
            let target = self.pool.keep(obj, stamp, self.epoch, words);
            self.headers[obj as usize].forward_to(&self.lanes, target);
        }
    }

    /// Gives the next check the first idle lane, if there is one.
    pub fn launch(&mut self) -> Option<Lane>
        requires epoch { self.old.epoch < 2 ^ 32 - 1 }
        requires newest { newest_of self.old.lanes ≤ self.old.epoch }
        ensures { Launches self.old self.new result }
    {
        let index = match self.lanes.first_idle() {
            Some(index) => index,
            None => return None,
        };
        self.epoch += 1;
        self.lanes.take(index, self.epoch);
        Some(Lane {
            number: self.epoch,
            index,
        })
    }

    /// Takes a check off its lane, and gives back each copy that no other check reads. Each version that was kept before its launch
    /// is read by another.
    pub fn retire(&mut self, lane: Lane)
        requires index { lane.index < length self.old.lanes }
        requires order { AreInOrder self.old.pool.versions }
        requires earlier { (kept : KeptVersion) → Contains self.old.pool.versions kept → kept.version.upto < lane.number → IsTrue (is_read (slice_set self.old.lanes lane.index None) kept) }
        ensures { self.new ≡ retired_at self.old lane.index }
    {
        let Lane { number, index } = lane;
        self.lanes.leave(index);
        self.pool.release(self.lanes.as_slice(), number);
    }

    /// The word that a check reads, unless its version is gone.
    pub fn read(&self, lane: &Lane, obj: u32, field: u8) -> Option<u64>
        requires lane { lane.now.index < LANES }
        requires header { obj < length self.now.headers }
        requires field { field < MOST_FIELDS }
        requires live { IsLiveUnlessSent self.now lane.now obj field }
        requires copies { IsSentToCopies self.now lane.now obj }
        ensures { ReadsByForward self.now lane.now obj field result }
    {
        let Forward { epoch, target } = self.headers[obj as usize].forward[lane.index];
        if epoch != lane.number {
            return Some(self.load(obj, field));
        }
        match target {
            Target::Copied(copy) => Some(self.pool.word(copy, field)),
            Target::Gone => None,
        }
    }
}
