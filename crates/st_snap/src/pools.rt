//! The pool of copies: each is free, or holds the words of one old version, which several checks share.
ghost use Rattle.std.specs.Prelude.{◌≡◌, ℕ, ◌+◌, ◌-◌, ◌<◌, ◌≤◌, ◌==◌};
ghost use Rattle.std.specs.Prelude.{nat_lt, if◌then◌else◌, not, count_by, map, [], ◌++◌, length, filter, take, slice_index, vec_len, vec_capacity, IfOk, IsTrue};
ghost use Rattle.std.specs.List.{Contains, All};
ghost use Rattle.st_snap.specs.PoolLists.{is_version_read, AreVersionsInOrder};

use crate::headers::Target;
use crate::lanes::some_between;
use st_events::{MOST_FIELDS, NoMemory};
use std::alloc::Global;
use std::marker::Model;

/// The words of one object; those past its fields are 0.
pub(crate) type Words = [u64; MOST_FIELDS];

/// Which version of an object a copy holds: the one that stood from the change at epoch `after` to the change at epoch
/// `upto`. The checks launched in between read it.
#[derive(Clone, Copy)]
pub(crate) struct Version {
    pub obj: u32,
    pub after: u32,
    pub upto: u32,
    /// The number of the copy.
    pub copy: u32,
}

/// All copies. Contracts see the versions that are kept, in the order in which they were, each with its words.
#[derive(Drop)]
pub(crate) struct Pool {
    /// By number of the copy.
    words: Vec<Words>,
    /// The numbers of the free copies.
    free: Vec<u32>,
    /// The versions kept in the other copies, oldest first.
    kept: Vec<Version>,
}

impl Model for Pool {
    ghost use Rattle.st_snap.specs.Pool.{PoolVersions};

    ghost Value = { PoolVersions };

    ghost use Rattle.st_snap.specs.PoolLists.{versions_of, IsPool};
    ghost use Rattle.std.specs.Prelude.{vec_len, vec_capacity, length};

    ghost view = { λ p. versions_of p.words.items p.kept.items };

    ghost invariant = { λ p. IsPool p.words.items p.free.items p.kept.items (vec_capacity p.free) (vec_capacity p.kept) };
}

impl Pool {
    ghost use Rattle.st_snap.specs.Pool.{KeptVersion, Keeps, AreInOrder, is_read, no_versions};

    /// A pool of so many copies, all of them free.
    pub fn make(alloc: Global, copies: u32) -> Result<Pool, NoMemory>
        ensures { IfOk result (λ pool. pool ≡ no_versions copies) }
    {
        let count = copies as usize;
        Ok(Pool {
            words: vec![in alloc; [0; MOST_FIELDS]; count]?,
            free: all_numbers(alloc, copies)?,
            kept: Vec::with_capacity(alloc, count)?,
        })
    }

    /// How many copies are free.
    pub fn free(&self) -> u32
        ensures free { result ≡ self.now.size - length self.now.versions }
        ensures room { length self.now.versions ≤ self.now.size }
    {
        self.free.len() as u32
    }

    /// Keeps the words of an old version, where a copy is free; else the version is gone and nothing changes.
    pub fn keep(&mut self, obj: u32, after: u32, upto: u32, words: Words) -> Target
        ensures { Keeps self.old self.new obj after upto words result }
    {
        let copy = match self.free.pop() {
            Some(copy) => copy,
            None => return Target::Gone,
        };
        self.words[copy as usize] = words;
        self.kept.push_reserved(Version {
            obj,
            after,
            upto,
            copy,
        });
        Target::Copied(copy)
    }

    /// The word of a field of the version that the copy of this number holds.
    pub fn word(&self, copy: u32, field: u8) -> u64
        requires copy { copy < self.now.size }
        requires field { field < MOST_FIELDS }
        ensures { (kept : KeptVersion) → Contains self.now.versions kept → kept.version.copy ≡ copy → result ≡ slice_index kept.words field }
    {
        self.words[copy as usize][field as usize]
    }

    /// Gives back each copy whose version no check at a lane reads, where each version that was kept before the launch of
    /// check `since` is read. Only the others are looked at.
    pub fn release(&mut self, lanes: &[Option<u32>], since: u32)
        requires order { AreInOrder self.old.versions }
        requires earlier { (kept : KeptVersion) → Contains self.old.versions kept → kept.version.upto < since → IsTrue (is_read lanes.now kept) }
        ensures versions { self.new.versions ≡ filter (is_read lanes.now) self.old.versions }
        ensures size { self.new.size ≡ self.old.size }
    {
        let start = count_earlier(self.kept.as_slice(), since);
        give_back(&mut self.free, &mut self.kept, start, lanes);
    }
}

/// The numbers from 0 up to below `count`.
fn all_numbers(alloc: Global, count: u32) -> Result<Vec<u32>, NoMemory>
    ensures once { IfOk result (λ v. (number : ℕ) → count_by (λ n. n == number) v.items ≡ (if nat_lt number count then 1 else 0)) }
    ensures len { IfOk result (λ v. vec_len v ≡ count) }
    ensures room { IfOk result (λ v. count ≤ vec_capacity v) }
{
    let mut numbers = Vec::with_capacity(alloc, count as usize)?;
    for number in 0..count {
        numbers.push_reserved(number);
    }
    Ok(numbers)
}

/// How many of the versions were kept before the launch of check `since`: they come first. It is as quick as the others are few.
fn count_earlier(kept: &[Version], since: u32) -> usize
    requires { AreVersionsInOrder kept.now }
    ensures earlier { All (λ v. v.upto < since) (take result kept.now) }
    ensures within { result ≤ length kept.now }
{
    let mut count = kept.len();
    while count > 0 && kept[count - 1].upto >= since {
        count -= 1;
    }
    count
}

/// Moves each version from `start` on that a check at a lane reads up to those before it, and puts the copies of the others to
/// the free ones.
fn give_back(free: &mut Vec<u32>, kept: &mut Vec<Version>, start: usize, lanes: &[Option<u32>])
    requires start { start ≤ vec_len kept.old }
    requires read { All (λ v. IsTrue (is_version_read lanes.now v)) (take start kept.old.items) }
    requires room { vec_len free.old + vec_len kept.old ≤ vec_capacity free.old }
    ensures free { free.new.items ≡ free.old.items ++ map (λ v. v.copy) (filter (λ v. not (is_version_read lanes.now v)) kept.old.items) }
    ensures kept { kept.new.items ≡ filter (is_version_read lanes.now) kept.old.items }
    ensures free_room { vec_capacity free.new ≡ vec_capacity free.old }
    ensures kept_room { vec_capacity kept.new ≡ vec_capacity kept.old }
{
    let mut end = start;
    for index in start..kept.len() {
        let version = kept[index];
        if is_read(&version, lanes) {
            kept[end] = version;
            end += 1;
        } else {
            free.push_reserved(version.copy);
        }
    }
    kept.truncate(end);
}

/// Whether a check at a lane reads the version.
fn is_read(version: &Version, lanes: &[Option<u32>]) -> bool
    ensures { result ≡ is_version_read lanes.now version.now }
{
    some_between(lanes, version.after, version.upto)
}
