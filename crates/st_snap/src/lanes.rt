//! Lanes: each active check has one, and it has the least that was idle at its launch.
ghost use Rattle.std.specs.Prelude.{◌≡◌, ℕ, ◌<◌, List, Option, None, Some, length, replicate, position, count_by, slice_set, IfOk};
ghost use Rattle.std.specs.List.{list_any};
ghost use Rattle.st_snap.specs.Lanes.{is_idle, is_between, newest_of};

use st_events::NoMemory;
use std::alloc::Global;
use std::marker::Model;

/// The place of an active check. It is moved and never copied, so a check is retired once.
#[derive(Drop)]
pub struct Lane {
    pub(crate) number: u32,
    /// Which lane the check has, from 0.
    pub(crate) index: usize,
}

impl Lane {
    /// The check's number, from 1.
    pub fn number(&self) -> u32
        ensures { result ≡ self.now.number }
    {
        self.number
    }
}

/// Which check each lane has. Contracts see the list.
#[derive(Drop)]
pub(crate) struct Lanes {
    /// The number of the check at each lane, where one is.
    checks: Vec<Option<u32>>,
    /// The highest of these numbers, so that whether some check needs a version is one comparison.
    newest: u32,
}

impl Model for Lanes {
    ghost Value = { List (Option ℕ) };

    ghost view = { λ l. l.checks.items };

    ghost invariant = { λ l. l.newest ≡ newest_of l.checks.items };
}

impl Lanes {
    /// So many lanes, all of them idle.
    pub fn make(alloc: Global, count: u8) -> Result<Lanes, NoMemory>
        ensures { IfOk result (λ lanes. lanes ≡ replicate count None) }
    {
        Ok(Lanes {
            checks: vec![in alloc; None; count as usize]?,
            newest: 0,
        })
    }

    /// The check at each lane.
    pub fn as_slice(&self) -> &[Option<u32>]
        ensures { result.now ≡ self.now }
    {
        self.checks.as_slice()
    }

    /// The newest check at a lane; 0 where there is none.
    pub fn newest(&self) -> u32
        ensures { result ≡ newest_of self.now }
    {
        self.newest
    }

    /// The first idle lane, if there is one.
    pub fn first_idle(&self) -> Option<usize>
        ensures { result ≡ position is_idle self.now }
    {
        self.checks.iter().position(|lane| lane.is_none())
    }

    /// How many lanes are idle.
    pub fn count_idle(&self) -> usize
        ensures { result ≡ count_by is_idle self.now }
    {
        self.checks.iter().filter(|lane| lane.is_none()).count()
    }

    /// A check that is newer than all others takes a lane.
    pub fn take(&mut self, index: usize, number: u32)
        requires index { index < length self.old }
        requires newer { newest_of self.old < number }
        ensures { self.new ≡ slice_set self.old index (Some number) }
    {
        self.checks[index] = Some(number);
        self.newest = number;
    }

    /// A check leaves its lane.
    pub fn leave(&mut self, index: usize)
        requires { index < length self.old }
        ensures { self.new ≡ slice_set self.old index None }
    {
        self.checks[index] = None;
        self.newest = find_newest(self.checks.as_slice());
    }
}

/// The newest check at a lane; 0 where there is none.
fn find_newest(lanes: &[Option<u32>]) -> u32
    ensures { result ≡ newest_of lanes.now }
{
    let mut newest = 0;
    for lane in lanes {
        newest = newest.max(lane.unwrap_or(0));
    }
    newest
}

/// Whether some check was launched after epoch `after` and up to epoch `upto`.
pub(crate) fn some_between(lanes: &[Option<u32>], after: u32, upto: u32) -> bool
    ensures { result ≡ list_any (is_between after upto) lanes.now }
{
    lanes
        .iter()
        .any(|lane| was_launched_between(*lane, after, upto))
}

/// The same of one lane.
fn was_launched_between(lane: Option<u32>, after: u32, upto: u32) -> bool
    ensures { result ≡ is_between after upto lane }
{
    match lane {
        Some(number) => after < number && number <= upto,
        None => false,
    }
}
