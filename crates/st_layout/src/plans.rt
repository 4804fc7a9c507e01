//! A plan of the table: how much of each part it has, where each part begins, and how many words there are.
//! The parts stand in this order: single words, flags, lane words, cells, copies, free words, rows.
#![tactic(auto, using(crate::proofs::Bounds::cells_fit), unfolding(crate::specs::Layout::words_of))]

ghost use Rattle.std.specs.Prelude.{◌≡◌, ◌≤◌};
ghost use Rattle.st_layout.specs.Limits.{IsWithinLimits};
ghost use Rattle.st_layout.specs.Layout.{first_lane, first_cell, first_copy, first_free, first_row, words_of, HasDistinctWords, HasWordsBelow};

use crate::words::{CELL_WORDS, COPY_WORDS, FIRST_FLAG, FIXED_CELLS, MOST_WORDS, ROW_WORDS};

/// How much of each part the table has. A call that gives a word takes a plan within the limits, and numbers that are
/// within the plan: `obj` up to `1 + mutators * objects`, where cell 0 is unused and cell 1 is the shared object's.
#[derive(Clone, Copy, Debug, PartialEq, Eq)]
pub struct Plan {
    /// How many threads the program has.
    pub mutators: u8,
    /// How many checks may be active at a time.
    pub lanes: u8,
    /// How many objects each mutator may make.
    pub objects: u32,
    /// How many copies the pool has.
    pub copies: u32,
    /// How many checks have a row, numbered from 1.
    pub rows: u32,
}

impl Plan {
    /// How many words the table has, of 64 bits each. Each name's word is below, and no two names have one word.
    pub fn words(&self) -> u32
        requires { IsWithinLimits self.now }
        ensures count { result ≡ words_of self.now }
        ensures most { result ≤ MOST_WORDS }
        ensures below { HasWordsBelow self.now result }
        ensures distinct { HasDistinctWords self.now }
    {
        self.first_row() + self.rows * ROW_WORDS
    }

    /// Where the lane words begin.
    pub(crate) fn first_lane(&self) -> u32
        requires { IsWithinLimits self.now }
        ensures { result ≡ first_lane self.now }
    {
        FIRST_FLAG + (u32::from(self.mutators) + 1)
    }

    /// Where the cells begin.
    pub(crate) fn first_cell(&self) -> u32
        requires { IsWithinLimits self.now }
        ensures { result ≡ first_cell self.now }
    {
        self.first_lane() + u32::from(self.lanes)
    }

    /// Where the copies begin.
    pub(crate) fn first_copy(&self) -> u32
        requires { IsWithinLimits self.now }
        ensures { result ≡ first_copy self.now }
    {
        let cells = FIXED_CELLS + u32::from(self.mutators) * self.objects;
        self.first_cell() + cells * CELL_WORDS
    }

    /// Where the free list begins.
    pub(crate) fn first_free(&self) -> u32
        requires { IsWithinLimits self.now }
        ensures { result ≡ first_free self.now }
    {
        self.first_copy() + self.copies * COPY_WORDS
    }

    /// Where the rows begin.
    pub(crate) fn first_row(&self) -> u32
        requires { IsWithinLimits self.now }
        ensures { result ≡ first_row self.now }
    {
        self.first_free() + self.copies
    }
}
