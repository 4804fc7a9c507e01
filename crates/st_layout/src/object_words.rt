//! The words of objects and their copies, and of the rows of checks.
#![tactic(auto, using(crate::proofs::Bounds::cells_fit), unfolding(crate::specs::Layout::word_of))]

ghost use Rattle.std.specs.Prelude.{◌≡◌, ◌+◌, ◌*◌, ◌<◌};
ghost use Rattle.st_layout.specs.declared.words.TheConstants.{CELL_WORDS};
ghost use Rattle.st_layout.specs.Limits.{IsWithinLimits};
ghost use Rattle.st_layout.specs.Names.{ClassWord, HeaderWord, ForwardWord, FieldWord, CopyWord, RowWord, HasWord, cells_of};
ghost use Rattle.st_layout.specs.Layout.{word_of, first_cell};

use crate::plans::Plan;
use crate::words::{
    CELL_WORDS, CLASS_INDEX, COPY_WORDS, FIELDS_INDEX, FORWARDS_INDEX, HEADER_INDEX, ROW_WORDS,
};

impl Plan {
    /// The word of the class number of `obj`.
    pub fn class_word(&self, obj: u32) -> u32
        requires limits { IsWithinLimits self.now }
        requires within { HasWord self.now (ClassWord obj) }
        ensures { result ≡ word_of self.now (ClassWord obj) }
    {
        self.cell(obj) + CLASS_INDEX
    }

    /// The word of the stamp of `obj` and of who holds it.
    pub fn header_word(&self, obj: u32) -> u32
        requires limits { IsWithinLimits self.now }
        requires within { HasWord self.now (HeaderWord obj) }
        ensures { result ≡ word_of self.now (HeaderWord obj) }
    {
        self.cell(obj) + HEADER_INDEX
    }

    /// The word that says which copy of `obj` the lane's check reads.
    pub fn forward_word(&self, obj: u32, lane: u8) -> u32
        requires limits { IsWithinLimits self.now }
        requires within { HasWord self.now (ForwardWord obj lane) }
        ensures { result ≡ word_of self.now (ForwardWord obj lane) }
    {
        self.cell(obj) + FORWARDS_INDEX + u32::from(lane)
    }

    /// The word of a field of `obj`, from field 0.
    pub fn field_word(&self, obj: u32, field: u8) -> u32
        requires limits { IsWithinLimits self.now }
        requires within { HasWord self.now (FieldWord obj field) }
        ensures { result ≡ word_of self.now (FieldWord obj field) }
    {
        self.cell(obj) + FIELDS_INDEX + u32::from(field)
    }

    /// Word `k` of a copy: the object's number at 0, and field `k - 1` above.
    pub fn copy_word(&self, copy: u32, k: u8) -> u32
        requires limits { IsWithinLimits self.now }
        requires within { HasWord self.now (CopyWord copy k) }
        ensures { result ≡ word_of self.now (CopyWord copy k) }
    {
        self.first_copy() + copy * COPY_WORDS + u32::from(k)
    }

    /// Word `k` of the row of check `number`, from number 1 and word 0.
    pub fn row_word(&self, number: u32, k: u8) -> u32
        requires limits { IsWithinLimits self.now }
        requires within { HasWord self.now (RowWord number k) }
        ensures { result ≡ word_of self.now (RowWord number k) }
    {
        self.first_row() + (number - 1) * ROW_WORDS + u32::from(k)
    }

    /// The first word of the cell of `obj`.
    fn cell(&self, obj: u32) -> u32
        requires limits { IsWithinLimits self.now }
        requires cell { obj < cells_of self.now }
        ensures { result ≡ first_cell self.now + obj * CELL_WORDS }
    {
        self.first_cell() + obj * CELL_WORDS
    }
}
