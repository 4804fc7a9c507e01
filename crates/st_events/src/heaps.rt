//! A heap in memory: the objects of every mutator's region in one vector, by number.
ghost use Rattle.std.specs.Prelude.{◌≡◌, ◌+◌, ◌*◌, ◌<◌, ◌≤◌, ℕ, length, slice_index, IfOk, IsSome, Some};
ghost use Rattle.st_events.specs.Heap.{heap_of, word_at, class_at, with_object, with_word, fresh, first_heap};
ghost use Rattle.st_events.specs.Legal.{is_of_class};
ghost use Rattle.st_events.specs.Shape.{IsWithinLimits};
ghost use Rattle.st_events.specs.Sizes.{AreWithinLimits};

use crate::errors::NoMemory;
use crate::limits::Sizes;
use crate::shapes::{MOST_FIELDS, Shape};
use std::alloc::Global;
use std::marker::Model;

/// The number of the shared object.
pub const SHARED_OBJECT: u32 = 1;

/// What stands at one number: an object, if one was made.
#[derive(Clone, Copy)]
struct Cell {
    class: Option<u8>,
    /// How many of the words are fields of the class; the others are 0.
    fields: u8,
    words: [u64; MOST_FIELDS],
}

/// Numbers below `FIRST_OF_REGIONS` are null and the shared object; the regions of the mutators follow.
pub const FIRST_OF_REGIONS: usize = 2;

/// A heap with room for the shared object and every mutator's region. Contracts see what stands at each number.
#[derive(Drop)]
pub struct HeapMap {
    cells: Vec<Cell>,
}

impl Model for HeapMap {
    ghost use Rattle.std.specs.Prelude.{List, Option, map};
    ghost use Rattle.st_events.specs.Heap.{Object};

    ghost Value = { List (Option Object) };

    ghost use Rattle.st_events.specs.HeapCell.{object_of, AreCells};

    ghost view = { λ h. map object_of h.cells.items };

    ghost invariant = { λ h. AreCells h.cells.items };
}

impl HeapMap {
    /// The heap before the first event, with room for all that the sizes allow.
    pub fn make(alloc: Global, shape: &Shape, sizes: &Sizes) -> Result<HeapMap, NoMemory>
        requires shape { IsWithinLimits shape.now }
        requires sizes { AreWithinLimits sizes.now }
        ensures first { IfOk result (λ h. heap_of h ≡ first_heap shape.now) }
        ensures room { IfOk result (λ h. length h ≡ FIRST_OF_REGIONS + sizes.now.mutators * sizes.now.objects) }
    {
        let room = FIRST_OF_REGIONS + sizes.mutators as usize * sizes.objects as usize;
        let mut cells = vec![in alloc; Cell::EMPTY; room]?;
        cells[SHARED_OBJECT as usize] = Cell::fresh(shape, 0);
        Ok(HeapMap { cells })
    }

    /// Puts a new object of the class, with all fields 0, at this number.
    pub fn put_new(&mut self, shape: &Shape, obj: u32, class: u8)
        requires shape { IsWithinLimits shape.now }
        requires room { obj < length self.old }
        ensures put { heap_of self.new ≡ with_object (heap_of self.old) obj (fresh shape.now class) }
        ensures room { length self.new ≡ length self.old }
    {
        self.cells[obj as usize] = Cell::fresh(shape, class);
    }

    /// Sets the word of a cell.
    pub fn set(&mut self, obj: u32, field: u8, value: u64)
        requires { IsSome (word_at (heap_of self.old) obj field) }
        ensures set { heap_of self.new ≡ with_word (heap_of self.old) obj field value }
        ensures room { length self.new ≡ length self.old }
    {
        let cell = &mut self.cells[obj as usize];
        cell.words[field as usize] = value;
    }

    /// The word of a cell; None exactly where the object does not exist or its class has no such field.
    pub fn get(&self, obj: u32, field: u8) -> Option<u64>
        ensures { result ≡ word_at (heap_of self.now) obj field }
    {
        let cell = self.cells.get(obj as usize)?;
        cell.word(field)
    }

    /// The words of an object that exists, in the order of its fields. What stands past them means nothing.
    pub fn words(&self, obj: u32) -> [u64; MOST_FIELDS]
        ensures { (field word : ℕ) → word_at (heap_of self.now) obj field ≡ Some word → slice_index result field ≡ word }
    {
        match self.cells.get(obj as usize) {
            Some(cell) => cell.words,
            None => [0; MOST_FIELDS],
        }
    }

    /// The class of an object; None exactly where the object does not exist.
    pub fn class(&self, obj: u32) -> Option<u8>
        ensures { result ≡ class_at (heap_of self.now) obj }
    {
        self.cells.get(obj as usize)?.class
    }

    /// Whether a word is the number of an object of the class.
    pub fn is_of_class(&self, word: u64, class: u8) -> bool
        ensures { result ≡ is_of_class (class_at (heap_of self.now) word) class }
    {
        match self.cells.get(word as usize) {
            Some(cell) => cell.class == Some(class),
            None => false,
        }
    }
}

impl Cell {
    ghost use Rattle.st_events.specs.HeapCell.{object_of, IsCell};
    ghost use Rattle.std.specs.Prelude.{None, Some};
    ghost use Rattle.st_events.specs.Heap.{word_of};

    const EMPTY: Cell = Cell {
        class: None,
        fields: 0,
        words: [0; MOST_FIELDS],
    };

    /// A new object of the class, with all fields 0.
    fn fresh(shape: &Shape, class: u8) -> Cell
        requires { IsWithinLimits shape.now }
        ensures object { object_of result ≡ Some (fresh shape.now class) }
        ensures cell { IsCell result }
    {
        Cell {
            class: Some(class),
            fields: shape.fields(class).len() as u8,
            words: [0; MOST_FIELDS],
        }
    }

    /// The word of a field, where an object stands here and has this field.
    fn word(&self, field: u8) -> Option<u64>
        requires { IsCell self.now }
        ensures { result ≡ word_of (object_of self.now) field }
    {
        if self.class.is_some() && field < self.fields {
            Some(self.words[field as usize])
        } else {
            None
        }
    }
}
