//! A stack whose memory is taken when it is made.
ghost use Rattle.std.specs.Prelude.{◌≡◌, ◌<◌, ◌≤◌, [], ◌∷◌, length, take, drop, reverse, IfOk, MatchOption};
ghost use Rattle.st_mutator.specs.Stacked.{top, below};

use std::alloc::{AllocError, Global};
use std::marker::Model;

/// A stack. Contracts see its items, the top first, and its room: how many it holds at most.
#[derive(Debug, Drop)]
pub(crate) struct Stack<T> {
    items: Vec<T>,
}

impl<T> Model for Stack<T> {
    ghost use Rattle.std.specs.Prelude.{reverse, vec_capacity};
    ghost use Rattle.st_mutator.specs.Stacked.{Stacked};

    ghost Value = { Stacked T };

    ghost view = { λ s. record { items = reverse s.items.items; room = vec_capacity s.items } };
}

impl<T> Stack<T> {
    /// An empty stack with room for so many.
    pub(crate) fn make(alloc: Global, room: usize) -> Result<Stack<T>, AllocError>
        ensures { IfOk result (λ s. s ≡ record { items = []; room = room }) }
    {
        Ok(Stack {
            items: Vec::with_capacity(alloc, room)?,
        })
    }

    /// How many items there are.
    pub(crate) fn len(&self) -> usize
        ensures { result ≡ length self.now.items }
    {
        self.items.len()
    }

    /// Takes the top, if there is one.
    pub(crate) fn pop(&mut self) -> Option<T>
        ensures { MatchOption result ((self.old.items ≡ []) × (self.new ≡ self.old)) (λ item. self.old ≡ record { items = item ∷ self.new.items; room = self.new.room }) }
    {
        self.items.pop()
    }
}

impl<T: Drop> Stack<T> {
    /// Puts an item on top.
    pub(crate) fn push(&mut self, item: T)
        requires { length self.old.items < self.old.room }
        ensures { self.new ≡ record { items = item ∷ self.old.items; room = self.old.room } }
    {
        self.items.push_reserved(item);
    }

    /// Drops all items.
    pub(crate) fn clear(&mut self)
        ensures { self.new ≡ record { items = []; room = self.old.room } }
    {
        self.items.clear();
    }
}

impl Stack<u64> {
    /// Takes the top word; 0 where there is none.
    pub(crate) fn pop_word(&mut self) -> u64
        ensures word { result ≡ top self.old.items }
        ensures rest { self.new ≡ record { items = below self.old.items; room = self.old.room } }
    {
        self.pop().unwrap_or(0)
    }

    /// The last words that were pushed, so many or as many as there are, in the order in which they were.
    pub(crate) fn last(&self, count: usize) -> &[u64]
        ensures { result.now ≡ reverse (take count self.now.items) }
    {
        let words = self.items.as_slice();
        &words[words.len() - count.min(words.len())..]
    }
}
