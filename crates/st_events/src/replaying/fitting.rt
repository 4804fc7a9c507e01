//! Whether words have the kinds that the shape asks for, on the heap that a replay has seen.
ghost use Rattle.std.specs.Prelude.{◌≡◌, ◌==◌, Some, drop};
ghost use Rattle.std.specs.List.{list_all};
ghost use Rattle.st_events.specs.Heap.{heap_of};
ghost use Rattle.st_events.specs.Legal.{has_kind, fits_cell, args_fit, have_kinds};

use super::Replay;
use crate::events::Args;
use crate::shapes::Kind;

impl<'a> Replay<'a> {
    /// Whether a word has the kind of the cell.
    pub(super) fn fits_cell(&self, obj: u32, field: u8, word: u64) -> bool
        ensures { result ≡ fits_cell self.now.shape.now (heap_of self.now.heap) obj field word }
    {
        let class = match self.heap.class(obj) {
            Some(class) => class,
            None => return false,
        };
        match self.shape.fields(class).get(field as usize) {
            Some(kind) => self.has_kind(*kind, word),
            None => false,
        }
    }

    /// Whether the arguments are so many words of these kinds, and the unused ones are 0.
    pub(super) fn args_fit(&self, kinds: &[Kind], args: Args) -> bool
        ensures { result ≡ args_fit (heap_of self.now.heap) (Some kinds.now) args }
    {
        if args.count as usize != kinds.len() {
            return false;
        }
        if !self.have_kinds(kinds, &args.words) {
            return false;
        }
        rest_is_zero(&args.words, args.count as usize)
    }

    /// Whether the words begin with one of each kind.
    fn have_kinds(&self, kinds: &[Kind], words: &[u64]) -> bool
        ensures { result ≡ have_kinds (heap_of self.now.heap) kinds.now words.now }
    {
        for (place, kind) in kinds.iter().enumerate() {
            let word = match words.get(place) {
                Some(word) => *word,
                None => return false,
            };
            if !self.has_kind(*kind, word) {
                return false;
            }
        }
        true
    }

    /// Whether a word has the kind.
    fn has_kind(&self, kind: Kind, word: u64) -> bool
        ensures { result ≡ has_kind (heap_of self.now.heap) kind word }
    {
        match kind {
            Kind::Int => true,
            Kind::Bool => word <= 1,
            Kind::Ref(class) => word == 0 || self.heap.is_of_class(word, class),
        }
    }
}

/// Whether each word from this place on is 0.
fn rest_is_zero(words: &[u64], from: usize) -> bool
    ensures { result ≡ list_all (λ word. word == 0) (drop from words.now) }
{
    match words.get(from..) {
        Some(rest) => all_zero(rest),
        None => true,
    }
}

/// Whether each word is 0.
fn all_zero(words: &[u64]) -> bool
    ensures { result ≡ list_all (λ word. word == 0) words.now }
{
    words.iter().all(|word| *word == 0)
}
