//! The words of the locals of a body.
ghost use Rattle.std.specs.Prelude.{◌≡◌, ℕ, ◌≤◌, ◌++◌, length, take, replicate, slice_get, slice_set, unwrap_or};

use st_resolved::MOST_LOCALS;
use std::marker::Model;

/// So many words, at most `MOST_LOCALS`. Contracts see the list of them.
#[derive(Debug, Drop)]
pub(crate) struct Locals {
    words: [u64; MOST_LOCALS],
    count: usize,
}

impl Model for Locals {
    ghost use Rattle.std.specs.Prelude.{ℕ, List, take, ◌≤◌};
    ghost use Rattle.st_resolved.specs.declared.limits.TheConstants.{MOST_LOCALS};

    ghost Value = { List ℕ };

    ghost view = { λ l. take l.count l.words };

    ghost invariant = { λ l. l.count ≤ MOST_LOCALS };
}

impl Locals {
    /// The locals of a body at its beginning: these words, and 0 for each other local.
    pub(crate) fn begin(words: &[u64], count: usize) -> Locals
        requires { count ≤ MOST_LOCALS }
        ensures { result ≡ take count (words.now ++ replicate count 0) }
    {
        Locals {
            words: filled(words),
            count,
        }
    }

    /// The word of a local; 0 where there is none.
    pub(crate) fn get(&self, local: u8) -> u64
        ensures { result ≡ unwrap_or (slice_get self.now local) 0 }
    {
        let local = usize::from(local);
        if local < self.count {
            self.words[local]
        } else {
            0
        }
    }

    /// Gives a word to a local, if there is one.
    pub(crate) fn set(&mut self, local: u8, word: u64)
        ensures { self.new ≡ slice_set self.old local word }
    {
        let local = usize::from(local);
        if local < self.count {
            self.words[local] = word;
        }
    }
}

/// The first of these words, and then zeros.
pub(crate) fn filled<const N: usize>(words: &[u64]) -> [u64; N]
    ensures { result ≡ take N (words.now ++ replicate N 0) }
{
    let mut all = [0; N];
    let count = words.len().min(N);
    all[..count].copy_from_slice(&words[..count]);
    all
}
