//! The stack of an evaluation: the words of all bodies that are being evaluated, and where each body stands. Its memory is taken
//! when it is made.
ghost use Rattle.std.specs.Prelude.{◌≡◌, ◌<◌, ◌≤◌, ◌+◌, length, Some, None, Option, IfOk, vec_capacity};
ghost use Rattle.st_eval.specs.Activations.{Activations, pushed, popped, onward, past, entered, resumed, alone, unused, top_word, local_word, held_in_all, ResumeIs};

use crate::frames::{Frame, Span};
use std::alloc::{AllocError, Global};
use std::marker::Model;

/// The body that runs, and those that wait for what it gives.
#[derive(Debug, Drop)]
pub(crate) struct Stack {
    /// The words of all bodies, those of the one that runs last.
    words: Vec<u64>,
    /// The bodies that wait, the last caller last.
    waiting: Vec<Frame>,
    running: Frame,
}

impl Model for Stack {
    ghost use Rattle.std.specs.Prelude.{vec_capacity};
    ghost use Rattle.st_eval.specs.Activations.{Activations, stacked, IsStack};

    ghost Value = { Activations };

    ghost view = { λ s. stacked s.running s.waiting.items s.words.items (vec_capacity s.words) (vec_capacity s.waiting) };

    ghost invariant = { λ s. IsStack s.running s.waiting.items s.words.items };
}

impl Stack {
    /// With room for so many words, and for so many bodies that wait.
    pub(crate) fn make(alloc: Global, words: usize, calls: usize) -> Result<Stack, AllocError>
        ensures { IfOk result (λ s. s ≡ unused words calls) }
    {
        Ok(Stack {
            words: Vec::with_capacity(alloc, words)?,
            waiting: Vec::with_capacity(alloc, calls)?,
            running: Frame {
                place: 0,
                end: 0,
                locals: 0,
                words: 0,
            },
        })
    }

    /// Drops all bodies; one begins, with these locals.
    pub(crate) fn restart(&mut self, span: Span, locals: &[u64])
        requires { length locals.now ≤ self.old.words_room }
        ensures { self.new ≡ alone span locals.now self.old }
    {
        self.waiting.truncate(0);
        refill(&mut self.words, locals);
        self.running = Frame {
            place: span.start,
            end: span.end,
            locals: locals.len(),
            words: 0,
        };
    }

    /// The place of the next instruction.
    pub(crate) fn place(&self) -> usize
        ensures { result ≡ self.now.running.place }
    {
        self.running.place
    }

    /// The end of the code of the body that runs.
    pub(crate) fn end(&self) -> usize
        ensures { result ≡ self.now.running.end }
    {
        self.running.end
    }

    /// How many bodies wait.
    pub(crate) fn depth(&self) -> usize
        ensures { result ≡ length self.now.waiting }
    {
        self.waiting.len()
    }

    /// Goes on to the next instruction.
    pub(crate) fn advance(&mut self)
        requires { self.old.running.place < self.old.running.end }
        ensures { self.new ≡ onward self.old }
    {
        self.running.place += 1;
    }

    /// Passes over so many instructions.
    pub(crate) fn skip(&mut self, count: usize)
        ensures { self.new ≡ past count self.old }
    {
        let left = self.running.end.saturating_sub(self.running.place);
        self.running.place += count.min(left);
    }

    /// Puts a word on top.
    pub(crate) fn push(&mut self, word: u64)
        requires { held_in_all self.old < self.old.words_room }
        ensures { self.new ≡ pushed word self.old }
    {
        self.words.push_reserved(word);
        self.running.words += 1;
    }

    /// Takes the top word; 0 where there is none.
    pub(crate) fn pop(&mut self) -> u64
        ensures word { result ≡ top_word self.old }
        ensures rest { self.new ≡ popped self.old }
        ensures room { held_in_all self.new ≤ self.new.words_room }
    {
        if self.running.words == 0 {
            return 0;
        }
        self.running.words -= 1;
        self.words.pop().unwrap_or(0)
    }

    /// The word of a local; 0 where there is none.
    pub(crate) fn local(&self, local: u8) -> u64
        ensures { result ≡ local_word self.now local }
    {
        let local = usize::from(local);
        if local < self.running.locals {
            let base = self.words.len() - self.running.words - self.running.locals;
            self.words[base + local]
        } else {
            0
        }
    }

    /// A body begins, which takes so many of the top words as its locals.
    pub(crate) fn enter(&mut self, span: Span, args: usize)
        requires words { args ≤ length self.old.running.words }
        requires room { length self.old.waiting < self.old.calls_room }
        ensures { self.new ≡ entered span args self.old }
    {
        self.running.words -= args;
        self.waiting.push_reserved(self.running);
        self.running = Frame {
            place: span.start,
            end: span.end,
            locals: args,
            words: 0,
        };
    }

    /// Ends the body that runs: the last caller goes on. Answers false, and changes nothing, where none waits.
    pub(crate) fn resume(&mut self) -> bool
        ensures { ResumeIs result self.new self.old (resumed self.old) }
    {
        match self.waiting.pop() {
            None => false,
            Some(caller) => {
                let kept = self.words.len() - self.running.words - self.running.locals;
                self.words.truncate(kept);
                self.running = caller;
                true
            }
        }
    }
}

/// Makes these the words, where there is room for them.
fn refill(words: &mut Vec<u64>, new: &[u64])
    requires { length new.now ≤ vec_capacity words.old }
    ensures items { words.new.items ≡ new.now }
    ensures capacity { vec_capacity words.new ≡ vec_capacity words.old }
{
    words.truncate(0);
    for word in new {
        words.push_reserved(*word);
    }
}
