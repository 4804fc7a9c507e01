//! What each node does.
ghost use Rattle.std.specs.Prelude.{◌≡◌, ◌<◌, ◌∷◌, suc};
ghost use Rattle.st_check_meaning.specs.Numbers.{is_true as is_true_word};
ghost use Rattle.st_thread_meaning.specs.Deeds.{Request};
ghost use Rattle.st_thread_meaning.specs.Statements.{evaluating};
ghost use Rattle.st_thread_meaning.specs.Threads.{asks_for};
ghost use Rattle.st_mutator.specs.Outcomes.{outcome_of};
ghost use Rattle.st_mutator.specs.Running.{unless_null};
ghost use Rattle.st_mutator.specs.Standing.{IsStanding, IsStep, means_of, rest_of, going_in, turn_of_asked, work_of, rank, node_deed};

use crate::asking::Asked;
use crate::faults::{end_of, negate, operate};
use crate::machines::Machine;
use crate::nodes::{Next, Node};
use st_events::{End, Plain, Site};
use st_resolved::Operator;

/// Whether the word is that of true.
fn is_true(word: u64) -> bool
    ensures { result ≡ is_true_word word }
{
    word != 0
}

impl Machine {
    /// What an evaluation gives is pushed, or its fault is the end.
    fn give_or_fail(&mut self, outcome: Result<u64, Plain>, next: Next) -> Option<Asked>
        requires standing { IsStanding self.old }
        requires earlier { rank next < rank self.old.next }
        ensures { IsStep result self.new self.old.nodes self.old.entries (work_of self.old) (evaluating (outcome_of outcome) (means_of self.old) (λ word left. going_in self.old next (word ∷ self.old.operands.items) self.old.locals left (rest_of self.old))) }
    {
        match outcome {
            Ok(word) => self.give(word, next),
            Err(fault) => Some(Asked::End(end_of(fault))),
        }
    }

    /// A word is dropped.
    pub(crate) fn drop_word(&mut self, next: Next) -> Option<Asked>
        requires standing { IsStanding self.old }
        requires earlier { rank next < rank self.old.next }
        ensures { IsStep result self.new self.old.nodes self.old.entries (work_of self.old) (node_deed self.old (Node.Pop next)) }
    {
        self.take();
        self.next = next;
        None
    }

    /// The word of a local is pushed.
    pub(crate) fn push_local(&mut self, local: u8, next: Next) -> Option<Asked>
        requires standing { IsStanding self.old }
        requires earlier { rank next < rank self.old.next }
        ensures { IsStep result self.new self.old.nodes self.old.entries (work_of self.old) (node_deed self.old (Node.Local local next)) }
    {
        let word = self.locals.get(local);
        self.give(word, next)
    }

    /// A field of an object is asked for.
    pub(crate) fn load_field(&mut self, field: u8, at: Site, next: Next) -> Option<Asked>
        requires standing { IsStanding self.old }
        requires earlier { rank next < rank self.old.next }
        ensures { IsStep result self.new self.old.nodes self.old.entries (work_of self.old) (node_deed self.old (Node.Field field at next)) }
    {
        let obj = self.take();
        self.ask_of(obj, at, Asked::Load { obj, field }, next, true)
    }

    /// True becomes false, and false true.
    pub(crate) fn turn_truth(&mut self, next: Next) -> Option<Asked>
        requires standing { IsStanding self.old }
        requires earlier { rank next < rank self.old.next }
        ensures { IsStep result self.new self.old.nodes self.old.entries (work_of self.old) (node_deed self.old (Node.Not next)) }
    {
        let word = self.take();
        self.give(u64::from(!is_true(word)), next)
    }

    /// A number gets the other sign.
    pub(crate) fn turn_sign(&mut self, at: Site, next: Next) -> Option<Asked>
        requires standing { IsStanding self.old }
        requires earlier { rank next < rank self.old.next }
        ensures { IsStep result self.new self.old.nodes self.old.entries (work_of self.old) (node_deed self.old (Node.Minus at next)) }
    {
        let word = self.take();
        self.give_or_fail(negate(word, at), next)
    }

    /// An operator is applied.
    pub(crate) fn apply(&mut self, operator: Operator, at: Site, next: Next) -> Option<Asked>
        requires standing { IsStanding self.old }
        requires earlier { rank next < rank self.old.next }
        ensures { IsStep result self.new self.old.nodes self.old.entries (work_of self.old) (node_deed self.old (Node.Binary operator at next)) }
    {
        let right = self.take();
        let left = self.take();
        self.give_or_fail(operate(operator, left, right, at), next)
    }

    /// The code goes on by a truth.
    pub(crate) fn branch(&mut self, when_true: Next, when_false: Next) -> Option<Asked>
        requires standing { IsStanding self.old }
        requires true_earlier { rank when_true < rank self.old.next }
        requires false_earlier { rank when_false < rank self.old.next }
        ensures { IsStep result self.new self.old.nodes self.old.entries (work_of self.old) (node_deed self.old (Node.Branch when_true when_false)) }
    {
        let word = self.take();
        self.next = if is_true(word) { when_true } else { when_false };
        None
    }

    /// A local gets a word.
    pub(crate) fn set_local(&mut self, local: u8, next: Next) -> Option<Asked>
        requires standing { IsStanding self.old }
        requires earlier { rank next < rank self.old.next }
        ensures { IsStep result self.new self.old.nodes self.old.entries (work_of self.old) (node_deed self.old (Node.Set local next)) }
    {
        let word = self.take();
        self.locals.set(local, word);
        self.next = next;
        None
    }

    /// An object is made, where there is room for one more.
    pub(crate) fn make_object(&mut self, class: u8, at: Site, next: Next) -> Option<Asked>
        requires standing { IsStanding self.old }
        requires earlier { rank next < rank self.old.next }
        ensures { IsStep result self.new self.old.nodes self.old.entries (work_of self.old) (node_deed self.old (Node.New class at next)) }
    {
        if self.room == 0 {
            return Some(Asked::End(End::HeapFull(at)));
        }
        self.room -= 1;
        self.ask(Asked::New { class }, next, true)
    }

    /// A word is stored.
    pub(crate) fn store_field(&mut self, field: u8, at: Site, next: Next) -> Option<Asked>
        requires standing { IsStanding self.old }
        requires earlier { rank next < rank self.old.next }
        ensures { IsStep result self.new self.old.nodes self.old.entries (work_of self.old) (node_deed self.old (Node.Store field at next)) }
    {
        let value = self.take();
        let obj = self.take();
        self.ask_of(obj, at, Asked::Store { obj, field, value }, next, false)
    }

    /// A word is compared and exchanged.
    pub(crate) fn exchange_field(&mut self, field: u8, at: Site, next: Next) -> Option<Asked>
        requires standing { IsStanding self.old }
        requires earlier { rank next < rank self.old.next }
        ensures { IsStep result self.new self.old.nodes self.old.entries (work_of self.old) (node_deed self.old (Node.Cas field at next)) }
    {
        let value = self.take();
        let expect = self.take();
        let obj = self.take();
        self.ask_for_exchange(obj, field, expect, value, at, next)
    }

    /// The exchange is asked for, of an object that is not null; whether the word was replaced is pushed.
    fn ask_for_exchange(
        &mut self,
        obj: u64,
        field: u8,
        expect: u64,
        value: u64,
        at: Site,
        next: Next,
    ) -> Option<Asked>
        requires standing { IsStanding self.old }
        requires earlier { rank next < rank self.old.next }
        ensures { (request : Request) → turn_of_asked (Asked.Cas obj field expect value) ≡ asks_for request → IsStep result self.new self.old.nodes self.old.entries (work_of self.old) (unless_null obj at request (means_of self.old) (λ done left. going_in self.old next (done ∷ self.old.operands.items) self.old.locals left (rest_of self.old))) }
    {
        let asked = Asked::Cas {
            obj,
            field,
            expect,
            value,
        };
        self.ask_of(obj, at, asked, next, true)
    }
}
