//! One step of a thread: a node, or where code ends the last frame.
ghost use Rattle.std.specs.Prelude.{◌≡◌, ◌+◌, ◌<◌, suc, [], ◌∷◌, length};
ghost use Rattle.st_thread_meaning.specs.Deeds.{Request, asking};
ghost use Rattle.st_thread_meaning.specs.Threads.{asks_for};
ghost use Rattle.st_mutator.specs.Running.{unless_null};
ghost use Rattle.st_mutator.specs.Stacked.{top, below};
ghost use Rattle.st_mutator.specs.Standing.{IsStanding, IsStep, IsPaid, with_operands, fresh_at, work_of, rank, AreBelow, places_of, node_deed, deed_of, going_in, rest_of};
ghost use Rattle.st_mutator.specs.Standing.{means_of, told_operands, turn_of_asked, behind};

use crate::asking::Asked;
use crate::machines::Machine;
use crate::nodes::{Frame, Next};
use st_events::{End, Site};

impl Machine {
    /// Pays for a step. Answers false, and changes nothing, where less is left than the cost.
    pub(crate) fn pay(&mut self, cost: u32) -> bool
        ensures { IsPaid result self.new self.old cost }
    {
        if self.charge < cost {
            return false;
        }
        self.charge -= cost;
        true
    }

    /// Takes the top operand; 0 where there is none, which no code meets.
    pub(crate) fn take(&mut self) -> u64
        ensures word { result ≡ top self.old.operands.items }
        ensures rest { self.new ≡ with_operands (below self.old.operands.items) self.old }
    {
        self.operands.pop_word()
    }

    /// Goes on at a place, without operands.
    pub(crate) fn go_to(&mut self, next: Next)
        ensures { self.new ≡ fresh_at next self.old }
    {
        self.operands.clear();
        self.next = next;
    }

    /// Pushes a word and goes on.
    pub(crate) fn give(&mut self, word: u64, next: Next) -> Option<Asked>
        requires standing { IsStanding self.old }
        requires earlier { rank next < rank self.old.next }
        ensures { IsStep result self.new self.old.nodes self.old.entries (work_of self.old) (going_in self.old next (word ∷ self.old.operands.items) self.old.locals (means_of self.old) (rest_of self.old)) }
    {
        self.operands.push(word);
        self.next = next;
        None
    }

    /// Pays for an event and asks for it. `takes_reply` says whether the reply is an operand.
    pub(crate) fn ask(&mut self, asked: Asked, next: Next, takes_reply: bool) -> Option<Asked>
        requires standing { IsStanding self.old }
        requires earlier { rank next < rank self.old.next }
        ensures { (request : Request) → turn_of_asked asked ≡ asks_for request → IsStep result self.new self.old.nodes self.old.entries (work_of self.old) (asking request (means_of self.old) (λ reply left. going_in self.old next (told_operands takes_reply reply self.old.operands.items) self.old.locals left (rest_of self.old))) }
    {
        if !self.pay(asked.cost()) {
            return Some(Asked::End(End::EventsSpent));
        }
        self.next = next;
        self.takes_reply = takes_reply;
        Some(asked)
    }

    /// Asks for an event at a field of an object: of null it is a fault, before it is paid for.
    #[tactic(auto, using(crate::proofs::EventLemmas::null_step, crate::proofs::EventLemmas::not_null_step))]
    pub(crate) fn ask_of(
        &mut self,
        obj: u64,
        at: Site,
        asked: Asked,
        next: Next,
        takes_reply: bool,
    ) -> Option<Asked>
        requires standing { IsStanding self.old }
        requires earlier { rank next < rank self.old.next }
        ensures { (request : Request) → turn_of_asked asked ≡ asks_for request → IsStep result self.new self.old.nodes self.old.entries (work_of self.old) (unless_null obj at request (means_of self.old) (λ reply left. going_in self.old next (told_operands takes_reply reply self.old.operands.items) self.old.locals left (rest_of self.old))) }
    {
        if obj == 0 {
            return Some(Asked::End(End::Null(at)));
        }
        self.ask(asked, next, takes_reply)
    }

    /// The condition of a loop is known: the body comes, or what is behind the loop.
    fn after_test(&mut self, body: Next, next: Next, again: usize) -> Option<Asked>
        requires standing { IsStanding self.old }
        requires places { AreBelow (suc (length self.old.nodes)) (body ∷ next ∷ Next.At again ∷ []) }
        requires room { length self.old.frames.items + self.old.charge < self.old.frames.room }
        requires ended { self.old.next ≡ Next.Last }
        ensures { IsStep result self.new self.old.nodes self.old.entries (work_of (record self.old { frames = record { items = Frame.Test body next again ∷ self.old.frames.items; room = self.old.frames.room } })) (behind self.old.nodes self.old.entries (Frame.Test body next again ∷ self.old.frames.items) self.old.callers.items self.old.operands.items self.old.locals (means_of self.old)) }
    {
        if self.take() == 0 {
            self.go_to(next);
        } else {
            self.frames.push(Frame::Body { again });
            self.go_to(body);
        }
        None
    }

    /// The body of a loop is done: the loop goes on.
    fn loop_again(&mut self, again: usize) -> Option<Asked>
        requires standing { IsStanding self.old }
        requires places { AreBelow (suc (length self.old.nodes)) (Next.At again ∷ []) }
        requires ended { self.old.next ≡ Next.Last }
        ensures { IsStep result self.new self.old.nodes self.old.entries (work_of (record self.old { frames = record { items = Frame.Body again ∷ self.old.frames.items; room = self.old.frames.room } })) (behind self.old.nodes self.old.entries (Frame.Body again ∷ self.old.frames.items) self.old.callers.items self.old.operands.items self.old.locals (means_of self.old)) }
    {
        self.go_to(Next::At(again));
        None
    }

    /// The body of a procedure is done: its caller goes on.
    fn return_to(&mut self, next: Next) -> Option<Asked>
        requires standing { IsStanding self.old }
        requires places { AreBelow (suc (length self.old.nodes)) (next ∷ []) }
        requires ended { self.old.next ≡ Next.Last }
        ensures { IsStep result self.new self.old.nodes self.old.entries (work_of (record self.old { frames = record { items = Frame.Return next ∷ self.old.frames.items; room = self.old.frames.room } })) (behind self.old.nodes self.old.entries (Frame.Return next ∷ self.old.frames.items) self.old.callers.items self.old.operands.items self.old.locals (means_of self.old)) }
    {
        match self.callers.pop() {
            None => Some(Asked::End(End::Finished)),
            Some(caller) => {
                self.locals = caller;
                self.go_to(next);
                None
            }
        }
    }

    /// Code has ended: the last frame goes on.
    pub(crate) fn leave(&mut self) -> Option<Asked>
        requires standing { IsStanding self.old }
        requires ended { self.old.next ≡ Next.Last }
        ensures { IsStep result self.new self.old.nodes self.old.entries (work_of self.old) (deed_of self.old) }
    {
        match self.frames.pop() {
            None => Some(Asked::End(End::Finished)),
            Some(Frame::Test { body, next, again }) => self.after_test(body, next, again),
            Some(Frame::Body { again }) => self.loop_again(again),
            Some(Frame::Return { next }) => self.return_to(next),
        }
    }
}
