//! Loops, calls and launches, and what a step is.
ghost use Rattle.std.specs.Prelude.{◌≡◌, ◌+◌, ◌<◌, ◌≤◌, ◌∷◌, length, take, reverse, Some, slice_get};
ghost use Rattle.st_resolved.specs.declared.limits.TheConstants.{MOST_LOCALS};
ghost use Rattle.st_thread_meaning.specs.Statements.{args_of};
ghost use Rattle.st_mutator.specs.Standing.{IsStanding, IsStep, entered_in, work_of, rank, AreBelow, places_of, node_deed, deed_of, deed_when_told, IsWaiting, IsAnswer, IsPaid};

use crate::asking::Asked;
use crate::locals::{Locals, filled};
use crate::machines::Machine;
use crate::nodes::{Entry, Frame, Next, Node};
use st_events::{Args, End, Site};
use st_thread_meaning::{CALL_COST, MOST_OPEN_CALLS, TURN_COST};
use std::mem;

impl Machine {
    /// The last operands, so many, as the arguments of a check.
    fn last_args(&self, count: u8) -> Args
        ensures { result ≡ args_of (reverse (take count self.now.operands.items)) }
    {
        let words = self.operands.last(usize::from(count));
        Args {
            count: words.len() as u8,
            words: filled(words),
        }
    }

    /// A check is launched, with the last operands as arguments.
    pub(crate) fn launch(&mut self, site: u16, count: u8, next: Next) -> Option<Asked>
        requires standing { IsStanding self.old }
        requires earlier { rank next < rank self.old.next }
        ensures { IsStep result self.new self.old.nodes self.old.entries (work_of self.old) (node_deed self.old (Node.Launch site count next)) }
    {
        let args = self.last_args(count);
        self.operands.clear();
        self.ask(Asked::Launch { site, args }, next, false)
    }

    /// Pays for a turn of a loop. Answers false, and changes nothing, where less is left than it costs.
    fn pay_for_turn(&mut self) -> bool
        ensures { IsPaid result self.new self.old TURN_COST }
    {
        self.pay(TURN_COST)
    }

    /// A turn of the loop at this node begins: its condition is evaluated.
    pub(crate) fn begin_turn(
        &mut self,
        index: usize,
        test: Next,
        body: Next,
        next: Next,
    ) -> Option<Asked>
        requires standing { IsStanding self.old }
        requires at { self.old.next ≡ Next.At index }
        requires here { slice_get self.old.nodes index ≡ Some (Node.While test body next) }
        ensures { IsStep result self.new self.old.nodes self.old.entries (work_of self.old) (node_deed self.old (Node.While test body next)) }
    {
        if !self.pay_for_turn() {
            return Some(Asked::End(End::EventsSpent));
        }
        self.frames.push(Frame::Test {
            body,
            next,
            again: index,
        });
        self.go_to(test);
        None
    }

    /// The body of a procedure begins, with the last operands as arguments. Its caller waits.
    fn enter(&mut self, entry: Entry, count: usize, next: Next)
        requires locals { entry.locals ≤ MOST_LOCALS }
        requires callers { length self.old.callers.items < self.old.callers.room }
        requires frames { length self.old.frames.items < self.old.frames.room }
        ensures { self.new ≡ entered_in entry count next self.old }
    {
        let locals = Locals::begin(self.operands.last(count), entry.locals);
        let caller = mem::replace(&mut self.locals, locals);
        self.callers.push(caller);
        self.frames.push(Frame::Return { next });
        self.go_to(entry.first);
    }

    /// A procedure is called, with the last operands as arguments.
    pub(crate) fn call(
        &mut self,
        procedure: u8,
        count: usize,
        at: Site,
        next: Next,
    ) -> Option<Asked>
        requires standing { IsStanding self.old }
        requires earlier { rank next < rank self.old.next }
        ensures { IsStep result self.new self.old.nodes self.old.entries (work_of self.old) (node_deed self.old (Node.Call procedure count at next)) }
    {
        if self.callers.len() >= MOST_OPEN_CALLS {
            return Some(Asked::End(End::ProcDeep(at)));
        }
        if !self.pay(CALL_COST) {
            return Some(Asked::End(End::EventsSpent));
        }
        match self.entries.get(usize::from(procedure)) {
            None => self.go_to(next),
            Some(entry) => {
                let entry = *entry;
                self.enter(entry, count, next);
            }
        }
        None
    }
}
