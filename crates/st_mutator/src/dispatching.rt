//! One step, and the steps to what is asked for next.
ghost use Rattle.std.specs.Prelude.{◌≡◌, Some, slice_get};
ghost use Rattle.st_mutator.specs.Standing.{IsStanding, IsStep, IsWaiting, IsAnswer, work_of, rank, AreBelow, places_of, node_deed, deed_of, deed_when_told};

use crate::asking::Asked;
use crate::machines::Machine;
use crate::nodes::{Next, Node};
use st_events::End;

impl Machine {
    /// What the node with this index does.
    fn run(&mut self, index: usize, node: Node) -> Option<Asked>
        requires standing { IsStanding self.old }
        requires at { self.old.next ≡ Next.At index }
        requires here { slice_get self.old.nodes index ≡ Some node }
        requires places { AreBelow (rank self.old.next) (places_of node) }
        ensures { IsStep result self.new self.old.nodes self.old.entries (work_of self.old) (node_deed self.old node) }
    {
        match node {
            Node::Push { word, next } => self.give(word, next),
            Node::Pop { next } => self.drop_word(next),
            Node::Local { local, next } => self.push_local(local, next),
            Node::Field { field, at, next } => self.load_field(field, at, next),
            Node::Not { next } => self.turn_truth(next),
            Node::Minus { at, next } => self.turn_sign(at, next),
            Node::Binary { operator, at, next } => self.apply(operator, at, next),
            Node::Branch {
                when_true,
                when_false,
            } => self.branch(when_true, when_false),
            Node::Set { local, next } => self.set_local(local, next),
            Node::New { class, at, next } => self.make_object(class, at, next),
            Node::Store { field, at, next } => self.store_field(field, at, next),
            Node::Cas { field, at, next } => self.exchange_field(field, at, next),
            Node::Launch { site, count, next } => self.launch(site, count, next),
            Node::While { test, body, next } => self.begin_turn(index, test, body, next),
            Node::Call {
                procedure,
                count,
                at,
                next,
            } => self.call(procedure, count, at, next),
        }
    }

    /// One step. It asks for something, or has ended, or goes on.
    fn step(&mut self) -> Option<Asked>
        requires { IsStanding self.old }
        ensures { IsStep result self.new self.old.nodes self.old.entries (work_of self.old) (deed_of self.old) }
    {
        match self.next {
            Next::Last => self.leave(),
            Next::At(index) => match self.nodes.get(index) {
                Some(node) => {
                    let node = *node;
                    self.run(index, node)
                }
                None => Some(Asked::End(End::Finished)),
            },
        }
    }

    /// The reply becomes an operand, where the code takes it.
    fn tell(&mut self, reply: u64)
        requires standing { IsStanding self.old }
        requires waiting { IsWaiting self.old }
        ensures standing { IsStanding self.new }
        ensures same { deed_of self.new ≡ deed_when_told self.old reply }
    {
        if self.takes_reply {
            self.operands.push(reply);
            self.takes_reply = false;
        }
    }

    /// Goes on by a reply to what is asked for next, or to the end.
    pub(crate) fn resume(&mut self, reply: u64) -> Asked
        requires standing { IsStanding self.old }
        requires waiting { IsWaiting self.old }
        ensures { IsAnswer result self.new (deed_when_told self.old reply) }
    {
        self.tell(reply);
        loop {
            match self.step() {
                Some(asked) => return asked,
                None => {}
            }
        }
    }
}
