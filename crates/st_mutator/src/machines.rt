//! A thread that runs: its code, and where it stands in it.

use crate::locals::Locals;
use crate::nodes::{Entry, Frame, Next, Node};
use crate::stacks::Stack;
use st_resolved::Items;

/// A thread between two steps.
#[derive(Debug, Drop)]
pub(crate) struct Machine {
    /// The code of all procedures and of the thread.
    pub(crate) nodes: Items<Node>,
    /// Where the procedures begin, in source order.
    pub(crate) entries: Items<Entry>,
    /// Where the code goes on.
    pub(crate) next: Next,
    /// Whether the next reply is an operand.
    pub(crate) takes_reply: bool,
    pub(crate) operands: Stack<u64>,
    /// The locals of the body that runs.
    pub(crate) locals: Locals,
    /// The locals of the bodies whose calls are open.
    pub(crate) callers: Stack<Locals>,
    pub(crate) frames: Stack<Frame>,
    /// How much charge is left.
    pub(crate) charge: u32,
    /// How many objects the thread may still make.
    pub(crate) room: u32,
}
