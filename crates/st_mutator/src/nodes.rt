//! The code of a thread: nodes, each of which names the nodes where it goes on. A node names only earlier ones, so code that goes
//! nowhere else ends; loops and calls go on by frames.

use st_events::Site;
use st_resolved::Operator;

/// Where code goes on.
#[derive(Clone, Copy, Debug)]
pub(crate) enum Next {
    /// At the node with this index.
    At(usize),
    /// Nowhere: the code ends here, and the last frame goes on.
    Last,
}

/// What is done to the operands, the locals and the heap, and where the code goes on then.
#[derive(Clone, Copy, Debug)]
pub(crate) enum Node {
    /// Pushes a word.
    Push {
        word: u64,
        next: Next,
    },
    /// Drops the top operand.
    Pop {
        next: Next,
    },
    /// Pushes the word of a local.
    Local {
        local: u8,
        next: Next,
    },
    /// Takes an object, and loads a field of it.
    Field {
        field: u8,
        /// The `.`, where null is a fault.
        at: Site,
        next: Next,
    },
    /// Turns true and false.
    Not {
        next: Next,
    },
    /// Takes a number, and pushes it with the other sign.
    Minus {
        at: Site,
        next: Next,
    },
    /// Takes the right operand and then the left one, and pushes what the operator gives.
    Binary {
        operator: Operator,
        at: Site,
        next: Next,
    },
    /// Takes a truth, and goes on by it.
    Branch {
        when_true: Next,
        when_false: Next,
    },
    /// Takes the value of a local.
    Set {
        local: u8,
        next: Next,
    },
    /// Makes an object, and pushes its number.
    New {
        class: u8,
        /// The word `new`, where a full heap is a fault.
        at: Site,
        next: Next,
    },
    /// Takes a word and then an object, and stores the word.
    Store {
        field: u8,
        at: Site,
        next: Next,
    },
    /// Takes the new word, the expected one and then an object; pushes whether the word was replaced.
    Cas {
        field: u8,
        at: Site,
        next: Next,
    },
    /// Takes so many arguments, the last one on top, and launches a check.
    Launch {
        site: u16,
        count: u8,
        next: Next,
    },
    /// A loop: the code of its condition leaves a truth.
    While {
        test: Next,
        body: Next,
        next: Next,
    },
    /// Takes so many arguments, the last one on top, and calls a procedure.
    Call {
        procedure: u8,
        count: usize,
        /// The name, where too deep a call is a fault.
        at: Site,
        next: Next,
    },
}

/// The body of a procedure or a thread: where its code begins, and how many locals it has.
#[derive(Clone, Copy, Debug)]
pub(crate) struct Entry {
    pub(crate) first: Next,
    pub(crate) locals: usize,
}

/// What goes on where code ends.
#[derive(Clone, Copy, Debug)]
pub(crate) enum Frame {
    /// The condition of the loop at this node is evaluated: the body is done, or the code behind the loop.
    Test {
        body: Next,
        next: Next,
        again: usize,
    },
    /// The body of a loop is done: the loop goes on, at this node.
    Body {
        again: usize,
    },
    /// The body of a procedure is done: its caller goes on.
    Return {
        next: Next,
    },
}
