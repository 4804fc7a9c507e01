//! Instructions for a stack of words.

use st_events::Site;
use st_resolved::Operator;

/// What an instruction does to the stack of words. A count passes over so many of the instructions that follow.
#[derive(Clone, Copy, Debug, PartialEq, Eq)]
pub enum Instruction {
    /// Pushes a word.
    Push(u64),
    /// Pushes the word of a local.
    Local(u8),
    /// Asks for a shared variable, and pushes its word.
    Shared(u8),
    /// Takes an object, and asks for a field of it.
    Field {
        field: u8,
        /// The `.`, where null is a fault.
        at: Site,
    },
    /// Turns true and false.
    Not,
    /// Takes a number, and pushes it with the other sign.
    Minus(Site),
    /// Takes the right operand and then the left one, and pushes what the operator gives.
    Binary {
        operator: Operator,
        at: Site,
    },
    /// Where the top is false, leaves false and passes over so many; else takes it.
    Both(usize),
    /// Where the top is true, leaves true and passes over so many; else takes it.
    Either(usize),
    /// Takes a truth; where it is false, passes over so many.
    Test(usize),
    /// Passes over so many.
    Skip(usize),
    /// Takes so many arguments, the last one on top, and pushes what the predicate gives.
    Call {
        pred: u8,
        args: usize,
    },
}
