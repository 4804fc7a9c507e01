//! The levels of an expression.

/// The levels of an expression that rules name inside another expression.
#[derive(Clone, Copy, Debug, PartialEq, Eq)]
pub enum Level {
    /// A whole expression.
    Whole,
    /// An operand with its prefix marks.
    Prefixed,
}
