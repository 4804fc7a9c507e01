//! Where the body of a check or of a predicate stands while it is evaluated.

/// The code of a body: the instructions from `start` on, below `end`.
#[derive(Clone, Copy, Debug, PartialEq, Eq)]
pub(crate) struct Span {
    pub start: usize,
    pub end: usize,
}

/// A body that is being evaluated. Its locals lie on the stack of words, and its words above them.
#[derive(Clone, Copy, Debug, PartialEq, Eq)]
pub(crate) struct Frame {
    /// The instruction that comes next.
    pub place: usize,
    /// The end of its code.
    pub end: usize,
    /// How many locals it has.
    pub locals: usize,
    /// How many words it has.
    pub words: usize,
}
