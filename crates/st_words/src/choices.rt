//! The numbers of a run, and how it is made and told.

use crate::words::Form;

/// The numbers that the options of `run` tell.
#[derive(Clone, Copy)]
pub(crate) struct Numbers {
    /// How many checking threads there are.
    pub(crate) checkers: u8,
    /// How many checks may be active at a time.
    pub(crate) lanes: u8,
    /// How many objects each thread may make.
    pub(crate) objects: u32,
    /// The pool of copies.
    pub(crate) copies: u32,
    /// The charge of each thread.
    pub(crate) events: u32,
    /// The budget of each check.
    pub(crate) calls: u32,
}

/// How a run is made and told.
#[derive(Clone, Copy)]
pub(crate) struct Way {
    /// The seed of a scheduled run.
    pub(crate) schedule: Option<u64>,
    /// What is written.
    pub(crate) form: Form,
}
