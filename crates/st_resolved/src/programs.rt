//! The whole of a resolved program.

use crate::expressions::Expr;
use crate::statements::Stmt;
use sqlite_items::Items;
use st_events::{Kind, Site};

/// A predicate. Its locals are its parameters.
#[derive(Drop)]
pub struct Pred {
    /// The kinds of its parameters.
    pub params: Items<Kind>,
    /// The kind of its value.
    pub result: Kind,
    pub body: Expr,
}

/// The body of a procedure or a thread.
#[derive(Drop)]
pub struct Body {
    /// How many of the locals are parameters: the first so many. A thread has none.
    pub params: u8,
    /// The kinds of the locals: the parameters, then each `var` in source order.
    pub locals: Items<Kind>,
    pub statements: Items<Stmt>,
}

/// A check statement.
#[derive(Drop)]
pub struct Check {
    /// The locals, in the body with the statement, whose values it takes at a launch. They are the locals of its own
    /// expression, in this order.
    pub args: Items<u8>,
    pub body: Expr,
    /// The word `check`.
    pub at: Site,
}

/// A program with numbers in the place of names. Each list is in source order.
#[derive(Drop)]
pub struct Resolved {
    pub preds: Items<Pred>,
    pub procs: Items<Body>,
    pub threads: Items<Body>,
    pub checks: Items<Check>,
}
