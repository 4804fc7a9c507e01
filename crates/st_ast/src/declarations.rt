//! Declarations, and the program that holds them.

use crate::expressions::Expr;
use crate::names::Name;
use crate::statements::Stmt;
use sqlite_items::Items;
use st_events::Site;

/// The type that a declaration writes.
#[derive(Drop)]
pub enum TypeName {
    /// `int`.
    Int,
    /// `bool`.
    Bool,
    /// The name of a class, with its place.
    Class(Name, Site),
}

/// A field of a class, or a shared variable.
#[derive(Drop)]
pub struct Field {
    pub name: Name,
    pub kind: TypeName,
    /// The name.
    pub site: Site,
}

/// A class.
#[derive(Drop)]
pub struct Class {
    pub name: Name,
    pub fields: Items<Field>,
    /// The name.
    pub site: Site,
}

/// A parameter of a predicate or a procedure.
#[derive(Drop)]
pub struct Param {
    pub name: Name,
    pub kind: TypeName,
    /// The name.
    pub site: Site,
}

/// A predicate.
#[derive(Drop)]
pub struct Pred {
    pub name: Name,
    pub params: Items<Param>,
    /// The type of its value.
    pub result: TypeName,
    pub body: Expr,
    /// The name.
    pub site: Site,
}

/// A procedure.
#[derive(Drop)]
pub struct Proc {
    pub name: Name,
    pub params: Items<Param>,
    pub body: Items<Stmt>,
    /// The name.
    pub site: Site,
}

/// A thread.
#[derive(Drop)]
pub struct Thread {
    pub name: Name,
    pub body: Items<Stmt>,
    /// The name.
    pub site: Site,
}

/// A source. Each list is in the order of the text. Without a shared block, and with an empty one, `shared` is empty.
#[derive(Drop)]
pub struct Program {
    pub classes: Items<Class>,
    /// The shared variables.
    pub shared: Items<Field>,
    pub preds: Items<Pred>,
    pub procs: Items<Proc>,
    pub threads: Items<Thread>,
}
