//! Statements, with numbers in the place of names.

use crate::expressions::Expr;
use sqlite_items::Items;
use st_events::Site;

/// Where a statement stores, or compares and exchanges.
#[derive(Drop)]
pub enum Target {
    /// A shared variable: a field of object 1, by its number.
    Shared(u8),
    /// A field of an object.
    Field {
        object: Expr,
        /// From 0, in the order of the object's class.
        field: u8,
        /// The last `.`, where null is a fault.
        at: Site,
    },
}

/// What stands to the right of `=` in a statement.
#[derive(Drop)]
pub enum Source {
    /// An expression, without calls.
    Plain(Expr),
    /// A new object.
    New {
        /// From 1, in source order.
        class: u8,
        /// The word `new`, where a full heap is a fault.
        at: Site,
    },
    /// `cas(target, expect, value)`: whether the word was the expected one and was replaced.
    Cas {
        target: Target,
        expect: Expr,
        value: Expr,
    },
}

/// A statement. Expressions outside of checks have no calls.
#[derive(Drop)]
pub enum Stmt {
    /// A local gets a value, at its `var` or at an assignment.
    Set {
        local: u8,
        source: Source,
    },
    /// A store.
    Put {
        target: Target,
        source: Source,
    },
    /// `if`. Without `else`, `other` is empty.
    If {
        test: Expr,
        then: Items<Stmt>,
        other: Items<Stmt>,
    },
    /// `while`.
    While {
        test: Expr,
        body: Items<Stmt>,
    },
    /// A call of a procedure.
    Call {
        /// From 0, in source order.
        procedure: u8,
        args: Items<Expr>,
        /// The name, where too deep a call is a fault.
        at: Site,
    },
    /// The launch of a check.
    Check {
        /// The number of the check statement, from 0 in source order.
        site: u16,
    },
}
