//! Statements, and the values that they give to their targets.

use crate::declarations::TypeName;
use crate::expressions::Expr;
use crate::names::Name;
use sqlite_items::Items;
use st_events::Site;

/// What stands to the right of `=` in a statement.
#[derive(Drop)]
pub enum Value {
    /// An expression.
    Plain(Expr),
    /// `new class`.
    New {
        class: Name,
        /// The word `new`.
        site: Site,
    },
    /// `cas(place, expect, value)`.
    Cas {
        /// A `Field` or a `Shared`.
        place: Expr,
        expect: Expr,
        value: Expr,
        /// The word `cas`.
        site: Site,
    },
}

/// A statement.
#[derive(Drop)]
pub enum Stmt {
    /// `var name: kind = value;`.
    Var {
        name: Name,
        /// The name's token.
        name_site: Site,
        kind: TypeName,
        value: Value,
        /// The word `var`.
        site: Site,
    },
    /// `name = value;`.
    Assign {
        name: Name,
        value: Value,
        /// The name.
        site: Site,
    },
    /// `place = value;`.
    Put {
        /// A `Field` or a `Shared`.
        place: Expr,
        value: Value,
        /// The site of the place: its last `.`.
        site: Site,
    },
    /// `if (cond) { then } else { other }`.
    If {
        cond: Expr,
        then: Items<Stmt>,
        /// Nothing where no `else` is written.
        other: Option<Items<Stmt>>,
        /// The word `if`.
        site: Site,
    },
    /// `while (cond) { body }`.
    While {
        cond: Expr,
        body: Items<Stmt>,
        /// The word `while`.
        site: Site,
    },
    /// `name(args);`.
    Call {
        name: Name,
        /// The arguments, from left to right.
        args: Items<Expr>,
        /// The name.
        site: Site,
    },
    /// `check body;`.
    Check {
        body: Expr,
        /// The word `check`.
        site: Site,
    },
}
