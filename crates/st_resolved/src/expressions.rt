//! Expressions, with numbers in the place of names. Parentheses are gone.

use sqlite_items::{Boxed, Items};
use st_events::Site;

/// An operator whose two operands are both evaluated, the left one first.
#[derive(Clone, Copy, Debug, PartialEq, Eq)]
pub enum Operator {
    /// `+`
    Add,
    /// `-`
    Sub,
    /// `*`
    Mul,
    /// `/`
    Div,
    /// `%`
    Rem,
    /// `<`
    Less,
    /// `<=`
    LessEq,
    /// `>`
    Greater,
    /// `>=`
    GreaterEq,
    /// `==`, of two words of one kind
    Equal,
    /// `!=`
    NotEqual,
}

/// An expression. Locals are numbered within their body: the parameters, then each `var`, from 0 in source order. In a
/// predicate they are its parameters, and in a check its arguments.
#[derive(Drop)]
pub enum Expr {
    /// A number.
    Number(i64),
    /// `true` or `false`.
    Truth(bool),
    /// `null`.
    Null,
    /// A local, by its number.
    Local(u8),
    /// A shared variable: a field of object 1, by its number.
    Shared(u8),
    /// A field of an object.
    Field {
        object: Boxed<Expr>,
        /// From 0, in the order of the object's class.
        field: u8,
        /// The `.`, where null is a fault.
        at: Site,
    },
    /// `!inner`.
    Not(Boxed<Expr>),
    /// `-inner`.
    Minus {
        inner: Boxed<Expr>,
        /// The mark, where an overflow is a fault.
        at: Site,
    },
    /// `left operator right`.
    Binary {
        operator: Operator,
        left: Boxed<Expr>,
        right: Boxed<Expr>,
        /// The mark, where an overflow and a division by zero are faults.
        at: Site,
    },
    /// `left && right`: the right one is evaluated only where the left one is true.
    Both {
        left: Boxed<Expr>,
        right: Boxed<Expr>,
    },
    /// `left || right`: the right one is evaluated only where the left one is false.
    Either {
        left: Boxed<Expr>,
        right: Boxed<Expr>,
    },
    /// `test ? yes : no`: one of the two branches is evaluated.
    Cond {
        test: Boxed<Expr>,
        yes: Boxed<Expr>,
        no: Boxed<Expr>,
    },
    /// A call of a predicate.
    Call {
        /// From 0, in source order.
        pred: u8,
        args: Items<Expr>,
    },
}
