//! Programs of rows. Marks and dots stand on line 1, at the column that is given.

use st_events::{Kind, Site};
use st_resolved::{Boxed, Check, Expr, Items, Operator, Pred, Resolved};
use std::alloc::{AllocError, Global};

/// The place on line 1 with this column.
pub(super) fn column(column: u32) -> Site {
    Site { line: 1, column }
}

pub(super) fn field(alloc: Global, object: Expr, field: u8, at: u32) -> Result<Expr, AllocError> {
    Ok(Expr::Field {
        object: Boxed::new(alloc, object)?,
        field,
        at: column(at),
    })
}

pub(super) fn minus(alloc: Global, inner: Expr, at: u32) -> Result<Expr, AllocError> {
    Ok(Expr::Minus {
        inner: Boxed::new(alloc, inner)?,
        at: column(at),
    })
}

pub(super) fn not(alloc: Global, inner: Expr) -> Result<Expr, AllocError> {
    Ok(Expr::Not(Boxed::new(alloc, inner)?))
}

pub(super) fn binary(
    alloc: Global,
    left: Expr,
    operator: Operator,
    right: Expr,
    at: u32,
) -> Result<Expr, AllocError> {
    let left = Boxed::new(alloc, left)?;
    let right = Boxed::new(alloc, right)?;
    Ok(Expr::Binary {
        operator,
        left,
        right,
        at: column(at),
    })
}

pub(super) fn both(alloc: Global, left: Expr, right: Expr) -> Result<Expr, AllocError> {
    let left = Boxed::new(alloc, left)?;
    let right = Boxed::new(alloc, right)?;
    Ok(Expr::Both { left, right })
}

pub(super) fn either(alloc: Global, left: Expr, right: Expr) -> Result<Expr, AllocError> {
    let left = Boxed::new(alloc, left)?;
    let right = Boxed::new(alloc, right)?;
    Ok(Expr::Either { left, right })
}

pub(super) fn cond(alloc: Global, test: Expr, yes: Expr, no: Expr) -> Result<Expr, AllocError> {
    let test = Boxed::new(alloc, test)?;
    let yes = Boxed::new(alloc, yes)?;
    let no = Boxed::new(alloc, no)?;
    Ok(Expr::Cond { test, yes, no })
}

/// A call of predicate 0 with one argument.
pub(super) fn call(alloc: Global, arg: Expr) -> Result<Expr, AllocError> {
    let mut args = Items::new(alloc);
    args.push(arg)?;
    Ok(Expr::Call { pred: 0, args })
}

/// A program of one check of local 0, without predicates.
pub(super) fn alone(alloc: Global, body: Expr) -> Result<Resolved, AllocError> {
    program(alloc, Items::new(alloc), body)
}

/// A program of one predicate of one parameter, and of one check of local 0.
pub(super) fn with_predicate(
    alloc: Global,
    param: Kind,
    predicate: Expr,
    body: Expr,
) -> Result<Resolved, AllocError> {
    let mut preds = Items::new(alloc);
    preds.push(Pred {
        params: Items::from_slice(alloc, &[param])?,
        result: Kind::Bool,
        body: predicate,
    })?;
    program(alloc, preds, body)
}

fn program(alloc: Global, preds: Items<Pred>, body: Expr) -> Result<Resolved, AllocError> {
    let mut checks = Items::new(alloc);
    checks.push(Check {
        args: Items::from_slice(alloc, &[0])?,
        body,
        at: column(1),
    })?;
    Ok(Resolved {
        preds,
        procs: Items::new(alloc),
        threads: Items::new(alloc),
        checks,
    })
}

/// `n.next` of local 0, with its dot at this column.
fn next(alloc: Global, at: u32) -> Result<Expr, AllocError> {
    field(alloc, Expr::Local(0), 1, at)
}

/// `n == null || n.next == null` of local 0.
fn no_pair(alloc: Global) -> Result<Expr, AllocError> {
    let empty = binary(alloc, Expr::Local(0), Operator::Equal, Expr::Null, 1)?;
    let last = binary(alloc, next(alloc, 2)?, Operator::Equal, Expr::Null, 3)?;
    either(alloc, empty, last)
}

/// `n.val <= n.next.val` of local 0.
fn pair_in_order(alloc: Global) -> Result<Expr, AllocError> {
    let here = field(alloc, Expr::Local(0), 0, 4)?;
    let there = field(alloc, next(alloc, 5)?, 0, 6)?;
    binary(alloc, here, Operator::LessEq, there, 7)
}

/// `n == null || n.next == null || n.val <= n.next.val && sorted(n.next)` of local 0; fields are `val` and `next`.
pub(super) fn sorted(alloc: Global) -> Result<Expr, AllocError> {
    let none = no_pair(alloc)?;
    let pair = pair_in_order(alloc)?;
    let rest = call(alloc, next(alloc, 8)?)?;
    either(alloc, none, both(alloc, pair, rest)?)
}

/// `k <= 1 || down(k - 1)` of local 0.
pub(super) fn down(alloc: Global) -> Result<Expr, AllocError> {
    let one = binary(alloc, Expr::Local(0), Operator::LessEq, Expr::Number(1), 1)?;
    let less = binary(alloc, Expr::Local(0), Operator::Sub, Expr::Number(1), 2)?;
    either(alloc, one, call(alloc, less)?)
}

/// A division by zero at this column.
pub(super) fn fault(alloc: Global, at: u32) -> Result<Expr, AllocError> {
    binary(alloc, Expr::Number(1), Operator::Div, Expr::Number(0), at)
}
