//! Operators between two operands: what they ask, and what they are.
ghost use Rattle.std.specs.Prelude.{◌≡◌, ◌++◌};
ghost use Rattle.st_types.specs.Kinds.{asks};
ghost use Rattle.st_resolved.specs.Views.{term_of};
ghost use Rattle.st_types.specs.Checked.{Gives, verdict};
ghost use Rattle.st_types.specs.Nodes.{left_asked, right_asked, op_kind, op_term};
ghost use Rattle.st_types.specs.Typing.{seen_of};

use crate::errors::TypeError;
use crate::expressions::{BOOL, INT, Typing, leaf};
use crate::kinds::{Found, Question, ask_both};
use st_ast::Op;
use st_events::Site;
use st_resolved::{Boxed, Expr, Operator};
use std::alloc::Global;

/// What is asked of a left operand.
fn left_asked(op: Op) -> Found
    ensures { result ≡ left_asked op }
{
    match op {
        Op::Equal | Op::NotEqual => Found::Unknown,
        Op::Both | Op::Either => BOOL,
        _ => INT,
    }
}

/// What is asked of a right operand, beside a left one of this kind.
fn right_asked(op: Op, left: Found) -> Found
    ensures { result ≡ right_asked op left }
{
    match op {
        Op::Equal | Op::NotEqual => left,
        op => left_asked(op),
    }
}

/// The kind that an operator gives.
fn op_kind(op: Op) -> Found
    ensures { result ≡ op_kind op }
{
    match op {
        Op::Add | Op::Sub | Op::Mul | Op::Div | Op::Rem => INT,
        _ => BOOL,
    }
}

/// An operator of two expressions.
fn op_expr(op: Op, left: Boxed<Expr>, right: Boxed<Expr>, at: Site) -> Expr
    ensures { term_of result ≡ op_term op (term_of left) (term_of right) at }
{
    let operator = match op {
        Op::Add => Operator::Add,
        Op::Sub => Operator::Sub,
        Op::Mul => Operator::Mul,
        Op::Div => Operator::Div,
        Op::Rem => Operator::Rem,
        Op::Less => Operator::Less,
        Op::LessEq => Operator::LessEq,
        Op::Greater => Operator::Greater,
        Op::GreaterEq => Operator::GreaterEq,
        Op::Equal => Operator::Equal,
        Op::NotEqual => Operator::NotEqual,
        Op::Both => return Expr::Both { left, right },
        Op::Either => return Expr::Either { left, right },
    };
    Expr::Binary {
        operator,
        left,
        right,
        at,
    }
}

/// `left op right`.
pub(crate) fn binary(
    alloc: Global,
    op: Op,
    left: Typing,
    right: Typing,
    site: Site,
) -> Result<Typing, TypeError>
    ensures { Gives seen_of result (verdict (asks (left_asked op) left.site left.kind ++ asks (right_asked op left.kind) right.site right.kind) (record { site = site; kind = op_kind op; term = op_term op (term_of left.expr) (term_of right.expr) site })) }
{
    ask_both(
        Question {
            asked: left_asked(op),
            at: left.site,
            found: left.kind,
        },
        Question {
            asked: right_asked(op, left.kind),
            at: right.site,
            found: right.kind,
        },
    )?;
    let expr = op_expr(op, left.expr, right.expr, site);
    leaf(alloc, op_kind(op), expr, site)
}
