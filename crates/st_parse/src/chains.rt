//! Operators with their operands, level by level.
ghost use Rattle.std.specs.Prelude.{◌≡◌, ◌<◌, ◌≤◌, length, IfOk, OnOk, Some};
ghost use Rattle.st_ast.specs.declared.expressions.Expr.TheVariants as expr;
ghost use Rattle.st_grammar_laws.specs.Reading as spec;
ghost use Rattle.st_parse.specs.Reads.{Reads};

use crate::cursors::Cursor;
use crate::primaries::unary;
use crate::stops::Stop;
use st_ast::{Boxed, Expr, Op};
use st_events::Site;
use st_grammar::{Chain, comparison};
use std::alloc::{AllocError, Global};

/// An operator with its operands.
fn binary(alloc: Global, op: Op, left: Expr, right: Expr, site: Site) -> Result<Expr, AllocError>
    ensures { IfOk result (λ e. e ≡ expr.Binary op left right site) }
{
    Ok(Expr::Binary {
        op,
        left: Boxed::new(alloc, left)?,
        right: Boxed::new(alloc, right)?,
        site,
    })
}

/// An operand of the operators of a level.
#[tactic(auto, unfolding(st_grammar_laws::specs::Reading::or, st_grammar_laws::specs::Reading::and, st_grammar_laws::specs::Reading::sum, st_grammar_laws::specs::Reading::term))]
#[cycle(expr)]
fn operand(
    alloc: Global,
    cursor: &mut Cursor<'_, '_>,
    depth: usize,
    chain: Chain,
) -> Result<Expr, Stop>
    ensures reads { Reads (λ e. e) (spec.operand_of (spec.nested depth) chain cursor.old) result cursor.new }
    ensures shorter { OnOk result (length cursor.new < length cursor.old) }
{
    match chain {
        Chain::Either => linked(alloc, cursor, depth, Chain::Both),
        Chain::Both => compared(alloc, cursor, depth),
        Chain::Sum => linked(alloc, cursor, depth, Chain::Product),
        Chain::Product => unary(alloc, cursor, depth),
    }
}

/// The next operator of a level and its right operand.
#[tactic(auto, unfolding(st_grammar_laws::specs::Reading::link))]
#[cycle(expr)]
fn link(
    alloc: Global,
    cursor: &mut Cursor<'_, '_>,
    depth: usize,
    chain: Chain,
    left: Expr,
) -> Result<Expr, Stop>
    ensures reads { Reads (λ e. e) (spec.link (spec.nested depth) chain (spec.operand_of (spec.nested depth) chain) left cursor.old) result cursor.new }
    ensures shorter { OnOk result (length cursor.new < length cursor.old) }
{
    match chain.operator(cursor.next_sort()) {
        None => Err(Stop::Fault),
        Some(op) => {
            let site = cursor.take()?.site();
            let right = operand(alloc, cursor, depth, chain)?;
            Ok(binary(alloc, op, left, right, site)?)
        }
    }
}

/// `operand { operator operand }`, grouped to the left.
#[tactic(auto, unfolding(st_grammar_laws::specs::Reading::linked))]
#[cycle(expr)]
pub fn linked(
    alloc: Global,
    cursor: &mut Cursor<'_, '_>,
    depth: usize,
    chain: Chain,
) -> Result<Expr, Stop>
    ensures reads { Reads (λ e. e) (spec.linked (spec.nested depth) chain (spec.operand_of (spec.nested depth) chain) cursor.old) result cursor.new }
    ensures shorter { OnOk result (length cursor.new < length cursor.old) }
{
    let mut left = operand(alloc, cursor, depth, chain)?;
    while chain.operator(cursor.next_sort()).is_some() {
        left = link(alloc, cursor, depth, chain, left)?;
    }
    Ok(left)
}

/// `sum [ comparison sum ]`.
#[tactic(auto, unfolding(st_grammar_laws::specs::Reading::cmp, st_grammar_laws::specs::Reading::sum))]
#[cycle(expr)]
fn compared(alloc: Global, cursor: &mut Cursor<'_, '_>, depth: usize) -> Result<Expr, Stop>
    ensures reads { Reads (λ e. e) (spec.cmp (spec.nested depth) cursor.old) result cursor.new }
    ensures shorter { OnOk result (length cursor.new < length cursor.old) }
{
    let left = linked(alloc, cursor, depth, Chain::Sum)?;
    match comparison(cursor.next_sort()) {
        None => Ok(left),
        Some(op) => {
            let site = cursor.take()?.site();
            let right = linked(alloc, cursor, depth, Chain::Sum)?;
            Ok(binary(alloc, op, left, right, site)?)
        }
    }
}
