//! Expressions, one function for each rule. `depth` says how deep expressions may still nest: each that stands inside
//! another is read with one less, so the limit on tokens bounds the recursion.
ghost use Rattle.std.specs.Prelude.{◌≡◌, ◌<◌, ◌≤◌, length, OnOk};
ghost use Rattle.st_grammar_laws.specs.Reading as spec;
ghost use Rattle.st_parse.specs.Reads.{Reads};

use crate::chains::linked;
use crate::cursors::Cursor;
use crate::primaries::unary;
use crate::stops::Stop;
use st_ast::{Boxed, Expr};
use st_grammar::{Chain, MOST_TOKENS_BETWEEN, Sort};
use st_grammar_laws::Level;
use std::alloc::Global;

/// `"?" expr ":" expr`, after its test.
#[tactic(auto, unfolding(st_grammar_laws::specs::Reading::branches))]
#[cycle(expr)]
fn branches(
    alloc: Global,
    cursor: &mut Cursor<'_, '_>,
    depth: usize,
    test: Expr,
) -> Result<Expr, Stop>
    ensures reads { Reads (λ e. e) (spec.branches (spec.nested depth) test cursor.old) result cursor.new }
    ensures shorter { OnOk result (length cursor.new < length cursor.old) }
{
    let question = cursor.expect(Sort::Question)?;
    let yes = nested(alloc, cursor, depth, Level::Whole)?;
    cursor.expect(Sort::Colon)?;
    let no = nested(alloc, cursor, depth, Level::Whole)?;
    Ok(Expr::Cond {
        test: Boxed::new(alloc, test)?,
        yes: Boxed::new(alloc, yes)?,
        no: Boxed::new(alloc, no)?,
        site: question.site(),
    })
}

/// `or [ "?" expr ":" expr ]`.
#[tactic(auto, unfolding(st_grammar_laws::specs::Reading::choice, st_grammar_laws::specs::Reading::or))]
#[cycle(expr)]
fn choice(alloc: Global, cursor: &mut Cursor<'_, '_>, depth: usize) -> Result<Expr, Stop>
    ensures reads { Reads (λ e. e) (spec.choice (spec.nested depth) cursor.old) result cursor.new }
    ensures shorter { OnOk result (length cursor.new < length cursor.old) }
{
    let test = linked(alloc, cursor, depth, Chain::Either)?;
    if cursor.sees(Sort::Question) {
        branches(alloc, cursor, depth, test)
    } else {
        Ok(test)
    }
}

/// An expression of a level, in which expressions nest no deeper than `depth`.
#[tactic(auto, unfolding(st_grammar_laws::specs::Reading::nested))]
#[cycle(expr)]
pub fn nested(
    alloc: Global,
    cursor: &mut Cursor<'_, '_>,
    depth: usize,
    level: Level,
) -> Result<Expr, Stop>
    ensures reads { Reads (λ e. e) (spec.nested depth level cursor.old) result cursor.new }
    ensures shorter { OnOk result (length cursor.new < length cursor.old) }
{
    if depth == 0 {
        return Err(Stop::Fault);
    }
    match level {
        Level::Whole => choice(alloc, cursor, depth - 1),
        Level::Prefixed => unary(alloc, cursor, depth - 1),
    }
}

/// An expression.
#[tactic(auto, unfolding(st_grammar_laws::specs::Reading::whole))]
pub fn expression(alloc: Global, cursor: &mut Cursor<'_, '_>) -> Result<Expr, Stop>
    ensures reads { Reads (λ e. e) (spec.whole cursor.old) result cursor.new }
    ensures shorter { OnOk result (length cursor.new < length cursor.old) }
{
    nested(alloc, cursor, MOST_TOKENS_BETWEEN + 1, Level::Whole)
}
