//! Operands: what stands between operators.
ghost use Rattle.std.specs.Prelude.{◌≡◌, ◌<◌, ◌≤◌, length, OnOk};
ghost use Rattle.st_grammar_laws.specs.Reading as spec;
ghost use Rattle.st_parse.specs.Reads.{Reads};

use crate::arguments::arguments;
use crate::cursors::Cursor;
use crate::expressions::nested;
use crate::places::{fields_after, local, shared_field};
use crate::stops::Stop;
use st_ast::{Boxed, Expr};
use st_grammar::Sort;
use st_grammar_laws::Level;
use std::alloc::Global;

/// A token that is an expression by itself.
#[tactic(auto, unfolding(st_grammar_laws::specs::Reading::literal))]
fn literal(cursor: &mut Cursor<'_, '_>) -> Result<Expr, Stop>
    ensures reads { Reads (λ e. e) (spec.literal cursor.old) result cursor.new }
    ensures shorter { OnOk result (length cursor.new < length cursor.old) }
{
    match cursor.next_sort() {
        Sort::Number => {
            let number = cursor.take()?;
            Ok(Expr::Number {
                value: number.value(),
                site: number.site(),
            })
        }
        Sort::True => Ok(Expr::Truth {
            value: true,
            site: cursor.take()?.site(),
        }),
        Sort::False => Ok(Expr::Truth {
            value: false,
            site: cursor.take()?.site(),
        }),
        Sort::Null => Ok(Expr::Null {
            site: cursor.take()?.site(),
        }),
        _ => Err(Stop::Fault),
    }
}

/// `name | name "(" [ args ] ")"`.
#[tactic(auto, unfolding(st_grammar_laws::specs::Reading::named))]
#[cycle(expr)]
fn named(alloc: Global, cursor: &mut Cursor<'_, '_>, depth: usize) -> Result<Expr, Stop>
    ensures reads { Reads (λ e. e) (spec.named (spec.nested depth) cursor.old) result cursor.new }
    ensures shorter { OnOk result (length cursor.new < length cursor.old) }
{
    let name = cursor.expect(Sort::Name)?;
    if !cursor.sees(Sort::OpenParen) {
        return Ok(local(alloc, &name)?);
    }
    cursor.expect(Sort::OpenParen)?;
    let args = arguments(alloc, cursor, depth)?;
    Ok(Expr::Call {
        name: name.name(alloc)?,
        args,
        site: name.site(),
    })
}

/// `"(" expr ")"`.
#[tactic(auto, unfolding(st_grammar_laws::specs::Reading::paren))]
#[cycle(expr)]
fn paren(alloc: Global, cursor: &mut Cursor<'_, '_>, depth: usize) -> Result<Expr, Stop>
    ensures reads { Reads (λ e. e) (spec.paren (spec.nested depth) cursor.old) result cursor.new }
    ensures shorter { OnOk result (length cursor.new < length cursor.old) }
{
    let opening = cursor.expect(Sort::OpenParen)?;
    let inner = nested(alloc, cursor, depth, Level::Whole)?;
    cursor.expect(Sort::CloseParen)?;
    Ok(Expr::Paren {
        inner: Boxed::new(alloc, inner)?,
        site: opening.site(),
    })
}

/// `number | "true" | "false" | "null" | name | name "(" [ args ] ")" | "shared" "." name | "(" expr ")"`.
#[tactic(auto, unfolding(st_grammar_laws::specs::Reading::primary, st_grammar_laws::specs::Reading::literal))]
#[cycle(expr)]
fn primary(alloc: Global, cursor: &mut Cursor<'_, '_>, depth: usize) -> Result<Expr, Stop>
    ensures reads { Reads (λ e. e) (spec.primary (spec.nested depth) cursor.old) result cursor.new }
    ensures shorter { OnOk result (length cursor.new < length cursor.old) }
{
    match cursor.next_sort() {
        Sort::Name => named(alloc, cursor, depth),
        Sort::Shared => shared_field(alloc, cursor),
        Sort::OpenParen => paren(alloc, cursor, depth),
        _ => literal(cursor),
    }
}

/// `primary { "." name }`.
#[tactic(auto, unfolding(st_grammar_laws::specs::Reading::postfix))]
#[cycle(expr)]
fn postfix(alloc: Global, cursor: &mut Cursor<'_, '_>, depth: usize) -> Result<Expr, Stop>
    ensures reads { Reads (λ e. e) (spec.postfix (spec.nested depth) cursor.old) result cursor.new }
    ensures shorter { OnOk result (length cursor.new < length cursor.old) }
{
    let object = primary(alloc, cursor, depth)?;
    fields_after(alloc, cursor, object)
}

/// `( "!" | "-" ) unary | postfix`.
#[tactic(auto, unfolding(st_grammar_laws::specs::Reading::unary))]
#[cycle(expr)]
pub fn unary(alloc: Global, cursor: &mut Cursor<'_, '_>, depth: usize) -> Result<Expr, Stop>
    ensures reads { Reads (λ e. e) (spec.unary (spec.nested depth) cursor.old) result cursor.new }
    ensures shorter { OnOk result (length cursor.new < length cursor.old) }
{
    match cursor.next_sort() {
        Sort::Not => {
            let site = cursor.take()?.site();
            let inner = nested(alloc, cursor, depth, Level::Prefixed)?;
            Ok(Expr::Not {
                inner: Boxed::new(alloc, inner)?,
                site,
            })
        }
        Sort::Minus => {
            let site = cursor.take()?.site();
            let inner = nested(alloc, cursor, depth, Level::Prefixed)?;
            Ok(Expr::Minus {
                inner: Boxed::new(alloc, inner)?,
                site,
            })
        }
        _ => postfix(alloc, cursor, depth),
    }
}
