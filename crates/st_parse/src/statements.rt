//! Statements that have no blocks in them, one function for each rule.
ghost use Rattle.std.specs.Prelude.{◌≡◌, ◌<◌, ◌≤◌, length, OnOk};
ghost use Rattle.st_grammar_laws.specs.Reading as spec;
ghost use Rattle.st_parse.specs.Reads.{Reads};

use crate::arguments::arguments;
use crate::cursors::Cursor;
use crate::expressions::expression;
use crate::places::{place, place_after, typed};
use crate::stops::Stop;
use crate::values::assigned;
use st_ast::{Expr, Stmt};
use st_grammar::{Lexeme, MOST_TOKENS_BETWEEN, Sort};
use std::alloc::Global;

/// `"var" name ":" type "=" value ";"`.
#[tactic(auto, unfolding(st_grammar_laws::specs::Reading::var_stmt))]
pub fn var_stmt(alloc: Global, cursor: &mut Cursor<'_, '_>) -> Result<Stmt, Stop>
    ensures reads { Reads (λ s. s) (spec.var_stmt cursor.old) result cursor.new }
    ensures shorter { OnOk result (length cursor.new < length cursor.old) }
{
    let word = cursor.expect(Sort::Var)?;
    let name = cursor.expect(Sort::Name)?;
    let kind = typed(alloc, cursor)?;
    let value = assigned(alloc, cursor)?;
    Ok(Stmt::Var {
        name: name.name(alloc)?,
        name_site: name.site(),
        kind,
        value,
        site: word.site(),
    })
}

/// `"=" value ";"` after a place.
#[tactic(auto, unfolding(st_grammar_laws::specs::Reading::put_after))]
fn put_after(alloc: Global, cursor: &mut Cursor<'_, '_>, place: Expr) -> Result<Stmt, Stop>
    ensures reads { Reads (λ s. s) (spec.put_after place cursor.old) result cursor.new }
    ensures shorter { OnOk result (length cursor.new < length cursor.old) }
{
    let value = assigned(alloc, cursor)?;
    let site = place.site();
    Ok(Stmt::Put { place, value, site })
}

/// `"(" [ args ] ")" ";"` after a name.
#[tactic(auto, unfolding(st_grammar_laws::specs::Reading::call_after, st_grammar_laws::specs::Reading::args, st_grammar_laws::specs::Reading::whole))]
fn call_after(alloc: Global, cursor: &mut Cursor<'_, '_>, name: &Lexeme<'_>) -> Result<Stmt, Stop>
    ensures reads { Reads (λ s. s) (spec.call_after name.now cursor.old) result cursor.new }
    ensures shorter { OnOk result (length cursor.new < length cursor.old) }
{
    cursor.expect(Sort::OpenParen)?;
    let args = arguments(alloc, cursor, MOST_TOKENS_BETWEEN + 1)?;
    cursor.expect(Sort::Semicolon)?;
    Ok(Stmt::Call {
        name: name.name(alloc)?,
        args,
        site: name.site(),
    })
}

/// `"=" value ";"` after a name.
fn assign_after(alloc: Global, cursor: &mut Cursor<'_, '_>, name: &Lexeme<'_>) -> Result<Stmt, Stop>
    ensures reads { Reads (λ s. s) (spec.assign_after name.now cursor.old) result cursor.new }
    ensures shorter { OnOk result (length cursor.new < length cursor.old) }
{
    let value = assigned(alloc, cursor)?;
    Ok(Stmt::Assign {
        name: name.name(alloc)?,
        value,
        site: name.site(),
    })
}

/// A statement that begins with a name.
#[tactic(auto, unfolding(st_grammar_laws::specs::Reading::named_stmt))]
pub fn named_stmt(alloc: Global, cursor: &mut Cursor<'_, '_>) -> Result<Stmt, Stop>
    ensures reads { Reads (λ s. s) (spec.named_stmt cursor.old) result cursor.new }
    ensures shorter { OnOk result (length cursor.new < length cursor.old) }
{
    let name = cursor.expect(Sort::Name)?;
    match cursor.next_sort() {
        Sort::Assign => assign_after(alloc, cursor, &name),
        Sort::OpenParen => call_after(alloc, cursor, &name),
        Sort::Dot => {
            let place = place_after(alloc, cursor, &name)?;
            put_after(alloc, cursor, place)
        }
        _ => Err(Stop::Fault),
    }
}

/// A statement that begins with the shared object.
#[tactic(auto, unfolding(st_grammar_laws::specs::Reading::shared_stmt))]
pub fn shared_stmt(alloc: Global, cursor: &mut Cursor<'_, '_>) -> Result<Stmt, Stop>
    ensures reads { Reads (λ s. s) (spec.shared_stmt cursor.old) result cursor.new }
    ensures shorter { OnOk result (length cursor.new < length cursor.old) }
{
    let place = place(alloc, cursor)?;
    put_after(alloc, cursor, place)
}

/// `"check" expr ";"`.
#[tactic(auto, unfolding(st_grammar_laws::specs::Reading::check_stmt))]
pub fn check_stmt(alloc: Global, cursor: &mut Cursor<'_, '_>) -> Result<Stmt, Stop>
    ensures reads { Reads (λ s. s) (spec.check_stmt cursor.old) result cursor.new }
    ensures shorter { OnOk result (length cursor.new < length cursor.old) }
{
    let word = cursor.expect(Sort::Check)?;
    let body = expression(alloc, cursor)?;
    cursor.expect(Sort::Semicolon)?;
    Ok(Stmt::Check {
        body,
        site: word.site(),
    })
}
