//! Blocks and the statements that have blocks in them. `depth` says how deep blocks may still nest: each that stands
//! inside another is read with one less, so the limit on braces bounds the recursion.
ghost use Rattle.std.specs.Prelude.{◌≡◌, ◌<◌, ◌≤◌, [], length, IfOk, OnOk};
ghost use Rattle.st_grammar_laws.specs.Reading as spec;
ghost use Rattle.st_parse.specs.Reads.{Reads};

use crate::cursors::Cursor;
use crate::expressions::expression;
use crate::statements::{check_stmt, named_stmt, shared_stmt, var_stmt};
use crate::stops::Stop;
use st_ast::{Expr, Items, MOST_OPEN_BRACES, Stmt};
use st_grammar::Sort;
use std::alloc::{AllocError, Global};

/// `"(" expr ")"`.
#[tactic(auto, unfolding(st_grammar_laws::specs::Reading::condition))]
fn condition(alloc: Global, cursor: &mut Cursor<'_, '_>) -> Result<Expr, Stop>
    ensures reads { Reads (λ e. e) (spec.condition cursor.old) result cursor.new }
    ensures shorter { OnOk result (length cursor.new < length cursor.old) }
{
    cursor.expect(Sort::OpenParen)?;
    let test = expression(alloc, cursor)?;
    cursor.expect(Sort::CloseParen)?;
    Ok(test)
}

/// `[ "else" block ]`.
#[cycle(block)]
#[tactic(auto, unfolding(st_grammar_laws::specs::Reading::else_part))]
fn else_part(
    alloc: Global,
    cursor: &mut Cursor<'_, '_>,
    depth: usize,
) -> Result<Option<Items<Stmt>>, Stop>
    ensures reads { Reads (λ other. other) (spec.else_part (spec.blocks depth) cursor.old) result cursor.new }
    ensures no_longer { OnOk result (length cursor.new ≤ length cursor.old) }
{
    if !cursor.sees(Sort::Else) {
        return Ok(None);
    }
    cursor.expect(Sort::Else)?;
    Ok(Some(block(alloc, cursor, depth)?))
}

/// `"if" "(" expr ")" block [ "else" block ]`.
#[cycle(block)]
#[tactic(auto, unfolding(st_grammar_laws::specs::Reading::if_stmt))]
fn if_stmt(alloc: Global, cursor: &mut Cursor<'_, '_>, depth: usize) -> Result<Stmt, Stop>
    ensures reads { Reads (λ s. s) (spec.if_stmt (spec.blocks depth) cursor.old) result cursor.new }
    ensures shorter { OnOk result (length cursor.new < length cursor.old) }
{
    let word = cursor.expect(Sort::If)?;
    let cond = condition(alloc, cursor)?;
    let then = block(alloc, cursor, depth)?;
    let other = else_part(alloc, cursor, depth)?;
    Ok(Stmt::If {
        cond,
        then,
        other,
        site: word.site(),
    })
}

/// `"while" "(" expr ")" block`.
#[cycle(block)]
#[tactic(auto, unfolding(st_grammar_laws::specs::Reading::while_stmt))]
fn while_stmt(alloc: Global, cursor: &mut Cursor<'_, '_>, depth: usize) -> Result<Stmt, Stop>
    ensures reads { Reads (λ s. s) (spec.while_stmt (spec.blocks depth) cursor.old) result cursor.new }
    ensures shorter { OnOk result (length cursor.new < length cursor.old) }
{
    let word = cursor.expect(Sort::While)?;
    let cond = condition(alloc, cursor)?;
    let body = block(alloc, cursor, depth)?;
    Ok(Stmt::While {
        cond,
        body,
        site: word.site(),
    })
}

/// A statement; its first token tells which.
#[cycle(block)]
#[tactic(auto, unfolding(st_grammar_laws::specs::Reading::statement))]
fn statement(alloc: Global, cursor: &mut Cursor<'_, '_>, depth: usize) -> Result<Stmt, Stop>
    ensures reads { Reads (λ s. s) (spec.statement (spec.blocks depth) cursor.old) result cursor.new }
    ensures shorter { OnOk result (length cursor.new < length cursor.old) }
{
    match cursor.next_sort() {
        Sort::Var => var_stmt(alloc, cursor),
        Sort::Name => named_stmt(alloc, cursor),
        Sort::Shared => shared_stmt(alloc, cursor),
        Sort::If => if_stmt(alloc, cursor, depth),
        Sort::While => while_stmt(alloc, cursor, depth),
        Sort::Check => check_stmt(alloc, cursor),
        _ => Err(Stop::Fault),
    }
}

/// Whether a statement of a block may begin with the token.
fn in_block(sort: Sort) -> bool
    ensures { result ≡ spec.in_block sort }
{
    !matches!(sort, Sort::CloseBrace | Sort::Other)
}

/// No statement yet, with room for one where one follows: blocks with one statement are many.
fn no_statements(alloc: Global, next: Sort) -> Result<Items<Stmt>, AllocError>
    ensures { IfOk result (λ body. body ≡ []) }
{
    let room = usize::from(in_block(next));
    Ok(Items::from_vec(Vec::with_capacity(alloc, room)?))
}

/// `{ stmt }`, up to the brace that closes the block.
#[cycle(block)]
fn statements(alloc: Global, cursor: &mut Cursor<'_, '_>, depth: usize) -> Result<Items<Stmt>, Stop>
    ensures reads { Reads (λ body. body) (spec.many spec.in_block (spec.statement (spec.blocks depth)) cursor.old) result cursor.new }
    ensures no_longer { OnOk result (length cursor.new ≤ length cursor.old) }
{
    let mut body = no_statements(alloc, cursor.next_sort())?;
    while in_block(cursor.next_sort()) {
        body.push(statement(alloc, cursor, depth)?)?;
    }
    Ok(body)
}

/// A block, in which blocks nest no deeper than `depth` with it.
#[cycle(block)]
fn block(alloc: Global, cursor: &mut Cursor<'_, '_>, depth: usize) -> Result<Items<Stmt>, Stop>
    ensures reads { Reads (λ body. body) (spec.blocks depth cursor.old) result cursor.new }
    ensures shorter { OnOk result (length cursor.new < length cursor.old) }
{
    if depth == 0 {
        return Err(Stop::Fault);
    }
    braced(alloc, cursor, depth - 1)
}

/// `"{" { stmt } "}"`.
#[cycle(block)]
#[tactic(auto, unfolding(st_grammar_laws::specs::Reading::block_of))]
fn braced(alloc: Global, cursor: &mut Cursor<'_, '_>, depth: usize) -> Result<Items<Stmt>, Stop>
    ensures reads { Reads (λ body. body) (spec.block_of (spec.blocks depth) cursor.old) result cursor.new }
    ensures shorter { OnOk result (length cursor.new < length cursor.old) }
{
    cursor.expect(Sort::OpenBrace)?;
    let body = statements(alloc, cursor, depth)?;
    cursor.expect(Sort::CloseBrace)?;
    Ok(body)
}

/// The block of a procedure or a thread.
#[tactic(auto, unfolding(st_grammar_laws::specs::Reading::body_block))]
pub fn body_block(alloc: Global, cursor: &mut Cursor<'_, '_>) -> Result<Items<Stmt>, Stop>
    ensures reads { Reads (λ body. body) (spec.body_block cursor.old) result cursor.new }
    ensures shorter { OnOk result (length cursor.new < length cursor.old) }
{
    block(alloc, cursor, MOST_OPEN_BRACES + 1)
}
