//! The lines of the canonical text: indentation, words with single blanks between them, byte 10.
ghost use Rattle.std.specs.Prelude.{◌≡◌, ℕ, ◌+◌, ◌*◌, [], ◌∷◌, ◌++◌, map, replicate, codes, OnOk, IfOk};
ghost use Rattle.st_ast.specs.Lines as spec;
ghost use Rattle.st_ast.specs.Lines.{line, lines_text};
ghost use Rattle.st_ast.specs.Spaced.{spaced};
ghost use Rattle.st_ast.specs.declared.statements.Stmt.{out-Stmt};

use crate::statements::Stmt;
use crate::words::{add_call, add_expr, add_in_parens, add_value, add_word, type_word};
use std::alloc::{AllocError, Global};

/// Adds two blanks for each open brace.
fn indent(text: &mut Vec<u8>, depth: usize) -> Result<(), AllocError>
    ensures { OnOk result (text.new.items ≡ text.old.items ++ replicate (2 * depth) 32) }
{
    for _brace in 0..depth {
        text.extend_from_slice(b"  ")?;
    }
    Ok(())
}

/// Adds the last word of a line, and its end.
pub fn end_line(text: &mut Vec<u8>, last: &[u8]) -> Result<(), AllocError>
    ensures { OnOk result (text.new.items ≡ text.old.items ++ last.now ++ 10 ∷ []) }
{
    text.extend_from_slice(last)?;
    text.push(b'\n')?;
    Ok(())
}

/// Adds words, each with the blank after it.
pub fn add_words(text: &mut Vec<u8>, words: &[&[u8]]) -> Result<(), AllocError>
    ensures { OnOk result (text.new.items ≡ text.old.items ++ spaced (map (λ word. word.now) words.now)) }
{
    for word in words {
        add_word(text, word)?;
    }
    Ok(())
}

/// Adds a line of these words.
pub fn add_line(
    text: &mut Vec<u8>,
    depth: usize,
    front: &[&[u8]],
    last: &[u8],
) -> Result<(), AllocError>
    ensures { OnOk result (text.new.items ≡ text.old.items ++ lines_text (line depth (map (λ word. word.now) front.now ++ last.now ∷ []) ∷ [])) }
{
    indent(text, depth)?;
    add_words(text, front)?;
    end_line(text, last)
}

/// The depth in a block. A text of more depth than a number can say is more than memory holds.
fn deeper(depth: usize) -> Result<usize, AllocError>
    ensures { IfOk result (λ more. more ≡ depth + 1) }
{
    match depth.checked_add(1) {
        Some(more) => Ok(more),
        None => Err(AllocError),
    }
}

/// Adds the words of a statement or of its head, but for the last.
fn add_front(alloc: Global, text: &mut Vec<u8>, stmt: &Stmt) -> Result<(), AllocError>
    ensures { OnOk result (text.new.items ≡ text.old.items ++ spaced (spec.front_words (out-Stmt stmt.now))) }
{
    match stmt {
        Stmt::Var {
            name,
            kind,
            value,
            ..
        } => {
            add_words(
                text,
                &[b"var", name.as_slice(), b":", type_word(kind), b"="],
            )?;
            add_value(alloc, text, value)
        }
        Stmt::Assign { name, value, .. } => {
            add_words(text, &[name.as_slice(), b"="])?;
            add_value(alloc, text, value)
        }
        Stmt::Put { place, value, .. } => {
            add_expr(alloc, text, place)?;
            add_word(text, b"=")?;
            add_value(alloc, text, value)
        }
        Stmt::If { cond, .. } => {
            add_word(text, b"if")?;
            add_in_parens(alloc, text, cond)
        }
        Stmt::While { cond, .. } => {
            add_word(text, b"while")?;
            add_in_parens(alloc, text, cond)
        }
        Stmt::Call { name, args, .. } => add_call(alloc, text, name.as_slice(), args.as_slice()),
        Stmt::Check { body, .. } => {
            add_word(text, b"check")?;
            add_expr(alloc, text, body)
        }
    }
}

/// The last word of a statement or of its head.
fn last_word(stmt: &Stmt) -> &'static [u8]
    ensures { result.now ≡ spec.last_word (out-Stmt stmt.now) }
{
    match stmt {
        Stmt::If { .. } | Stmt::While { .. } => b"{",
        Stmt::Var { .. }
        | Stmt::Assign { .. }
        | Stmt::Put { .. }
        | Stmt::Call { .. }
        | Stmt::Check { .. } => b";",
    }
}

/// Adds the first line of a statement.
fn add_first_line(
    alloc: Global,
    text: &mut Vec<u8>,
    depth: usize,
    stmt: &Stmt,
) -> Result<(), AllocError>
    ensures { OnOk result (text.new.items ≡ text.old.items
        ++ lines_text (line depth (spec.front_words (out-Stmt stmt.now) ++ spec.last_word (out-Stmt stmt.now) ∷ []) ∷ [])) }
{
    indent(text, depth)?;
    add_front(alloc, text, stmt)?;
    end_line(text, last_word(stmt))
}

/// Adds a statement with the blocks in it.
#[cycle(stmts)]
#[tactic(auto, unfolding(crate::specs::Lines::stmt_lines))]
fn add_stmt(alloc: Global, text: &mut Vec<u8>, depth: usize, stmt: &Stmt) -> Result<(), AllocError>
    ensures { OnOk result (text.new.items ≡ text.old.items ++ lines_text (spec.stmt_lines stmt.now depth)) }
{
    add_first_line(alloc, text, depth, stmt)?;
    match stmt {
        Stmt::If { then, other, .. } => {
            add_block(alloc, text, depth, then.as_slice())?;
            match other {
                Some(other) => {
                    add_line(text, depth, &[b"else"], b"{")?;
                    add_block(alloc, text, depth, other.as_slice())
                }
                None => Ok(()),
            }
        }
        Stmt::While { body, .. } => add_block(alloc, text, depth, body.as_slice()),
        Stmt::Var { .. }
        | Stmt::Assign { .. }
        | Stmt::Put { .. }
        | Stmt::Call { .. }
        | Stmt::Check { .. } => Ok(()),
    }
}

/// Adds statements.
#[cycle(stmts)]
fn add_stmts(
    alloc: Global,
    text: &mut Vec<u8>,
    depth: usize,
    stmts: &[Stmt],
) -> Result<(), AllocError>
    ensures { OnOk result (text.new.items ≡ text.old.items ++ lines_text (spec.stmts_lines stmts.now depth)) }
{
    for stmt in stmts {
        add_stmt(alloc, text, depth, stmt)?;
    }
    Ok(())
}

/// Adds the statements of a block, and its closing brace.
#[cycle(stmts)]
pub fn add_block(
    alloc: Global,
    text: &mut Vec<u8>,
    depth: usize,
    stmts: &[Stmt],
) -> Result<(), AllocError>
    ensures { OnOk result (text.new.items ≡ text.old.items ++ lines_text (spec.block_lines stmts.now depth)) }
{
    add_stmts(alloc, text, deeper(depth)?, stmts)?;
    add_line(text, depth, &[], b"}")
}
