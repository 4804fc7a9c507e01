//! Printing a tree, and reading the text again.
ghost use Rattle.std.specs.Prelude.{◌≤◌, length, IfOk};
ghost use Rattle.st_ast.specs.Lines.{canonical_text};
ghost use Rattle.st_lex.specs.declared.limits.TheConstants.{MOST_SOURCE_BYTES};
ghost use Rattle.st_canonical_laws.specs.Placeless.{IsSameButForPlaces};
ghost use Rattle.st_canonical_laws.specs.Trees.{IsOfGrammar};

use st_ast::{Program, print};
use st_events::NoMemory;
use st_lex::{LexError, tokens};
use st_parse::{ParseError, parse};
use std::alloc::Global;

/// Writes the canonical text of a tree of the grammar, of at most `MOST_SOURCE_BYTES` bytes, and reads it again: the same
/// tree but for places. The only error is want of memory.
pub fn reread(alloc: Global, program: &Program) -> Result<Program, NoMemory>
    requires grammar { IsOfGrammar program.now }
    requires size { length (canonical_text program.now) ≤ MOST_SOURCE_BYTES }
    ensures { IfOk result (λ again. IsSameButForPlaces again program.now) }
{
    let text = print(alloc, program)?;
    let list = match tokens(alloc, &text) {
        Ok(list) => list,
        Err(LexError::Memory) => return Err(NoMemory),
        Err(LexError::BadByte { .. }) => unreachable!(),
        Err(LexError::LongNumber { .. }) => unreachable!(),
    };
    match parse(alloc, &text, &list) {
        Ok(again) => Ok(again),
        Err(ParseError::Memory) => Err(NoMemory),
        Err(ParseError::Unexpected { .. }) => unreachable!(),
        Err(ParseError::TooMany { .. }) => unreachable!(),
        Err(ParseError::TooDeep { .. }) => unreachable!(),
        Err(ParseError::TooLong { .. }) => unreachable!(),
    }
}
