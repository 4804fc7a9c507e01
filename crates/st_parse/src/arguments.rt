//! Arguments of calls.
ghost use Rattle.std.specs.Prelude.{◌≡◌, ◌<◌, ◌≤◌, length, OnOk};
ghost use Rattle.st_grammar_laws.specs.Reading as spec;
ghost use Rattle.st_grammar_laws.specs.declared.levels.Level.TheVariants as level;
ghost use Rattle.st_parse.specs.Reads.{Reads};

use crate::cursors::Cursor;
use crate::expressions::nested;
use crate::stops::Stop;
use st_ast::{Expr, Items};
use st_grammar::Sort;
use st_grammar_laws::Level;
use std::alloc::Global;

/// `"," expr`.
#[cycle(expr)]
fn after_comma(alloc: Global, cursor: &mut Cursor<'_, '_>, depth: usize) -> Result<Expr, Stop>
    ensures reads { Reads (λ e. e) (spec.after_comma (spec.nested depth level.Whole) cursor.old) result cursor.new }
    ensures shorter { OnOk result (length cursor.new < length cursor.old) }
{
    cursor.expect(Sort::Comma)?;
    nested(alloc, cursor, depth, Level::Whole)
}

/// `expr { "," expr }`.
#[tactic(auto, unfolding(st_grammar_laws::specs::Reading::listed))]
#[cycle(expr)]
fn series(alloc: Global, cursor: &mut Cursor<'_, '_>, depth: usize) -> Result<Items<Expr>, Stop>
    ensures reads { Reads (λ found. found) (spec.listed (spec.nested depth level.Whole) cursor.old) result cursor.new }
    ensures shorter { OnOk result (length cursor.new < length cursor.old) }
{
    let mut found = Items::new(alloc);
    found.push(nested(alloc, cursor, depth, Level::Whole)?)?;
    while cursor.sees(Sort::Comma) {
        found.push(after_comma(alloc, cursor, depth)?)?;
    }
    Ok(found)
}

/// `[ args ] ")"`.
#[tactic(auto, unfolding(st_grammar_laws::specs::Reading::args, st_grammar_laws::specs::Reading::enclosed))]
#[cycle(expr)]
pub fn arguments(
    alloc: Global,
    cursor: &mut Cursor<'_, '_>,
    depth: usize,
) -> Result<Items<Expr>, Stop>
    ensures reads { Reads (λ found. found) (spec.args (spec.nested depth) cursor.old) result cursor.new }
    ensures shorter { OnOk result (length cursor.new < length cursor.old) }
{
    let found = if cursor.sees(Sort::CloseParen) {
        Items::new(alloc)
    } else {
        series(alloc, cursor, depth)?
    };
    cursor.expect(Sort::CloseParen)?;
    Ok(found)
}
