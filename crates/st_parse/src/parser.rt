//! The one call: from the tokens of a text to its tree.
ghost use Rattle.std.specs.Prelude.{◌≡◌, ◌≢◌, ◌<◌, ◌≤◌, ◌+◌, ◌^◌, All, length, IfOk, IsErrOf};
ghost use Rattle.st_ast.specs.declared.declarations.Program.{Program};
ghost use Rattle.st_events.specs.declared.events.Site.{Site};
ghost use Rattle.st_lex.specs.declared.limits.TheConstants.{MOST_SOURCE_BYTES};
ghost use Rattle.st_lex.specs.Places.{place_at};
ghost use Rattle.st_lex.specs.Tokens.{IsToken, IsTokensOf};
ghost use Rattle.st_grammar.specs.declared.counts.What.{What};
ghost use Rattle.st_grammar.specs.declared.token_limits.Over.TheVariants as over;
ghost use Rattle.st_parse.specs.Outcomes as spec;
ghost use Rattle.st_parse.specs.Outcomes.{IsProgramOf, StopsUnexpected, HasTooMany};
ghost use Rattle.st_grammar.specs.Terminals.{terminals_of};
ghost use Rattle.st_grammar.specs.TokenLimits.{IsFirstOver};

use crate::cursors::Cursor;
use crate::errors::ParseError;
use crate::programs::program;
use crate::stops::Stop;
use st_ast::Program;
use st_events::Site;
use st_grammar::{Over, first_excess, first_over, items_of};
use st_lex::Token;
use std::alloc::Global;

/// The tree of a text of at most `MOST_SOURCE_BYTES` bytes, whose tokens these are, where it is a text of the grammar
/// within the limits.
///
/// `TooDeep` and `TooLong` come first, at the first token above a limit on tokens. Then comes `Unexpected`, at the first
/// token such that the tokens up to it begin no text of the grammar, or after the last byte. `TooMany` comes last. A text
/// has one tree at most (`one_tree` of st_grammar_laws), and one fault at most, with no tree beside it: see `one_answer`.
pub fn parse(alloc: Global, text: &[u8], tokens: &[Token]) -> Result<Program, ParseError>
    requires size { length text.now ≤ MOST_SOURCE_BYTES }
    requires tokens { IsTokensOf text.now tokens.now }
    ensures tree { IfOk result (λ program. IsProgramOf text.now tokens.now program) }
    ensures no_tree { (why : ParseError) → IsErrOf result why → why ≢ ParseError.Memory
        → (program : Program) → ¬ IsProgramOf text.now tokens.now program }
    ensures unexpected { (at : Site) → IsErrOf result (ParseError.Unexpected at) → StopsUnexpected text.now tokens.now at }
    ensures too_many { (what : What) (at : Site) → IsErrOf result (ParseError.TooMany what at)
        → HasTooMany text.now tokens.now what at }
    ensures too_deep { (at : Site) → IsErrOf result (ParseError.TooDeep at)
        → IsFirstOver (terminals_of text.now tokens.now) over.Deep at }
    ensures too_long { (at : Site) → IsErrOf result (ParseError.TooLong at)
        → IsFirstOver (terminals_of text.now tokens.now) over.Long at }
{
    answer(alloc, text, tokens)
}

/// The tree that the tokens of the text spell, or what is wrong with them.
#[tactic(auto, unfolding(crate::specs::Outcomes::answer))]
fn answer(alloc: Global, text: &[u8], tokens: &[Token]) -> Result<Program, ParseError>
    requires size { length text.now ≤ MOST_SOURCE_BYTES }
    requires tokens { All (IsToken text.now) tokens.now }
    ensures { spec.IsButForMemory result (spec.answer text.now (terminals_of text.now tokens.now)) }
{
    match first_over(text, tokens) {
        Some((why, at)) => Err(error_of(why, at)),
        None => within_counts(alloc, read(alloc, text, tokens)?),
    }
}

/// The error that tells what a token is above.
fn error_of(why: Over, at: Site) -> ParseError
    ensures { result ≡ spec.error_of why at }
{
    match why {
        Over::Deep => ParseError::TooDeep { at },
        Over::Long => ParseError::TooLong { at },
    }
}

/// The place after a byte that stands at a place.
fn place_after(place: Site, byte: u8) -> Site
    requires line { place.line + 1 < 2 ^ 32 }
    requires column { place.column + 1 < 2 ^ 32 }
    ensures { result ≡ spec.place_after place byte }
{
    if byte == b'\n' {
        Site {
            line: place.line + 1,
            column: 1,
        }
    } else {
        Site {
            line: place.line,
            column: place.column + 1,
        }
    }
}

/// The place after the last byte of a text.
#[tactic(auto, using(crate::proofs::EndLemmas::place_at_next))]
fn end_place(text: &[u8]) -> Site
    requires { length text.now ≤ MOST_SOURCE_BYTES }
    ensures { result ≡ place_at text.now (length text.now) }
{
    let mut place = Site { line: 1, column: 1 };
    for byte in text {
        place = place_after(place, *byte);
    }
    place
}

/// The place of the next token, or after the last byte of the text.
fn place_of(text: &[u8], cursor: &Cursor<'_, '_>) -> Site
    requires { length text.now ≤ MOST_SOURCE_BYTES }
    ensures { result ≡ spec.place_of text.now cursor.now }
{
    match cursor.next() {
        Some(lexeme) => lexeme.site(),
        None => end_place(text),
    }
}

/// The tree, whatever its counts.
#[tactic(auto, unfolding(crate::specs::Outcomes::read))]
fn read(alloc: Global, text: &[u8], tokens: &[Token]) -> Result<Program, ParseError>
    requires size { length text.now ≤ MOST_SOURCE_BYTES }
    requires tokens { All (IsToken text.now) tokens.now }
    ensures { spec.IsButForMemory result (spec.read text.now (terminals_of text.now tokens.now)) }
{
    let mut cursor = Cursor::make(text, tokens);
    match program(alloc, &mut cursor) {
        Ok(program) => Ok(program),
        Err(Stop::Memory) => Err(ParseError::Memory),
        Err(Stop::Fault) => Err(ParseError::Unexpected {
            at: place_of(text, &cursor),
        }),
    }
}

/// The tree, where nothing in it is above its limit.
#[tactic(auto, unfolding(crate::specs::Outcomes::counted))]
fn within_counts(alloc: Global, program: Program) -> Result<Program, ParseError>
    ensures { spec.IsButForMemory result (spec.counted program) }
{
    match first_excess(&items_of(alloc, &program)?) {
        Some((what, at)) => Err(ParseError::TooMany { what, at }),
        None => Ok(program),
    }
}
