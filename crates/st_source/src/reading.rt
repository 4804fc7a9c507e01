//! The one way from the bytes of a source to its typed program.
ghost use Rattle.std.specs.Prelude.{◌≡◌, ◌≢◌, ◌≤◌, length, IfOk, IfErr};
ghost use Rattle.st_lex.specs.declared.limits.TheConstants.{MOST_SOURCE_BYTES};
ghost use Rattle.st_source.specs.Accepted.{IsAccepted, IsSourceOf, IsTreeOf};
ghost use Rattle.st_source.specs.Refused.{IsRefusedFor};

use crate::errors::SourceError;
use st_ast::Program;
use st_lex::{MOST_SOURCE_BYTES, tokens};
use st_parse::parse;
use st_types::{Typed, check_types};
use std::alloc::Global;

/// The typed program of a text, whatever its bytes.
///
/// `TooLong` comes first. Else the error is that of the first stage that refuses the text: `Lex` has the first place at
/// which no token stands; `Parse` the first token above a limit on tokens, else the first that no text of the grammar goes
/// on with, else the first item above its limit; `Types` the first node, in the order of the walk, that breaks a rule. A
/// text has one answer, but for `Memory`: see `one_verdict`.
pub fn read_source(alloc: Global, text: &[u8]) -> Result<Typed, SourceError>
    ensures accepted { IfOk result (λ typed. IsSourceOf text.now typed.program) }
    ensures refused { IfErr result (λ why. why ≢ SourceError.Memory → IsRefusedFor text.now why) }
    ensures not_accepted { IfErr result (λ why. why ≢ SourceError.Memory → IsAccepted text.now → ⊥) }
{
    typed_source(alloc, text)
}

/// The typed program of a text, stage after stage.
fn typed_source(alloc: Global, text: &[u8]) -> Result<Typed, SourceError>
    ensures accepted { IfOk result (λ typed. IsSourceOf text.now typed.program) }
    ensures refused { IfErr result (λ why. why ≢ SourceError.Memory → IsRefusedFor text.now why) }
{
    if text.len() > MOST_SOURCE_BYTES {
        return Err(SourceError::TooLong);
    }
    let tree = read_tree(alloc, text)?;
    Ok(check_types(alloc, tree)?)
}

/// The tree of a text that is not too long.
fn read_tree(alloc: Global, text: &[u8]) -> Result<Program, SourceError>
    requires { length text.now ≤ MOST_SOURCE_BYTES }
    ensures tree { IfOk result (λ tree. IsTreeOf text.now tree) }
    ensures refused { IfErr result (λ why. why ≢ SourceError.Memory → IsRefusedFor text.now why) }
{
    let list = tokens(alloc, text)?;
    Ok(parse(alloc, text, &list)?)
}
