//! Types, and the places that statements write to.
ghost use Rattle.std.specs.Prelude.{◌≡◌, ◌<◌, ◌≤◌, length, OnOk, IfOk};
ghost use Rattle.st_ast.specs.declared.expressions.Expr.TheVariants as expr;
ghost use Rattle.st_grammar_laws.specs.Reading as spec;
ghost use Rattle.st_parse.specs.Reads.{Reads};

use crate::cursors::Cursor;
use crate::stops::Stop;
use st_ast::{Boxed, Expr, TypeName};
use st_grammar::{Lexeme, Sort};
use std::alloc::{AllocError, Global};

/// A type.
#[tactic(auto, unfolding(st_grammar_laws::specs::Reading::type_name))]
pub fn type_name(alloc: Global, cursor: &mut Cursor<'_, '_>) -> Result<TypeName, Stop>
    ensures reads { Reads (λ kind. kind) (spec.type_name cursor.old) result cursor.new }
    ensures shorter { OnOk result (length cursor.new < length cursor.old) }
{
    match cursor.next_sort() {
        Sort::Int => {
            cursor.take()?;
            Ok(TypeName::Int)
        }
        Sort::Bool => {
            cursor.take()?;
            Ok(TypeName::Bool)
        }
        Sort::Name => {
            let name = cursor.take()?;
            Ok(TypeName::Class(name.name(alloc)?, name.site()))
        }
        _ => Err(Stop::Fault),
    }
}

/// `":" type`.
#[tactic(auto, unfolding(st_grammar_laws::specs::Reading::typed))]
pub fn typed(alloc: Global, cursor: &mut Cursor<'_, '_>) -> Result<TypeName, Stop>
    ensures reads { Reads (λ kind. kind) (spec.typed cursor.old) result cursor.new }
    ensures shorter { OnOk result (length cursor.new < length cursor.old) }
{
    cursor.expect(Sort::Colon)?;
    type_name(alloc, cursor)
}

/// `"." name` after an object.
#[tactic(auto, unfolding(st_grammar_laws::specs::Reading::field_after))]
fn field_after(alloc: Global, cursor: &mut Cursor<'_, '_>, object: Expr) -> Result<Expr, Stop>
    ensures reads { Reads (λ e. e) (spec.field_after object cursor.old) result cursor.new }
    ensures shorter { OnOk result (length cursor.new < length cursor.old) }
{
    let dot = cursor.expect(Sort::Dot)?;
    let name = cursor.expect(Sort::Name)?;
    Ok(Expr::Field {
        object: Boxed::new(alloc, object)?,
        name: name.name(alloc)?,
        site: dot.site(),
    })
}

/// `{ "." name }` after an object.
pub fn fields_after(alloc: Global, cursor: &mut Cursor<'_, '_>, object: Expr) -> Result<Expr, Stop>
    ensures reads { Reads (λ e. e) (spec.fields_after object cursor.old) result cursor.new }
    ensures no_longer { OnOk result (length cursor.new ≤ length cursor.old) }
{
    let mut object = object;
    while cursor.sees(Sort::Dot) {
        object = field_after(alloc, cursor, object)?;
    }
    Ok(object)
}

/// `"shared" "." name`.
#[tactic(auto, unfolding(st_grammar_laws::specs::Reading::shared_field))]
pub fn shared_field(alloc: Global, cursor: &mut Cursor<'_, '_>) -> Result<Expr, Stop>
    ensures reads { Reads (λ e. e) (spec.shared_field cursor.old) result cursor.new }
    ensures shorter { OnOk result (length cursor.new < length cursor.old) }
{
    cursor.expect(Sort::Shared)?;
    let dot = cursor.expect(Sort::Dot)?;
    let name = cursor.expect(Sort::Name)?;
    Ok(Expr::Shared {
        name: name.name(alloc)?,
        site: dot.site(),
    })
}

/// A local.
pub fn local(alloc: Global, name: &Lexeme<'_>) -> Result<Expr, AllocError>
    ensures { IfOk result (λ e. e ≡ expr.Local name.now.bytes name.now.site) }
{
    Ok(Expr::Local {
        name: name.name(alloc)?,
        site: name.site(),
    })
}

/// The fields of a place that begins with this local: at least one.
#[tactic(auto, unfolding(st_grammar_laws::specs::Reading::place_after))]
pub fn place_after(
    alloc: Global,
    cursor: &mut Cursor<'_, '_>,
    object: &Lexeme<'_>,
) -> Result<Expr, Stop>
    ensures reads { Reads (λ e. e) (spec.place_after object.now cursor.old) result cursor.new }
    ensures shorter { OnOk result (length cursor.new < length cursor.old) }
{
    let object = local(alloc, object)?;
    let first = field_after(alloc, cursor, object)?;
    fields_after(alloc, cursor, first)
}

/// A place.
#[tactic(auto, unfolding(st_grammar_laws::specs::Reading::place))]
pub fn place(alloc: Global, cursor: &mut Cursor<'_, '_>) -> Result<Expr, Stop>
    ensures reads { Reads (λ e. e) (spec.place cursor.old) result cursor.new }
    ensures shorter { OnOk result (length cursor.new < length cursor.old) }
{
    match cursor.next_sort() {
        Sort::Shared => {
            let first = shared_field(alloc, cursor)?;
            fields_after(alloc, cursor, first)
        }
        _ => {
            let object = cursor.expect(Sort::Name)?;
            place_after(alloc, cursor, &object)
        }
    }
}
