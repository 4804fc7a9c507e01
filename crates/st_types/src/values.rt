//! What stands to the right of `=`: an expression, a new object, or a compare and exchange.
ghost use Rattle.std.specs.Prelude.{◌≡◌, ◌++◌, Ok};
ghost use Rattle.st_ast.specs.declared.statements.Value.TheVariants as values;
ghost use Rattle.st_resolved.specs.Terms.{from_cas};
ghost use Rattle.st_types.specs.Checked.{Gives, verdict};
ghost use Rattle.st_types.specs.Kinds.{asks};
ghost use Rattle.st_types.specs.Nodes.{a_bool};
ghost use Rattle.st_types.specs.Scopes.{scope_view, IsSmall};
ghost use Rattle.st_types.specs.Statements.{target_at};
ghost use Rattle.st_types.specs.Stepwise.{typed_value, typed_condition};
ghost use Rattle.st_types.specs.Typing.{seen_of, given_of};
ghost use Rattle.st_resolved.specs.Views.{term_of, target_of};

use crate::errors::TypeError;
use crate::expressions::{BOOL, Typing, typed};
use crate::kinds::{Found, Question, ask, ask_both};
use crate::names::{class_kind, class_number};
use crate::scopes::Scope;
use st_ast::Value;
use st_events::Site;
use st_resolved::{Boxed, Expr, Source, Target};
use std::alloc::Global;

/// A value that keeps the rules: its place, its kind, and itself with numbers.
#[derive(Drop)]
pub(crate) struct TypedValue {
    pub(crate) site: Site,
    pub(crate) kind: Found,
    pub(crate) source: Boxed<Source>,
}

/// The target that a place is.
pub(crate) fn target_of(place: Boxed<Expr>) -> Target
    ensures { target_of result ≡ target_at (term_of place) }
{
    match place.into_inner() {
        Expr::Shared(field) => Target::Shared(field),
        Expr::Field { object, field, at } => Target::Field {
            object: object.into_inner(),
            field,
            at,
        },
        _ => Target::Shared(0),
    }
}

/// A condition: an expression that is true or false.
pub(crate) fn typed_condition(
    alloc: Global,
    scope: &Scope,
    condition: &st_ast::Expr,
) -> Result<Typing, TypeError>
    requires { IsSmall scope.now }
    ensures { Gives seen_of result (typed_condition (scope_view scope.now) condition.now) }
{
    let seen = typed(alloc, scope, condition)?;
    ask(BOOL, seen.site, seen.kind)?;
    Ok(seen)
}

/// `new class`.
fn new_object(
    alloc: Global,
    scope: &Scope,
    class: &[u8],
    site: Site,
) -> Result<TypedValue, TypeError>
    requires { IsSmall scope.now }
    ensures { Gives given_of result (typed_value (scope_view scope.now) (values.New class.now site)) }
{
    match class_number(scope.program, class) {
        Some(class) => Ok(TypedValue {
            site,
            kind: class_kind(Some(class)),
            source: Boxed::new(alloc, Source::New { class, at: site })?,
        }),
        None => Err(TypeError::UnknownName { at: site }),
    }
}

/// `cas(place, expect, value)`, of what was seen.
fn exchange(
    alloc: Global,
    place: Typing,
    expect: Typing,
    value: Typing,
    site: Site,
) -> Result<TypedValue, TypeError>
    ensures { Gives given_of result (verdict (asks place.kind expect.site expect.kind ++ asks place.kind value.site value.kind)
        (record { site = site; kind = a_bool; source = from_cas (target_at (term_of place.expr)) (term_of expect.expr) (term_of value.expr) })) }
{
    ask_both(
        Question {
            asked: place.kind,
            at: expect.site,
            found: expect.kind,
        },
        Question {
            asked: place.kind,
            at: value.site,
            found: value.kind,
        },
    )?;
    let source = Source::Cas {
        target: target_of(place.expr),
        expect: expect.expr.into_inner(),
        value: value.expr.into_inner(),
    };
    Ok(TypedValue {
        site,
        kind: BOOL,
        source: Boxed::new(alloc, source)?,
    })
}

/// A value in a scope.
pub(crate) fn typed_value(
    alloc: Global,
    scope: &Scope,
    value: &Value,
) -> Result<TypedValue, TypeError>
    requires { IsSmall scope.now }
    ensures { Gives given_of result (typed_value (scope_view scope.now) value.now) }
{
    match value {
        Value::Plain(e) => {
            let seen = typed(alloc, scope, e)?;
            Ok(TypedValue {
                site: seen.site,
                kind: seen.kind,
                source: Boxed::new(alloc, Source::Plain(seen.expr.into_inner()))?,
            })
        }
        Value::New { class, site } => new_object(alloc, scope, class.as_slice(), *site),
        Value::Cas {
            place,
            expect,
            value,
            site,
        } => {
            let place = typed(alloc, scope, place)?;
            let expect = typed(alloc, scope, expect)?;
            let value = typed(alloc, scope, value)?;
            exchange(alloc, place, expect, value, *site)
        }
    }
}
