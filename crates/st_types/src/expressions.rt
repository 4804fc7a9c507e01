//! Expressions: their faults in the order of the walk, their kinds, and themselves with numbers in the place of names.
ghost use Rattle.std.specs.Prelude.{◌≡◌, ◌++◌, map, Ok};
ghost use Rattle.st_ast.specs.declared.expressions.Expr.TheOpen.{Expr-F};
ghost use Rattle.st_resolved.specs.Terms.{a_not, a_minus, a_cond};
ghost use Rattle.st_types.specs.Checked.{Gives, verdict};
ghost use Rattle.st_types.specs.Kinds.{asks};
ghost use Rattle.st_resolved.specs.Views.{term_of};
ghost use Rattle.st_types.specs.Judged.{outcome, each_of, typed};
ghost use Rattle.st_types.specs.Nodes.{a_bool, an_int, branch_kind, class_asked};
ghost use Rattle.st_types.specs.Scopes.{scope_view, IsSmall};
ghost use Rattle.st_types.specs.Typing.{seen_of};

use crate::calls::call;
use crate::errors::{TypeError, Wanted};
use crate::kinds::{Found, Question, ask, ask_both, told_as};
use crate::names::{Named, fields_of, find_field};
use crate::operators::binary;
use crate::scopes::{Scope, find_local};
use st_events::{Kind, Site};
use st_resolved::{Boxed, Expr};
use std::alloc::Global;

/// The kind of conditions.
pub(crate) const BOOL: Found = Found::Known(Kind::Bool);
/// The kind of numbers.
pub(crate) const INT: Found = Found::Known(Kind::Int);

/// What an unknown name stands for.
const UNKNOWN: Named = Named {
    number: 0,
    kind: Found::Unknown,
};

/// An expression that keeps the rules: its place, its kind, and itself with numbers.
#[derive(Drop)]
pub(crate) struct Typing {
    pub(crate) site: Site,
    pub(crate) kind: Found,
    pub(crate) expr: Boxed<Expr>,
}

/// A local of this name.
fn local(alloc: Global, scope: &Scope, name: &[u8], site: Site) -> Result<Typing, TypeError>
    requires { IsSmall scope.now }
    ensures { Gives seen_of result (outcome (scope_view scope.now) (Expr-F.Local name.now site)) }
{
    match find_local(scope.locals, name) {
        Some(named) => leaf(alloc, named.kind, Expr::Local(named.number), site),
        None => Err(TypeError::UnknownName { at: site }),
    }
}

/// A shared variable of this name.
fn shared(alloc: Global, scope: &Scope, name: &[u8], site: Site) -> Result<Typing, TypeError>
    requires { IsSmall scope.now }
    ensures { Gives seen_of result (outcome (scope_view scope.now) (Expr-F.Shared name.now site)) }
{
    match find_field(scope.program, scope.program.shared.as_slice(), name) {
        Some(named) => leaf(alloc, named.kind, Expr::Shared(named.number), site),
        None => Err(TypeError::UnknownName { at: site }),
    }
}

/// The class of an object whose field is named.
fn class_of(object: &Typing) -> Result<Option<u8>, TypeError>
    ensures { result ≡ class_asked (seen_of object.now) }
{
    match object.kind {
        Found::Known(Kind::Ref(class)) => Ok(Some(class)),
        Found::Unknown => Ok(None),
        kind => Err(TypeError::Mismatch {
            at: object.site,
            wanted: Wanted::AnyRef,
            found: told_as(kind),
        }),
    }
}

/// `object.name`. Where the class of the object is unknown, so is the field.
fn field(
    alloc: Global,
    scope: &Scope,
    object: Typing,
    name: &[u8],
    site: Site,
) -> Result<Typing, TypeError>
    requires { IsSmall scope.now }
    ensures { Gives seen_of result (outcome (scope_view scope.now) (Expr-F.Field (seen_of object) name.now site)) }
{
    let named = match class_of(&object)? {
        Some(class) => {
            let fields = fields_of(scope.program, class);
            let named = find_field(scope.program, fields, name);
            named.ok_or(TypeError::UnknownName { at: site })?
        }
        None => UNKNOWN,
    };
    let expr = Expr::Field {
        object: object.expr,
        field: named.number,
        at: site,
    };
    leaf(alloc, named.kind, expr, site)
}

/// `!inner`.
fn negation(alloc: Global, inner: Typing, site: Site) -> Result<Typing, TypeError>
    ensures { Gives seen_of result (verdict (asks a_bool inner.site inner.kind) (record { site = site; kind = a_bool; term = a_not (term_of inner.expr) })) }
{
    ask(BOOL, inner.site, inner.kind)?;
    leaf(alloc, BOOL, Expr::Not(inner.expr), site)
}

/// `-inner`.
fn minus(alloc: Global, inner: Typing, site: Site) -> Result<Typing, TypeError>
    ensures { Gives seen_of result (verdict (asks an_int inner.site inner.kind) (record { site = site; kind = an_int; term = a_minus (term_of inner.expr) site })) }
{
    ask(INT, inner.site, inner.kind)?;
    let expr = Expr::Minus {
        inner: inner.expr,
        at: site,
    };
    leaf(alloc, INT, expr, site)
}

/// `test ? left : right`.
fn choice(
    alloc: Global,
    test: Typing,
    left: Typing,
    right: Typing,
    site: Site,
) -> Result<Typing, TypeError>
    ensures { Gives seen_of result (verdict (asks a_bool test.site test.kind ++ asks left.kind right.site right.kind) (record { site = site; kind = branch_kind left.kind right.kind; term = a_cond (term_of test.expr) (term_of left.expr) (term_of right.expr) })) }
{
    ask_both(
        Question {
            asked: BOOL,
            at: test.site,
            found: test.kind,
        },
        Question {
            asked: left.kind,
            at: right.site,
            found: right.kind,
        },
    )?;
    let expr = Expr::Cond {
        test: test.expr,
        yes: left.expr,
        no: right.expr,
    };
    leaf(alloc, branch_kind(left.kind, right.kind), expr, site)
}

/// The kind of the branch that is not `null`.
fn branch_kind(left: Found, right: Found) -> Found
    ensures { result ≡ branch_kind left right }
{
    match left {
        Found::Null => right,
        kind => kind,
    }
}

/// Arguments, from left to right.
#[cycle(expressions)]
pub(crate) fn typed_args(
    alloc: Global,
    scope: &Scope,
    args: &[st_ast::Expr],
) -> Result<Vec<Typing>, TypeError>
    requires { IsSmall scope.now }
    ensures { Gives (λ v. map seen_of v.items) result (each_of (map (typed (scope_view scope.now)) args.now)) }
{
    let mut seen = Vec::new(alloc);
    for arg in args {
        seen.push(typed(alloc, scope, arg)?)?;
    }
    Ok(seen)
}

/// An expression: its operands from left to right, then the node itself.
#[cycle(expressions)]
pub(crate) fn typed(alloc: Global, scope: &Scope, e: &st_ast::Expr) -> Result<Typing, TypeError>
    requires { IsSmall scope.now }
    ensures { Gives seen_of result (typed (scope_view scope.now) e.now) }
{
    match e {
        st_ast::Expr::Number { value, site } => leaf(alloc, INT, Expr::Number(*value), *site),
        st_ast::Expr::Truth { value, site } => leaf(alloc, BOOL, Expr::Truth(*value), *site),
        st_ast::Expr::Null { site } => leaf(alloc, Found::Null, Expr::Null, *site),
        st_ast::Expr::Local { name, site } => local(alloc, scope, name.as_slice(), *site),
        st_ast::Expr::Call { name, args, site } => {
            let args = typed_args(alloc, scope, args.as_slice())?;
            call(alloc, scope, name.as_slice(), args, *site)
        }
        st_ast::Expr::Shared { name, site } => shared(alloc, scope, name.as_slice(), *site),
        st_ast::Expr::Field { object, name, site } => {
            let object = typed(alloc, scope, object.get())?;
            field(alloc, scope, object, name.as_slice(), *site)
        }
        st_ast::Expr::Paren { inner, site } => {
            let inner = typed(alloc, scope, inner.get())?;
            Ok(Typing {
                site: *site,
                ..inner
            })
        }
        st_ast::Expr::Not { inner, site } => {
            let inner = typed(alloc, scope, inner.get())?;
            negation(alloc, inner, *site)
        }
        st_ast::Expr::Minus { inner, site } => {
            let inner = typed(alloc, scope, inner.get())?;
            minus(alloc, inner, *site)
        }
        st_ast::Expr::Binary {
            op,
            left,
            right,
            site,
        } => {
            let left = typed(alloc, scope, left.get())?;
            let right = typed(alloc, scope, right.get())?;
            binary(alloc, *op, left, right, *site)
        }
        st_ast::Expr::Cond {
            test,
            yes,
            no,
            site,
        } => {
            let test = typed(alloc, scope, test.get())?;
            let yes = typed(alloc, scope, yes.get())?;
            let no = typed(alloc, scope, no.get())?;
            choice(alloc, test, yes, no, *site)
        }
    }
}

/// An expression that asks nothing more.
pub(crate) fn leaf(alloc: Global, kind: Found, expr: Expr, site: Site) -> Result<Typing, TypeError>
    ensures { Gives seen_of result (Ok (record { site = site; kind = kind; term = term_of expr })) }
{
    Ok(Typing {
        site,
        kind,
        expr: Boxed::new(alloc, expr)?,
    })
}
