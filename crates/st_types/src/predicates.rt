//! Predicates: their parameters, the types of their values, and their bodies.
ghost use Rattle.std.specs.Prelude.{◌≡◌, ◌≤◌, [], length, map, All, IfOk};
ghost use Rattle.std.specs.List.{list_any};
ghost use Rattle.std.specs.Str.{bytes_eq};
ghost use Rattle.st_resolved.specs.Views.{predicate_of};
ghost use Rattle.st_resolved.specs.declared.limits.TheConstants.{MOST_PARAMS};
ghost use Rattle.st_types.specs.Checked.{Gives, verdict};
ghost use Rattle.st_types.specs.Names.{HasFewNames};
ghost use Rattle.st_types.specs.Rules.{each_with_earlier, pred_faults, pred_head_faults, pred_body_faults, predicate_at, param_locals};
ghost use Rattle.st_types.specs.Scopes.{local_view};

use crate::assignments::{ask_new, ask_type};
use crate::errors::TypeError;
use crate::expressions::typed;
use crate::kinds::ask;
use crate::names::kind_of;
use crate::scopes::{Local, Scope};
use crate::spaces::ask_params;
use crate::walks::{kinds_of, known_kind};
use st_ast::{Param, Program};
use st_resolved::{Items, Pred};
use std::alloc::{AllocError, Global};

/// The locals that parameters are.
pub(crate) fn param_locals<'a>(
    alloc: Global,
    program: &Program,
    params: &'a [Param],
) -> Result<Vec<Local<'a>>, AllocError>
    requires { HasFewNames program.now }
    ensures { IfOk result (λ locals. map local_view locals.items ≡ param_locals program.now params.now) }
{
    let mut locals = Vec::new(alloc);
    for param in params {
        locals.push(Local {
            name: param.name.as_slice(),
            kind: kind_of(program, &param.kind),
            is_known: true,
        })?;
    }
    Ok(locals)
}

/// Whether a predicate of the list has this name.
fn has_pred(preds: &[st_ast::Pred], name: &[u8]) -> bool
    ensures { result ≡ list_any (λ q. bytes_eq q.name name.now) preds.now }
{
    preds.iter().any(|pred| pred.name.as_slice() == name)
}

/// The head of a predicate: its name is new, and then its parameters and the type of its value.
fn ask_head(
    program: &Program,
    earlier: &[st_ast::Pred],
    pred: &st_ast::Pred,
) -> Result<(), TypeError>
    requires { HasFewNames program.now }
    ensures { result ≡ verdict (pred_head_faults program.now earlier.now pred.now) tt }
{
    ask_new(has_pred(earlier, pred.name.as_slice()), pred.site)?;
    ask_params(program, pred.params.as_slice())?;
    ask_type(program, &pred.result)
}

/// The body of a predicate, which has the type of its value.
fn body(alloc: Global, program: &Program, pred: &st_ast::Pred) -> Result<Pred, TypeError>
    requires names { HasFewNames program.now }
    requires params { length pred.now.params ≤ MOST_PARAMS }
    ensures { Gives predicate_of result (verdict (pred_body_faults program.now pred.now) (predicate_at program.now pred.now)) }
{
    let locals = param_locals(alloc, program, pred.params.as_slice())?;
    let scope = Scope {
        program,
        locals: &locals,
        may_call: true,
    };
    let body = typed(alloc, &scope, &pred.body)?;
    let result = kind_of(program, &pred.result);
    ask(result, body.site, body.kind)?;
    Ok(Pred {
        params: Items::from_vec(kinds_of(alloc, &locals)?),
        result: known_kind(result),
        body: body.expr.into_inner(),
    })
}

/// A predicate, after earlier ones.
fn predicate(
    alloc: Global,
    program: &Program,
    earlier: &[st_ast::Pred],
    pred: &st_ast::Pred,
) -> Result<Pred, TypeError>
    requires names { HasFewNames program.now }
    requires params { length pred.now.params ≤ MOST_PARAMS }
    ensures { Gives predicate_of result (verdict (pred_faults program.now earlier.now pred.now) (predicate_at program.now pred.now)) }
{
    ask_head(program, earlier, pred)?;
    body(alloc, program, pred)
}

/// The predicates of a program.
pub(crate) fn predicates(alloc: Global, program: &Program) -> Result<Items<Pred>, TypeError>
    requires names { HasFewNames program.now }
    requires params { All (λ pred. length pred.params ≤ MOST_PARAMS) program.now.preds }
    ensures { Gives (map predicate_of) result (verdict (each_with_earlier (pred_faults program.now) [] program.now.preds) (map (predicate_at program.now) program.now.preds)) }
{
    let mut done = Vec::new(alloc);
    let preds = program.preds.as_slice();
    for (i, pred) in preds.iter().enumerate() {
        done.push(predicate(alloc, program, &preds[..i], pred)?)?;
    }
    Ok(Items::from_vec(done))
}
