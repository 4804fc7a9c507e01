//! The one call: from a tree to a typed program, or the first node that breaks a rule.
ghost use Rattle.std.specs.Prelude.{◌≡◌, ◌++◌, [], map, IfOk, IfErr};
ghost use Rattle.st_resolved.specs.Views.{check_of};
ghost use Rattle.st_types.specs.Checked.{Gives, verdict};
ghost use Rattle.st_types.specs.Limits.{IsWithinLimits};
ghost use Rattle.st_types.specs.Names.{HasFewNames};
ghost use Rattle.st_types.specs.Outcomes.{IsFirstFault, bodies_of, walked_bodies, resolved_at, joined_parts, resolved_of};
ghost use Rattle.st_types.specs.Rules.{faults_of, class_kinds, each_with_earlier, class_faults, fields_faults, field_kinds, walked_procs, walked_threads};
ghost use Rattle.st_types.specs.Walks.{launched_of};

use crate::errors::TypeError;
use crate::names::kind_of;
use crate::predicates::predicates;
use crate::routines::{procedures, threads};
use crate::spaces::{ask_classes, ask_fields};
use crate::typed_programs::Typed;
use crate::walks::{Launched, known_kind};
use st_ast::{Field, Program};
use st_events::{Kind, Shape};
use st_resolved::{Body, Check, Items, Pred, Resolved};
use std::alloc::{AllocError, Global};

/// The kinds of fields, or of shared variables.
fn field_kinds(alloc: Global, program: &Program, fields: &[Field]) -> Result<Vec<Kind>, AllocError>
    requires { HasFewNames program.now }
    ensures { IfOk result (λ kinds. kinds.items ≡ field_kinds program.now fields.now) }
{
    let mut kinds = Vec::new(alloc);
    for field in fields {
        kinds.push(known_kind(kind_of(program, &field.kind)))?;
    }
    Ok(kinds)
}

/// The kinds of the shared variables, and then of the fields of each class.
fn class_kinds(alloc: Global, program: &Program) -> Result<Vec<Vec<Kind>>, AllocError>
    requires { HasFewNames program.now }
    ensures { IfOk result (λ classes. map (λ kinds. kinds.items) classes.items ≡ class_kinds program.now) }
{
    let mut classes = Vec::new(alloc);
    classes.push(field_kinds(alloc, program, program.shared.as_slice())?)?;
    let declared = program.classes.as_slice();
    for class in declared {
        classes.push(field_kinds(alloc, program, class.fields.as_slice())?)?;
    }
    Ok(classes)
}

/// Check statements, and the kinds of their arguments beside them.
#[derive(Drop)]
struct Apart {
    checks: Vec<Check>,
    kinds: Vec<Vec<Kind>>,
}

/// Check statements, apart from the kinds of their arguments.
fn set_apart(alloc: Global, launched: Vec<Launched>) -> Result<Apart, AllocError>
    ensures checks { IfOk result (λ apart. map check_of apart.checks.items ≡ map (λ l. l.check) (map launched_of launched.items)) }
    ensures kinds { IfOk result (λ apart. map (λ kinds. kinds.items) apart.kinds.items ≡ map (λ l. l.kinds) (map launched_of launched.items)) }
{
    let mut checks = Vec::new(alloc);
    let mut kinds = Vec::new(alloc);
    for one in launched {
        checks.push(one.check)?;
        kinds.push(one.kinds)?;
    }
    Ok(Apart { checks, kinds })
}

/// The names of classes, fields and shared variables, and their types.
fn ask_cells(program: &Program) -> Result<(), TypeError>
    requires { HasFewNames program.now }
    ensures { result ≡ verdict (each_with_earlier (class_faults program.now) [] program.now.classes ++ fields_faults program.now program.now.shared) tt }
{
    ask_classes(program, program.classes.as_slice())?;
    ask_fields(program, program.shared.as_slice())
}

/// The procedures and threads of a program, with numbers in the place of names, and all check statements.
#[derive(Drop)]
pub(crate) struct Bodies {
    pub(crate) procs: Items<Body>,
    pub(crate) threads: Items<Body>,
    pub(crate) checks: Vec<Launched>,
}

/// The procedures and threads.
fn all_bodies(alloc: Global, program: &Program) -> Result<Bodies, TypeError>
    requires { IsWithinLimits program.now }
    ensures { Gives bodies_of result (walked_bodies program.now) }
{
    let mut checks = Vec::new(alloc);
    let procs = procedures(alloc, program, &mut checks)?;
    let threads = threads(alloc, program, &mut checks)?;
    Ok(Bodies {
        procs,
        threads,
        checks,
    })
}

/// The tree with numbers in the place of names, and its shape.
#[derive(Drop)]
pub(crate) struct Numbered {
    pub(crate) resolved: Resolved,
    pub(crate) shape: Shape,
}

/// The tree with numbers in the place of names, of its parts.
fn assembled(
    alloc: Global,
    program: &Program,
    preds: Items<Pred>,
    bodies: Bodies,
) -> Result<Numbered, AllocError>
    requires { HasFewNames program.now }
    ensures { IfOk result (λ n. resolved_at n ≡ joined_parts program.now preds bodies) }
{
    let apart = set_apart(alloc, bodies.checks)?;
    let classes = class_kinds(alloc, program)?;
    Ok(Numbered {
        resolved: Resolved {
            preds,
            procs: bodies.procs,
            threads: bodies.threads,
            checks: Items::from_vec(apart.checks),
        },
        shape: Shape {
            classes,
            checks: apart.kinds,
        },
    })
}

/// The tree with numbers in the place of names, and its shape; or its first fault.
fn resolved(alloc: Global, program: &Program) -> Result<Numbered, TypeError>
    requires { IsWithinLimits program.now }
    ensures { Gives resolved_at result (verdict (faults_of program.now) (resolved_of program.now)) }
{
    ask_cells(program)?;
    let preds = predicates(alloc, program)?;
    let bodies = all_bodies(alloc, program)?;
    Ok(assembled(alloc, program, preds, bodies)?)
}

/// The typed program of a tree that keeps every rule of types; else the first node, in the order of the walk, that
/// breaks one.
pub fn check_types(alloc: Global, p: Program) -> Result<Typed, TypeError>
    requires { IsWithinLimits p }
    ensures ok { IfOk result (λ typed. (typed.program ≡ p) × (faults_of p ≡ [])) }
    ensures err { IfErr result (λ e. IsFirstFault e (faults_of p)) }
{
    let numbered = resolved(alloc, &p)?;
    Ok(Typed::make(p, numbered.resolved, numbered.shape))
}
