//! The code of expressions. What comes next is laid before, so each piece of code is laid in front of a place.
ghost use Rattle.std.specs.Prelude.{◌≡◌, IfOk};
ghost use Rattle.st_resolved.specs.Views.{term_of, args_of, target_of, source_of};
ghost use Rattle.st_mutator.specs.Laying.{no_place, put as put_node, put_both as both_of, put_either as either_of, put_shared as shared_of, lay_term, lay_dropped, lay_terms, count_of, lay_object, lay_source, field_of_target, place_of_target};

use crate::nodes::{Next, Node};
use st_events::{SHARED_OBJECT, Site};
use st_resolved::{Expr, Items, Source, Target};
use std::alloc::AllocError;

/// The place of a null test that is never met: the shared object is not null.
const NO_PLACE: Site = Site { line: 0, column: 0 };

/// Lays a node, and says where.
pub(crate) fn put(nodes: &mut Items<Node>, node: Node) -> Result<Next, AllocError>
    ensures { IfOk result (λ first. put_node node nodes.old ≡ record { nodes = nodes.new; first = first }) }
{
    let first = Next::At(nodes.len());
    nodes.push(node)?;
    Ok(first)
}

/// A field of the shared object.
fn shared(nodes: &mut Items<Node>, field: u8, next: Next) -> Result<Next, AllocError>
    ensures { IfOk result (λ first. shared_of field next nodes.old ≡ record { nodes = nodes.new; first = first }) }
{
    let load = put(
        nodes,
        Node::Field {
            field,
            at: NO_PLACE,
            next,
        },
    )?;
    put(
        nodes,
        Node::Push {
            word: u64::from(SHARED_OBJECT),
            next: load,
        },
    )
}

/// Behind `left` of `left && right`: the code of `right`, or false.
fn both(nodes: &mut Items<Node>, right: Next, next: Next) -> Result<Next, AllocError>
    ensures { IfOk result (λ first. both_of next (record { nodes = nodes.old; first = right }) ≡ record { nodes = nodes.new; first = first }) }
{
    let word = put(nodes, Node::Push { word: 0, next })?;
    put(
        nodes,
        Node::Branch {
            when_true: right,
            when_false: word,
        },
    )
}

/// Behind `left` of `left || right`: true, or the code of `right`.
fn either(nodes: &mut Items<Node>, right: Next, next: Next) -> Result<Next, AllocError>
    ensures { IfOk result (λ first. either_of next (record { nodes = nodes.old; first = right }) ≡ record { nodes = nodes.new; first = first }) }
{
    let word = put(nodes, Node::Push { word: 1, next })?;
    put(
        nodes,
        Node::Branch {
            when_true: word,
            when_false: right,
        },
    )
}

/// An expression: its word is pushed.
#[cycle(terms)]
pub(crate) fn term(nodes: &mut Items<Node>, expr: &Expr, next: Next) -> Result<Next, AllocError>
    ensures { IfOk result (λ first. lay_term (term_of expr.now) next nodes.old ≡ record { nodes = nodes.new; first = first }) }
{
    match expr {
        Expr::Number(value) => put(
            nodes,
            Node::Push {
                word: value.cast_unsigned(),
                next,
            },
        ),
        Expr::Truth(value) => put(
            nodes,
            Node::Push {
                word: u64::from(*value),
                next,
            },
        ),
        Expr::Null => put(nodes, Node::Push { word: 0, next }),
        Expr::Local(local) => put(
            nodes,
            Node::Local {
                local: *local,
                next,
            },
        ),
        Expr::Shared(field) => shared(nodes, *field, next),
        Expr::Field { object, field, at } => {
            let load = put(
                nodes,
                Node::Field {
                    field: *field,
                    at: *at,
                    next,
                },
            )?;
            term(nodes, object.get(), load)
        }
        Expr::Not(inner) => {
            let turn = put(nodes, Node::Not { next })?;
            term(nodes, inner.get(), turn)
        }
        Expr::Minus { inner, at } => {
            let turn = put(nodes, Node::Minus { at: *at, next })?;
            term(nodes, inner.get(), turn)
        }
        Expr::Binary {
            operator,
            left,
            right,
            at,
        } => {
            let apply = put(
                nodes,
                Node::Binary {
                    operator: *operator,
                    at: *at,
                    next,
                },
            )?;
            let second = term(nodes, right.get(), apply)?;
            term(nodes, left.get(), second)
        }
        Expr::Both { left, right } => {
            let second = term(nodes, right.get(), next)?;
            let branch = both(nodes, second, next)?;
            term(nodes, left.get(), branch)
        }
        Expr::Either { left, right } => {
            let second = term(nodes, right.get(), next)?;
            let branch = either(nodes, second, next)?;
            term(nodes, left.get(), branch)
        }
        Expr::Cond { test, yes, no } => {
            let second = term(nodes, no.get(), next)?;
            let first = term(nodes, yes.get(), next)?;
            let branch = put(
                nodes,
                Node::Branch {
                    when_true: first,
                    when_false: second,
                },
            )?;
            term(nodes, test.get(), branch)
        }
        Expr::Call { pred: _, args } => {
            let word = put(nodes, Node::Push { word: 0, next })?;
            dropped(nodes, args.as_slice(), word)
        }
    }
}

/// Expressions whose words are dropped, from left to right.
#[cycle(terms)]
fn dropped(nodes: &mut Items<Node>, args: &[Expr], next: Next) -> Result<Next, AllocError>
    ensures { IfOk result (λ first. lay_dropped (args_of args.now) next nodes.old ≡ record { nodes = nodes.new; first = first }) }
{
    let mut first = next;
    let mut left = args.len();
    while left > 0 {
        left -= 1;
        let pop = put(nodes, Node::Pop { next: first })?;
        first = term(nodes, &args[left], pop)?;
    }
    Ok(first)
}

/// Arguments, from left to right: their words are pushed, the last one on top.
pub(crate) fn terms(nodes: &mut Items<Node>, args: &[Expr], next: Next) -> Result<Next, AllocError>
    ensures { IfOk result (λ first. lay_terms (args_of args.now) next nodes.old ≡ record { nodes = nodes.new; first = first }) }
{
    let mut first = next;
    let mut left = args.len();
    while left > 0 {
        left -= 1;
        first = term(nodes, &args[left], first)?;
    }
    Ok(first)
}

/// How many arguments there are.
pub(crate) fn count_args(args: &[Expr]) -> usize
    ensures { result ≡ count_of (args_of args.now) }
{
    args.len()
}

/// The field of a target.
pub(crate) fn field_of(target: &Target) -> u8
    ensures { result ≡ field_of_target (target_of target.now) }
{
    match target {
        Target::Shared(field) => *field,
        Target::Field { field, .. } => *field,
    }
}

/// The place of a target's null test.
pub(crate) fn place_of(target: &Target) -> Site
    ensures { result ≡ place_of_target (target_of target.now) }
{
    match target {
        Target::Shared(_) => NO_PLACE,
        Target::Field { at, .. } => *at,
    }
}

/// The object of a target: its number is pushed.
pub(crate) fn object(
    nodes: &mut Items<Node>,
    target: &Target,
    next: Next,
) -> Result<Next, AllocError>
    ensures { IfOk result (λ first. lay_object (target_of target.now) next nodes.old ≡ record { nodes = nodes.new; first = first }) }
{
    match target {
        Target::Shared(_) => put(
            nodes,
            Node::Push {
                word: u64::from(SHARED_OBJECT),
                next,
            },
        ),
        Target::Field { object, .. } => term(nodes, object, next),
    }
}

/// What stands to the right of `=`: its word is pushed.
pub(crate) fn source(
    nodes: &mut Items<Node>,
    source: &Source,
    next: Next,
) -> Result<Next, AllocError>
    ensures { IfOk result (λ first. lay_source (source_of source.now) next nodes.old ≡ record { nodes = nodes.new; first = first }) }
{
    match source {
        Source::Plain(expr) => term(nodes, expr, next),
        Source::New { class, at } => put(
            nodes,
            Node::New {
                class: *class,
                at: *at,
                next,
            },
        ),
        Source::Cas {
            target,
            expect,
            value,
        } => {
            let exchange = put(
                nodes,
                Node::Cas {
                    field: field_of(target),
                    at: place_of(target),
                    next,
                },
            )?;
            let word = term(nodes, value, exchange)?;
            let expected = term(nodes, expect, word)?;
            object(nodes, target, expected)
        }
    }
}
