//! The code of statements and bodies.
ghost use Rattle.std.specs.Prelude.{◌≡◌, IfOk, [], map, slice_get};
ghost use Rattle.st_resolved.specs.Views.{args_of, command_of, block_of, check_of, routine_of, target_of, term_of, source_of, program_of};
ghost use Rattle.st_resolved.specs.Terms.{a_set, a_put, a_proc_call, a_launch};
ghost use Rattle.st_thread_meaning.specs.Statements.{names_of as names_of_check};
ghost use Rattle.st_mutator.specs.Laying.{lay_names, lay_branch, lay_loop, lay_command, lay_block, lay_procs, lay_thread, lay_program};

use crate::laying::{count_args, field_of, object, place_of, put, source, term, terms};
use crate::nodes::{Entry, Next, Node};
use st_events::{MOST_ARGS, Site};
use st_resolved::{Body, Check, Expr, Items, Resolved, Source, Stmt, Target};
use std::alloc::{AllocError, Global};

/// The locals that a check statement takes, no more than there may be; none where there is no such statement.
fn names_of(checks: &[Check], site: u16) -> &[u8]
    ensures { result.now ≡ names_of_check (slice_get (map check_of checks.now) site) }
{
    match checks.get(usize::from(site)) {
        None => &[],
        Some(check) => {
            let names = check.args.as_slice();
            &names[..MOST_ARGS.min(names.len())]
        }
    }
}

/// The words of locals are pushed, from left to right.
fn locals(nodes: &mut Items<Node>, names: &[u8], next: Next) -> Result<Next, AllocError>
    ensures { IfOk result (λ first. lay_names names.now next nodes.old ≡ record { nodes = nodes.new; first = first }) }
{
    let mut first = next;
    let mut left = names.len();
    while left > 0 {
        left -= 1;
        first = put(
            nodes,
            Node::Local {
                local: names[left],
                next: first,
            },
        )?;
    }
    Ok(first)
}

/// A local gets a value.
fn set(nodes: &mut Items<Node>, local: u8, value: &Source, next: Next) -> Result<Next, AllocError>
    ensures { IfOk result (λ first. lay_command [] (a_set local (source_of value.now)) next nodes.old ≡ record { nodes = nodes.new; first = first }) }
{
    let set = put(nodes, Node::Set { local, next })?;
    source(nodes, value, set)
}

/// A store.
fn store(
    nodes: &mut Items<Node>,
    target: &Target,
    value: &Source,
    next: Next,
) -> Result<Next, AllocError>
    ensures { IfOk result (λ first. lay_command [] (a_put (target_of target.now) (source_of value.now)) next nodes.old ≡ record { nodes = nodes.new; first = first }) }
{
    let store = put(
        nodes,
        Node::Store {
            field: field_of(target),
            at: place_of(target),
            next,
        },
    )?;
    let word = source(nodes, value, store)?;
    object(nodes, target, word)
}

/// The launch of a check statement.
fn launch(
    nodes: &mut Items<Node>,
    checks: &[Check],
    site: u16,
    next: Next,
) -> Result<Next, AllocError>
    ensures { IfOk result (λ first. lay_command (map check_of checks.now) (a_launch site) next nodes.old ≡ record { nodes = nodes.new; first = first }) }
{
    let names = names_of(checks, site);
    let launch = put(
        nodes,
        Node::Launch {
            site,
            count: names.len() as u8,
            next,
        },
    )?;
    locals(nodes, names, launch)
}

/// A condition, in front of two pieces of code: the code goes on by it.
fn branch(
    nodes: &mut Items<Node>,
    test: &Expr,
    when_true: Next,
    when_false: Next,
) -> Result<Next, AllocError>
    ensures { IfOk result (λ first. lay_branch (term_of test.now) when_true when_false nodes.old ≡ record { nodes = nodes.new; first = first }) }
{
    let branch = put(
        nodes,
        Node::Branch {
            when_true,
            when_false,
        },
    )?;
    term(nodes, test, branch)
}

/// A loop, whose body is laid.
fn repeat(nodes: &mut Items<Node>, test: &Expr, body: Next, next: Next) -> Result<Next, AllocError>
    ensures { IfOk result (λ first. lay_loop (term_of test.now) body next nodes.old ≡ record { nodes = nodes.new; first = first }) }
{
    let test = term(nodes, test, Next::Last)?;
    put(nodes, Node::While { test, body, next })
}

/// A call of a procedure.
fn call(
    nodes: &mut Items<Node>,
    procedure: u8,
    args: &[Expr],
    at: Site,
    next: Next,
) -> Result<Next, AllocError>
    ensures { IfOk result (λ first. lay_command [] (a_proc_call procedure (args_of args.now) at) next nodes.old ≡ record { nodes = nodes.new; first = first }) }
{
    let call = put(
        nodes,
        Node::Call {
            procedure,
            count: count_args(args),
            at,
            next,
        },
    )?;
    terms(nodes, args, call)
}

/// A statement, in front of what comes next.
#[cycle(statements)]
fn command(
    nodes: &mut Items<Node>,
    statement: &Stmt,
    checks: &[Check],
    next: Next,
) -> Result<Next, AllocError>
    ensures { IfOk result (λ first. lay_command (map check_of checks.now) (command_of statement.now) next nodes.old ≡ record { nodes = nodes.new; first = first }) }
{
    match statement {
        Stmt::Set {
            local,
            source: value,
        } => set(nodes, *local, value, next),
        Stmt::Put {
            target,
            source: value,
        } => store(nodes, target, value, next),
        Stmt::If { test, then, other } => {
            let second = block(nodes, other.as_slice(), checks, next)?;
            let first = block(nodes, then.as_slice(), checks, next)?;
            branch(nodes, test, first, second)
        }
        Stmt::While { test, body } => {
            let inner = block(nodes, body.as_slice(), checks, Next::Last)?;
            repeat(nodes, test, inner, next)
        }
        Stmt::Call {
            procedure,
            args,
            at,
        } => call(nodes, *procedure, args.as_slice(), *at, next),
        Stmt::Check { site } => launch(nodes, checks, *site, next),
    }
}

/// Statements, one after another, in front of what comes next.
#[cycle(statements)]
pub(crate) fn block(
    nodes: &mut Items<Node>,
    statements: &[Stmt],
    checks: &[Check],
    next: Next,
) -> Result<Next, AllocError>
    ensures { IfOk result (λ first. lay_block (map check_of checks.now) (block_of statements.now) next nodes.old ≡ record { nodes = nodes.new; first = first }) }
{
    let mut first = next;
    let mut left = statements.len();
    while left > 0 {
        left -= 1;
        first = command(nodes, &statements[left], checks, first)?;
    }
    Ok(first)
}

/// The bodies of the procedures, in source order, and where each begins.
pub(crate) fn procedures(
    alloc: Global,
    nodes: &mut Items<Node>,
    procs: &[Body],
    checks: &[Check],
) -> Result<Items<Entry>, AllocError>
    ensures { IfOk result (λ entries. lay_procs (map check_of checks.now) (map routine_of procs.now) nodes.old ≡ record { nodes = nodes.new; entries = entries }) }
{
    let mut entries = Items::new(alloc);
    for body in procs {
        let first = block(nodes, body.statements.as_slice(), checks, Next::Last)?;
        entries.push(Entry {
            first,
            locals: body.locals.len(),
        })?;
    }
    Ok(entries)
}

/// The code of a thread; where there is no such thread there is nothing to do.
fn thread(
    nodes: &mut Items<Node>,
    threads: &[Body],
    m: u8,
    checks: &[Check],
) -> Result<Entry, AllocError>
    ensures { IfOk result (λ entry. lay_thread (map check_of checks.now) (slice_get (map routine_of threads.now) m) nodes.old ≡ record { nodes = nodes.new; entry = entry }) }
{
    match threads.get(usize::from(m)) {
        None => Ok(Entry {
            first: Next::Last,
            locals: 0,
        }),
        Some(body) => {
            let first = block(nodes, body.statements.as_slice(), checks, Next::Last)?;
            Ok(Entry {
                first,
                locals: body.locals.len(),
            })
        }
    }
}

/// The code of a program for one of its threads.
#[derive(Debug, Drop)]
pub(crate) struct Code {
    pub(crate) nodes: Items<Node>,
    /// Where the procedures begin, in source order.
    pub(crate) entries: Items<Entry>,
    /// Where the thread begins.
    pub(crate) entry: Entry,
}

/// Lays out the procedures, and then thread `m`.
pub(crate) fn code_of(alloc: Global, program: &Resolved, m: u8) -> Result<Code, AllocError>
    ensures { IfOk result (λ code. lay_program (program_of program.now) m ≡ record { nodes = code.nodes; entries = code.entries; entry = code.entry }) }
{
    let mut nodes = Items::new(alloc);
    let checks = program.checks.as_slice();
    let entries = procedures(alloc, &mut nodes, program.procs.as_slice(), checks)?;
    let entry = thread(&mut nodes, program.threads.as_slice(), m, checks)?;
    Ok(Code {
        nodes,
        entries,
        entry,
    })
}
