//! Procedures and threads: their parameters, and their bodies.
ghost use Rattle.std.specs.Prelude.{◌≡◌, [], ◌++◌, map};
ghost use Rattle.std.specs.List.{list_any};
ghost use Rattle.std.specs.Str.{bytes_eq};
ghost use Rattle.st_types.specs.Checked.{Gives, verdict};
ghost use Rattle.st_types.specs.Names.{HasFewNames};
ghost use Rattle.st_types.specs.Limits.{IsSmallBody, HasRoomFor, proc_tally, thread_tally, AreSmallProcs, AreSmallThreads};
ghost use Rattle.st_types.specs.Rules.{walk_proc, walk_thread, walked_body, walk_routines, proc_head_faults};
ghost use Rattle.st_types.specs.Routines.{routed, routed_at, routed_all, routed_all_at};
ghost use Rattle.st_types.specs.Tallies.{tally_all, all_of};
ghost use Rattle.st_types.specs.Walks.{launched_of};

use crate::assignments::ask_new;
use crate::errors::TypeError;
use crate::names::pred_number;
use crate::predicates::param_locals;
use crate::spaces::ask_params;
use crate::statements::statements_in;
use crate::walks::{Launched, Walk, kinds_of};
use st_ast::{Param, Proc, Program, Stmt, Thread};
use st_resolved::{Body, Items};
use std::alloc::Global;
use std::mem;

/// The body of a procedure or a thread, with the check statements before it; they are joined by its own.
fn body<'a>(
    alloc: Global,
    program: &'a Program,
    params: &'a [Param],
    statements: &'a [Stmt],
    checks: &mut Vec<Launched>,
) -> Result<Body, TypeError>
    requires names { HasFewNames program.now }
    requires small { IsSmallBody params.now statements.now }
    requires room { HasRoomFor checks.old (tally_all statements.now) }
    ensures { Gives (routed_at checks.new) result (routed (walked_body program.now params.now statements.now (map launched_of checks.old.items))) }
{
    let mut walk = Walk {
        locals: param_locals(alloc, program, params)?,
        checks: mem::replace(checks, Vec::new(alloc)),
    };
    let statements = statements_in(alloc, program, &mut walk, statements)?;
    let locals = Items::from_vec(kinds_of(alloc, &walk.locals)?);
    *checks = walk.checks;
    Ok(Body {
        params: params.len() as u8,
        locals,
        statements,
    })
}

/// Whether a procedure of the list has this name.
fn has_proc(procs: &[Proc], name: &[u8]) -> bool
    ensures { result ≡ list_any (λ q. bytes_eq q.name name.now) procs.now }
{
    procs.iter().any(|other| other.name.as_slice() == name)
}

/// The head of a procedure: its name is new among predicates and procedures, and then its parameters.
fn ask_proc_head(program: &Program, earlier: &[Proc], procedure: &Proc) -> Result<(), TypeError>
    requires { HasFewNames program.now }
    ensures { result ≡ verdict (proc_head_faults program.now earlier.now procedure.now) tt }
{
    let name = procedure.name.as_slice();
    let is_taken = pred_number(program, name).is_some() || has_proc(earlier, name);
    ask_new(is_taken, procedure.site)?;
    ask_params(program, procedure.params.as_slice())
}

/// A procedure, after earlier ones.
fn procedure(
    alloc: Global,
    program: &Program,
    earlier: &[Proc],
    procedure: &Proc,
    checks: &mut Vec<Launched>,
) -> Result<Body, TypeError>
    requires names { HasFewNames program.now }
    requires small { IsSmallBody procedure.now.params procedure.now.body }
    requires room { HasRoomFor checks.old (proc_tally procedure.now) }
    ensures { Gives (routed_at checks.new) result (routed (walk_proc program.now earlier.now (map launched_of checks.old.items) procedure.now)) }
{
    ask_proc_head(program, earlier, procedure)?;
    let params = procedure.params.as_slice();
    body(alloc, program, params, procedure.body.as_slice(), checks)
}

/// The procedures of a program.
pub(crate) fn procedures(
    alloc: Global,
    program: &Program,
    checks: &mut Vec<Launched>,
) -> Result<Items<Body>, TypeError>
    requires names { HasFewNames program.now }
    requires small { AreSmallProcs program.now.procs }
    requires room { HasRoomFor checks.old (all_of (map proc_tally program.now.procs)) }
    ensures { Gives (routed_all_at checks.new) result (routed_all (walk_routines (walk_proc program.now) [] (map launched_of checks.old.items) program.now.procs)) }
{
    let mut done = Vec::new(alloc);
    let procs = program.procs.as_slice();
    for (i, one) in procs.iter().enumerate() {
        done.push(procedure(alloc, program, &procs[..i], one, checks)?)?;
    }
    Ok(Items::from_vec(done))
}

/// Whether a thread of the list has this name.
fn has_thread(threads: &[Thread], name: &[u8]) -> bool
    ensures { result ≡ list_any (λ q. bytes_eq q.name name.now) threads.now }
{
    threads.iter().any(|other| other.name.as_slice() == name)
}

/// A thread, after earlier ones: its name is new among threads, and then its body.
fn thread(
    alloc: Global,
    program: &Program,
    earlier: &[Thread],
    thread: &Thread,
    checks: &mut Vec<Launched>,
) -> Result<Body, TypeError>
    requires names { HasFewNames program.now }
    requires small { IsSmallBody [] thread.now.body }
    requires room { HasRoomFor checks.old (thread_tally thread.now) }
    ensures { Gives (routed_at checks.new) result (routed (walk_thread program.now earlier.now (map launched_of checks.old.items) thread.now)) }
{
    ask_new(has_thread(earlier, thread.name.as_slice()), thread.site)?;
    body(alloc, program, &[], thread.body.as_slice(), checks)
}

/// The threads of a program.
pub(crate) fn threads(
    alloc: Global,
    program: &Program,
    checks: &mut Vec<Launched>,
) -> Result<Items<Body>, TypeError>
    requires names { HasFewNames program.now }
    requires small { AreSmallThreads program.now.threads }
    requires room { HasRoomFor checks.old (all_of (map thread_tally program.now.threads)) }
    ensures { Gives (routed_all_at checks.new) result (routed_all (walk_routines (walk_thread program.now) [] (map launched_of checks.old.items) program.now.threads)) }
{
    let mut done = Vec::new(alloc);
    let threads = program.threads.as_slice();
    for (i, one) in threads.iter().enumerate() {
        done.push(thread(alloc, program, &threads[..i], one, checks)?)?;
    }
    Ok(Items::from_vec(done))
}
