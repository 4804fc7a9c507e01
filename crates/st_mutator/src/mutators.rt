//! A thread of a program, one request at a time.
ghost use Rattle.std.specs.Prelude.{◌≡◌, ℕ, ◌≤◌, [], ◌∷◌, ◌++◌, List, IfOk};
ghost use Rattle.st_events.specs.declared.limits.Sizes.{Sizes};
ghost use Rattle.st_resolved.specs.declared.limits.TheConstants.{MOST_LOCALS};
ghost use Rattle.st_resolved.specs.Terms.{Program};
ghost use Rattle.st_resolved.specs.Views.{program_of};
ghost use Rattle.st_thread_meaning.specs.Threads.{next_request};
ghost use Rattle.st_mutator.specs.Mutators.{HasHad, HasFewLocals, NamesObject, begun, narrow, narrowed, replies_in, turn_of_want};
ghost use Rattle.st_mutator.specs.Standing.{turn_of_asked, end_of_asked};

use crate::asking::Asked;
use crate::bodies::{Code, code_of};
use crate::locals::Locals;
use crate::machines::Machine;
use crate::stacks::Stack;
use crate::wants::Want;
use st_events::{End, NoMemory};
use st_resolved::Resolved;
use st_thread_meaning::MOST_OPEN_CALLS;
use std::alloc::{AllocError, Global};
use std::marker::Model;

/// A thread of a program that asks for one step of the heap at a time. It holds no heap.
#[derive(Debug, Drop)]
pub struct Mutator {
    machine: Machine,
    /// How the thread ended, once it has.
    ended: Option<End>,
}

impl Model for Mutator {
    ghost use Rattle.st_mutator.specs.Mutators.{Mutating, IsBetweenCalls};

    ghost Value = { Mutating };

    ghost view = { λ m. record { machine = m.machine; ended = m.ended } };

    ghost invariant = { λ m. IsBetweenCalls (record { machine = m.machine; ended = m.ended }) };
}

impl Mutator {
    /// Thread `m` of the program, from 0 in source order, before its first step. It may make `objects` objects, and `events` is its
    /// charge: what its events, turns of loops and calls may cost in all. All memory that it needs is taken here.
    pub fn make(
        alloc: Global,
        program: &Resolved,
        m: u8,
        objects: u32,
        events: u32,
    ) -> Result<Mutator, NoMemory>
        requires { HasFewLocals (program_of program.now) }
        ensures { IfOk result (λ mutator. (sizes : Sizes) → sizes.objects ≡ objects → sizes.events ≡ events → HasHad (program_of program.now) sizes m mutator []) }
    {
        let code = code_of(alloc, program, m)?;
        let machine = begin(alloc, code, objects, events)?;
        Ok(Mutator {
            machine,
            ended: None,
        })
    }

    /// Goes on by the reply to what was asked for last, and tells what the thread asks for next, or how it ended. The first word
    /// that is handed in answers nothing. Who has ended tells the same end again. Takes no memory.
    pub fn next(&mut self, reply: u64) -> Want
        // What it asks for is what the thread's code asks for after the replies so far, where the object has a number of 32 bits, as
        // each object of a heap has.
        ensures asks { (p : Program) (sizes : Sizes) (thread : ℕ) (words : List ℕ) → HasHad p sizes thread self.old words → NamesObject (next_request p sizes thread (replies_in (words ++ reply ∷ []))) → turn_of_want result ≡ next_request p sizes thread (replies_in (words ++ reply ∷ [])) }
        // A word without 32 bits in the place of an object is told as the greatest number of them.
        ensures narrow { (p : Program) (sizes : Sizes) (thread : ℕ) (words : List ℕ) → HasHad p sizes thread self.old words → turn_of_want result ≡ narrowed (next_request p sizes thread (replies_in (words ++ reply ∷ []))) }
        ensures goes_on { (p : Program) (sizes : Sizes) (thread : ℕ) (words : List ℕ) → HasHad p sizes thread self.old words → HasHad p sizes thread self.new (words ++ reply ∷ []) }
    {
        match self.ended {
            Some(end) => return Want::End(end),
            None => {}
        }
        let asked = self.machine.resume(reply);
        self.ended = end_in(asked);
        want_of(asked)
    }
}

/// The end, where the thread has ended.
fn end_in(asked: Asked) -> Option<End>
    ensures { result ≡ end_of_asked asked }
{
    match asked {
        Asked::End(end) => Some(end),
        _ => None,
    }
}

/// The number of 32 bits of an object; the greatest one for a word that has none.
fn object_number(word: u64) -> u32
    ensures { result ≡ narrow word }
{
    word.min(u64::from(u32::MAX)) as u32
}

/// What is asked for, to those outside.
fn want_of(asked: Asked) -> Want
    ensures { turn_of_want result ≡ narrowed (turn_of_asked asked) }
{
    match asked {
        Asked::New { class } => Want::New { class },
        Asked::Load { obj, field } => Want::Load {
            obj: object_number(obj),
            field,
        },
        Asked::Store { obj, field, value } => Want::Store {
            obj: object_number(obj),
            field,
            value,
        },
        Asked::Cas {
            obj,
            field,
            expect,
            value,
        } => Want::Cas {
            obj: object_number(obj),
            field,
            expect,
            value,
        },
        Asked::Launch { site, args } => Want::Launch { site, args },
        Asked::End(end) => Want::End(end),
    }
}

/// The machine of a thread that begins in this code, with all its memory.
fn begin(alloc: Global, code: Code, objects: u32, events: u32) -> Result<Machine, AllocError>
    requires { code.entry.locals ≤ MOST_LOCALS }
    ensures { IfOk result (λ machine. machine ≡ begun (record { nodes = code.nodes; entries = code.entries; entry = code.entry }) objects events) }
{
    Ok(Machine {
        next: code.entry.first,
        takes_reply: false,
        operands: Stack::make(alloc, code.nodes.len())?,
        locals: Locals::begin(&[], code.entry.locals),
        callers: Stack::make(alloc, MOST_OPEN_CALLS)?,
        frames: Stack::make(alloc, events as usize)?,
        charge: events,
        room: objects,
        nodes: code.nodes,
        entries: code.entries,
    })
}
