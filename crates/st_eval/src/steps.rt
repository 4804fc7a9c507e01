//! One step of an evaluation.
ghost use Rattle.std.specs.Prelude.{◌≡◌, ◌≢◌, ◌≤◌, ◌<◌, ℕ, [], length, slice_get, MatchOption, unwrap_or};
ghost use Rattle.st_check_meaning.specs.Plain.{verdict_of};
ghost use Rattle.st_eval.specs.Activations.{onward, popped, resumed, top_word};
ghost use Rattle.st_eval.specs.Outcomes.{outcome};
ghost use Rattle.st_eval.specs.Room.{HasOneRoom, Needs, NeedsNext, NeedsStep};
ghost use Rattle.st_eval.specs.Steps.{part, answered, called, acted, returned, step, narrow, told};

use crate::asks::Ask;
use crate::frames::Span;
use crate::instructions::Instruction;
use crate::operators::{negate, operate};
use crate::program_codes::span_of;
use crate::stacks::Stack;
use st_check_meaning::MOST_DEPTH;
use st_events::{Plain, SHARED_OBJECT, Site};
use st_resolved::Operator;

/// One step: the next instruction is done, or the body that runs is at its end. Answers nothing where the evaluation goes on.
pub(crate) fn step(
    code: &[Instruction],
    preds: &[Span],
    stack: &mut Stack,
    units: &mut u32,
) -> Option<Ask>
    requires { NeedsStep code.now stack.old }
    ensures { narrow (step code.now preds.now stack.old units.old) ≡ told result stack.new units.new }
{
    match next_instruction(code, stack) {
        None => leave(stack),
        Some(instruction) => act(preds, stack, units, instruction),
    }
}

/// The next instruction, after which the place goes on; none at the end of the body.
fn next_instruction(code: &[Instruction], stack: &mut Stack) -> Option<Instruction>
    ensures instruction { result ≡ slice_get (part code.now stack.old.running.place stack.old.running.end) 0 }
    ensures moved { MatchOption result (stack.new ≡ stack.old) (λ _. stack.new ≡ onward stack.old) }
{
    let place = stack.place();
    if place >= stack.end() {
        return None;
    }
    match code.get(place) {
        None => None,
        Some(instruction) => {
            stack.advance();
            Some(*instruction)
        }
    }
}

/// Ends the body that runs. Its top word goes to the last caller; where none waits it is the check's.
fn leave(stack: &mut Stack) -> Option<Ask>
    requires { NeedsNext None stack.old }
    ensures { (units : ℕ) → returned (resumed stack.old) stack.old units ≡ told result stack.new units }
{
    let word = stack.pop();
    if !stack.resume() {
        return Some(Ask::Done(verdict(word)));
    }
    stack.push(word);
    None
}

/// True is Holds, false is Fails.
fn verdict(word: u64) -> Plain
    ensures { result ≡ verdict_of word }
{
    if word == 0 {
        Plain::Fails
    } else {
        Plain::Holds
    }
}

/// Does an instruction.
fn act(preds: &[Span], stack: &mut Stack, units: &mut u32, instruction: Instruction) -> Option<Ask>
    requires { Needs instruction stack.old }
    ensures { narrow (acted preds.now instruction stack.old units.old) ≡ told result stack.new units.new }
{
    match instruction {
        Instruction::Push(word) => stack.push(word),
        Instruction::Local(local) => push_local(stack, local),
        Instruction::Shared(field) => {
            return Some(Ask::Read {
                obj: SHARED_OBJECT,
                field,
            });
        }
        Instruction::Field { field, at } => return Some(follow(stack, field, at)),
        Instruction::Not => turn_truth(stack),
        Instruction::Minus(at) => return turn_sign(stack, at),
        Instruction::Binary { operator, at } => return binary(stack, operator, at),
        Instruction::Both(count) => both(stack, count),
        Instruction::Either(count) => either(stack, count),
        Instruction::Test(count) => test(stack, count),
        Instruction::Skip(count) => stack.skip(count),
        Instruction::Call { pred, args } => return call(preds, stack, units, pred, args),
    }
    None
}

/// Pushes the word of a local.
fn push_local(stack: &mut Stack, local: u8)
    requires { HasOneRoom stack.old }
    ensures { (units : ℕ) → acted [] (Instruction.Local local) stack.old units ≡ told None stack.new units }
{
    let word = stack.local(local);
    stack.push(word);
}

/// Takes an object, and asks for a field of it; of null that is a fault.
fn follow(stack: &mut Stack, field: u8, at: Site) -> Ask
    ensures { (units : ℕ) → narrow (acted [] (Instruction.Field field at) stack.old units) ≡ told (Some result) stack.new units }
{
    let obj = stack.pop();
    if obj == 0 {
        return Ask::Done(Plain::Null(at));
    }
    Ask::Read {
        obj: obj.min(u64::from(u32::MAX)) as u32,
        field,
    }
}

/// Turns true and false.
fn turn_truth(stack: &mut Stack)
    requires { HasOneRoom (popped stack.old) }
    ensures { (units : ℕ) → acted [] Instruction.Not stack.old units ≡ told None stack.new units }
{
    let word = stack.pop();
    stack.push(u64::from(word == 0));
}

/// Takes a number, and pushes it with the other sign.
fn turn_sign(stack: &mut Stack, at: Site) -> Option<Ask>
    requires { HasOneRoom (popped stack.old) }
    ensures { (units : ℕ) → acted [] (Instruction.Minus at) stack.old units ≡ told result stack.new units }
{
    let word = stack.pop();
    answer(stack, negate(word, at))
}

/// Takes the right operand and then the left one, and pushes what the operator gives.
fn binary(stack: &mut Stack, operator: Operator, at: Site) -> Option<Ask>
    requires { HasOneRoom (popped (popped stack.old)) }
    ensures { (units : ℕ) → acted [] (Instruction.Binary operator at) stack.old units ≡ told result stack.new units }
{
    let right = stack.pop();
    let left = stack.pop();
    answer(stack, operate(operator, left, right, at))
}

/// Pushes what an operator gave; a fault is the end.
fn answer(stack: &mut Stack, word: Result<u64, Plain>) -> Option<Ask>
    requires { HasOneRoom stack.old }
    ensures { (units : ℕ) → answered (outcome word) stack.old units ≡ told result stack.new units }
{
    match word {
        Ok(word) => {
            stack.push(word);
            None
        }
        Err(plain) => Some(Ask::Done(plain)),
    }
}

/// Takes true; leaves false, and passes over so many.
fn both(stack: &mut Stack, count: usize)
    requires { HasOneRoom (popped stack.old) }
    ensures { (units : ℕ) → acted [] (Instruction.Both count) stack.old units ≡ told None stack.new units }
{
    if stack.pop() == 0 {
        stack.push(0);
        stack.skip(count);
    }
}

/// Takes false; leaves true, and passes over so many.
fn either(stack: &mut Stack, count: usize)
    requires { HasOneRoom (popped stack.old) }
    ensures { (units : ℕ) → acted [] (Instruction.Either count) stack.old units ≡ told None stack.new units }
{
    if stack.pop() != 0 {
        stack.push(1);
        stack.skip(count);
    }
}

/// Takes a truth; where it is false, passes over so many.
fn test(stack: &mut Stack, count: usize)
    ensures { (units : ℕ) → acted [] (Instruction.Test count) stack.old units ≡ told None stack.new units }
{
    if stack.pop() == 0 {
        stack.skip(count);
    }
}

/// A call: too deep, else spent, else it uses a unit and the body of the predicate begins.
fn call(preds: &[Span], stack: &mut Stack, units: &mut u32, pred: u8, args: usize) -> Option<Ask>
    requires words { args ≤ length stack.old.running.words }
    requires room { length stack.old.waiting ≢ MOST_DEPTH → length stack.old.waiting < stack.old.calls_room }
    ensures { called preds.now pred args stack.old units.old ≡ told result stack.new units.new }
{
    if stack.depth() == MOST_DEPTH {
        return Some(Ask::Done(Plain::Deep));
    }
    if *units == 0 {
        return Some(Ask::Done(Plain::Spent));
    }
    *units -= 1;
    stack.enter(span_of(preds, usize::from(pred)), args);
    None
}
