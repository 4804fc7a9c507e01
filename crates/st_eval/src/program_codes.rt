//! The code of a whole program.
ghost use Rattle.std.specs.Prelude.{◌≡◌, ◌+◌, ◌≤◌, ◌++◌, [], ◌∷◌, suc, length, map, IfOk, OnOk};
ghost use Rattle.st_resolved.specs.Views.{term_of, check_of, predicate_of, program_of};
ghost use Rattle.st_eval.specs.StraightCode.{code_of};
ghost use Rattle.st_eval.specs.Room.{growth, grown};
ghost use Rattle.st_eval.specs.Steps.{span_of};
ghost use Rattle.st_eval.specs.Bodies.{AreBodies, IsCodeOf, LaysBodies, check_bodies, predicate_bodies};

use crate::compiling::code_alone;
use crate::frames::Span;
use crate::instructions::Instruction;
use st_resolved::{Check, Expr, Items, Pred, Resolved};
use std::alloc::{AllocError, Global};

/// The code of a program: that of all bodies in one list.
#[derive(Debug, Drop)]
pub(crate) struct ProgramCode {
    pub instructions: Items<Instruction>,
    /// Where the code of each check statement stands, by its site.
    pub checks: Items<Span>,
    /// Where the code of each predicate stands, by its number.
    pub preds: Items<Span>,
    /// The most words that a body has at a time, without its locals.
    pub most_words: usize,
}

impl ProgramCode {
    /// The code of a program.
    pub(crate) fn make(alloc: Global, program: &Resolved) -> Result<ProgramCode, AllocError>
        ensures { IfOk result (λ code. IsCodeOf (program_of program.now) code) }
    {
        let mut code = Items::new(alloc);
        let mut most_words = 1;
        let checks = lay_checks(alloc, &mut code, &mut most_words, program.checks.as_slice())?;
        let preds = lay_preds(alloc, &mut code, &mut most_words, program.preds.as_slice())?;
        // A copy, since the list that grew keeps up to twice the memory that it needs.
        let instructions = Items::from_slice(alloc, code.as_slice())?;
        Ok(ProgramCode {
            instructions,
            checks,
            preds,
            most_words,
        })
    }
}

/// Appends the code of all check statements.
fn lay_checks(
    alloc: Global,
    code: &mut Items<Instruction>,
    most: &mut usize,
    checks: &[Check],
) -> Result<Items<Span>, AllocError>
    ensures { IfOk result (λ spans. LaysBodies code.old code.new most.old most.new spans (check_bodies (map check_of checks.now))) }
{
    let mut spans = Items::new(alloc);
    for check in checks {
        lay(alloc, code, most, &mut spans, &check.body)?;
    }
    Ok(spans)
}

/// Appends the code of all predicates.
fn lay_preds(
    alloc: Global,
    code: &mut Items<Instruction>,
    most: &mut usize,
    preds: &[Pred],
) -> Result<Items<Span>, AllocError>
    ensures { IfOk result (λ spans. LaysBodies code.old code.new most.old most.new spans (predicate_bodies (map predicate_of preds.now))) }
{
    let mut spans = Items::new(alloc);
    for pred in preds {
        lay(alloc, code, most, &mut spans, &pred.body)?;
    }
    Ok(spans)
}

/// Appends the code of a body, and where it stands.
fn lay(
    alloc: Global,
    code: &mut Items<Instruction>,
    most: &mut usize,
    spans: &mut Items<Span>,
    body: &Expr,
) -> Result<(), AllocError>
    ensures code { OnOk result (code.new ≡ code.old ++ code_of (term_of body.now)) }
    ensures spans { OnOk result (spans.new ≡ spans.old ++ record { start = length code.old; end = length code.new } ∷ []) }
    ensures most { OnOk result (most.old ≤ most.new) }
    ensures room { OnOk result (suc (growth (code_of (term_of body.now))) ≤ most.new) }
{
    let added = code_alone(alloc, body)?;
    *most = (*most).max(growth(added.as_slice()) + 1);
    let start = code.len();
    code.append(added)?;
    spans.push(Span {
        start,
        end: code.len(),
    })
}

/// By how much code makes the words of a body more, at most.
fn growth(code: &[Instruction]) -> usize
    ensures more { result ≡ growth code.now }
    ensures few { result ≤ length code.now }
{
    let mut more = 0;
    for instruction in code {
        more += grown(*instruction);
    }
    more
}

/// 1 where an instruction may leave one word more than it takes.
fn grown(instruction: Instruction) -> usize
    ensures more { result ≡ grown instruction }
    ensures one { result ≤ 1 }
{
    match instruction {
        Instruction::Push(_)
        | Instruction::Local(_)
        | Instruction::Shared(_)
        | Instruction::Call { .. } => 1,
        _ => 0,
    }
}

/// Where the code of a body stands, by its number. A program that is well formed names no body that it lacks.
pub(crate) fn span_of(spans: &[Span], number: usize) -> Span
    ensures { result ≡ span_of spans.now number }
{
    match spans.get(number) {
        None => Span { start: 0, end: 0 },
        Some(span) => *span,
    }
}
