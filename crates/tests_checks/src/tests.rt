//! Rows of checks, with the answers that the meaning of a check gives.
ghost use Rattle.std.specs.Prelude.{◌≡◌, ◌≤◌};
ghost use Rattle.st_resolved.specs.Views.{program_of};
ghost use Rattle.st_eval.specs.Evaluations.{IsMadeFor};

mod programs;

use programs::{
    alone, binary, both, call, column, cond, down, either, fault, field, minus, not, sorted,
    with_predicate,
};
use st_eval::{Ask, Eval};
use st_events::{Args, Kind, NoMemory, Plain};
use st_resolved::{Expr, Operator, Resolved};
use std::alloc::{AllocError, Global};
use std::test::Fail;

/// One argument.
fn one(word: u64) -> Args
    ensures { result.count ≡ 1 }
{
    Args {
        count: 1,
        words: [word, 0, 0, 0],
    }
}

/// The word of a cell, of objects of two words from number 0 on.
fn word(heap: &[[u64; 2]], obj: u32, field: u8) -> u64 {
    match heap.get(obj as usize) {
        None => 0,
        Some(words) => words.get(usize::from(field)).copied().unwrap_or(0),
    }
}

/// What a check answers, where it asks for these cells in this order and for no other.
fn answer(
    eval: &mut Eval,
    program: &Resolved,
    args: Args,
    heap: &[[u64; 2]],
    cells: &[(u32, u8)],
) -> Option<Plain>
    requires made { IsMadeFor (program_of program.now) eval.old }
    requires few { args.count ≤ 4 }
    ensures { IsMadeFor (program_of program.now) eval.new }
{
    eval.start(program, 0, args);
    let mut reply = 0;
    for cell in cells {
        match eval.next(program, reply) {
            Ask::Done(_) => return None,
            Ask::Read { obj, field } => {
                if (obj, field) != *cell {
                    return None;
                }
                reply = word(heap, obj, field);
            }
        }
    }
    match eval.next(program, reply) {
        Ask::Done(plain) => Some(plain),
        Ask::Read { .. } => None,
    }
}

/// The first two answers about object 2, where its field has this word.
fn two_answers(eval: &mut Eval, program: &Resolved, word: u64) -> (Ask, Ask)
    requires { IsMadeFor (program_of program.now) eval.old }
    ensures { IsMadeFor (program_of program.now) eval.new }
{
    eval.start(program, 0, one(2));
    let first = eval.next(program, 0);
    (first, eval.next(program, word))
}

#[test]
fn a_field_is_asked_for_and_its_word_decides(rt: HostRuntime) -> Result<(), Fail> {
    let alloc = rt.alloc();
    let word = field(alloc, Expr::Local(0), 0, 1)?;
    let zero = binary(alloc, word, Operator::Equal, Expr::Number(0), 2)?;
    let program = alone(alloc, zero)?;
    let mut eval = Eval::make(alloc, &program, 0)?;
    let read = Ask::Read { obj: 2, field: 0 };
    assert_eq!(rt;
        two_answers(&mut eval, &program, 0),
        (read, Ask::Done(Plain::Holds))
    );
    assert_eq!(rt;
        two_answers(&mut eval, &program, 1),
        (read, Ask::Done(Plain::Fails))
    );
    Ok(())
}

/// What `sorted` answers for the list 1, 2, 3, twice with one evaluator, where it asks for these cells each time.
fn sorted_twice(
    alloc: Global,
    calls: u32,
    cells: &[(u32, u8)],
) -> Result<(Option<Plain>, Option<Plain>), NoMemory> {
    let check = call(alloc, Expr::Local(0))?;
    let program = with_predicate(alloc, Kind::Ref(1), sorted(alloc)?, check)?;
    let heap = [[0, 0], [0, 0], [3, 0], [2, 2], [1, 3]];
    let mut eval = Eval::make(alloc, &program, calls)?;
    let first = answer(&mut eval, &program, one(4), &heap, cells);
    let second = answer(&mut eval, &program, one(4), &heap, cells);
    Ok((first, second))
}

#[test]
fn a_list_is_sorted_within_three_calls(rt: HostRuntime) -> Result<(), Fail> {
    let alloc = rt.alloc();
    let cells = [
        (4, 1),
        (4, 0),
        (4, 1),
        (3, 0),
        (4, 1),
        (3, 1),
        (3, 0),
        (3, 1),
        (2, 0),
        (3, 1),
        (2, 1),
    ];
    let holds = Some(Plain::Holds);
    assert_eq!(rt; sorted_twice(alloc, 3, &cells)?, (holds, holds));
    let spent = Some(Plain::Spent);
    assert_eq!(rt; sorted_twice(alloc, 2, &cells[..10])?, (spent, spent));
    Ok(())
}

#[test]
fn calls_end_too_deep_or_spent(rt: HostRuntime) -> Result<(), Fail> {
    let alloc = rt.alloc();
    let program = with_predicate(alloc, Kind::Int, down(alloc)?, call(alloc, Expr::Local(0))?)?;
    let rows = [
        (4_096, 100_000, Plain::Holds),
        (4_097, 100_000, Plain::Deep),
        (4_097, 4_096, Plain::Deep),
        (4_097, 4_095, Plain::Spent),
        (1, 0, Plain::Spent),
        (1, 1, Plain::Holds),
    ];
    for (k, calls, plain) in rows {
        let mut eval = Eval::make(alloc, &program, calls)?;
        assert_eq!(rt; answer(&mut eval, &program, one(k), &[], &[]), Some(plain));
    }
    Ok(())
}

/// What `left operator right == value` answers; the operator stands at column 5.
fn of_numbers(
    alloc: Global,
    left: i64,
    operator: Operator,
    right: i64,
    value: Expr,
) -> Result<Option<Plain>, NoMemory> {
    let given = binary(alloc, Expr::Number(left), operator, Expr::Number(right), 5)?;
    of_check(alloc, binary(alloc, given, Operator::Equal, value, 9)?)
}

/// What a check answers that asks for no cell, where local 0 is null.
fn of_check(alloc: Global, body: Expr) -> Result<Option<Plain>, NoMemory> {
    let program = alone(alloc, body)?;
    let mut eval = Eval::make(alloc, &program, 0)?;
    Ok(answer(&mut eval, &program, one(0), &[], &[]))
}

#[test]
fn operators_at_their_bounds(rt: HostRuntime) -> Result<(), Fail> {
    let alloc = rt.alloc();
    let rows = [
        (i64::MAX, Operator::Add, 0, i64::MAX),
        (i64::MIN, Operator::Add, i64::MAX, -1),
        (i64::MIN, Operator::Sub, i64::MIN, 0),
        (-1, Operator::Sub, i64::MIN, i64::MAX),
        (i64::MIN, Operator::Mul, 1, i64::MIN),
        (7, Operator::Div, 2, 3),
        (-7, Operator::Div, 2, -3),
        (7, Operator::Div, -2, -3),
        (-7, Operator::Div, -2, 3),
        (7, Operator::Rem, 2, 1),
        (-7, Operator::Rem, 2, -1),
        (7, Operator::Rem, -2, 1),
        (-7, Operator::Rem, -2, -1),
        (i64::MIN, Operator::Div, 1, i64::MIN),
        (i64::MIN, Operator::Rem, 1, 0),
        (i64::MAX, Operator::Div, -1, -i64::MAX),
    ];
    for (left, operator, right, value) in rows {
        let given = of_numbers(alloc, left, operator, right, Expr::Number(value))?;
        assert_eq!(rt; given, Some(Plain::Holds));
    }
    Ok(())
}

#[test]
fn comparisons(rt: HostRuntime) -> Result<(), Fail> {
    let alloc = rt.alloc();
    let rows = [
        (i64::MIN, Operator::Less, i64::MAX, true),
        (-1, Operator::Less, 0, true),
        (0, Operator::Less, -1, false),
        (i64::MAX, Operator::Less, i64::MAX, false),
        (i64::MAX, Operator::LessEq, i64::MAX, true),
        (0, Operator::LessEq, i64::MIN, false),
        (i64::MAX, Operator::Greater, i64::MIN, true),
        (i64::MIN, Operator::Greater, i64::MIN, false),
        (i64::MIN, Operator::GreaterEq, i64::MIN, true),
        (i64::MIN, Operator::GreaterEq, 0, false),
        (-1, Operator::Equal, -1, true),
        (-1, Operator::Equal, 1, false),
        (i64::MIN, Operator::NotEqual, i64::MAX, true),
        (i64::MIN, Operator::NotEqual, i64::MIN, false),
    ];
    for (left, operator, right, value) in rows {
        let given = of_numbers(alloc, left, operator, right, Expr::Truth(value))?;
        assert_eq!(rt; given, Some(Plain::Holds));
    }
    Ok(())
}

#[test]
fn faults_of_operators(rt: HostRuntime) -> Result<(), Fail> {
    let alloc = rt.alloc();
    let overflow = Plain::Overflow(column(5));
    let divide = Plain::Divide(column(5));
    let rows = [
        (i64::MAX, Operator::Add, 1, overflow),
        (i64::MIN, Operator::Add, -1, overflow),
        (0, Operator::Sub, i64::MIN, overflow),
        (i64::MIN, Operator::Sub, 1, overflow),
        (i64::MIN, Operator::Mul, -1, overflow),
        (i64::MAX, Operator::Mul, 2, overflow),
        (i64::MIN, Operator::Div, -1, overflow),
        (i64::MIN, Operator::Rem, -1, overflow),
        (1, Operator::Div, 0, divide),
        (1, Operator::Rem, 0, divide),
        (i64::MIN, Operator::Div, 0, divide),
        (0, Operator::Rem, 0, divide),
    ];
    for (left, operator, right, plain) in rows {
        let given = of_numbers(alloc, left, operator, right, Expr::Number(0))?;
        assert_eq!(rt; given, Some(plain));
    }
    Ok(())
}

/// `1 / 0 == 0`, with the division at this column.
fn faulty(alloc: Global, at: u32) -> Result<Expr, AllocError> {
    binary(
        alloc,
        fault(alloc, at)?,
        Operator::Equal,
        Expr::Number(0),
        9,
    )
}

/// True, or a check that faults at column 2.
fn true_or_faulty(alloc: Global, truth: bool) -> Result<Expr, AllocError> {
    if truth {
        Ok(Expr::Truth(true))
    } else {
        faulty(alloc, 2)
    }
}

#[test]
fn only_what_is_needed_is_evaluated(rt: HostRuntime) -> Result<(), Fail> {
    let alloc = rt.alloc();
    let divide = Plain::Divide(column(2));
    for (test, and, or) in [(false, Plain::Fails, divide), (true, divide, Plain::Holds)] {
        let body = both(alloc, Expr::Truth(test), faulty(alloc, 2)?)?;
        assert_eq!(rt; of_check(alloc, body)?, Some(and));
        let body = either(alloc, Expr::Truth(test), faulty(alloc, 2)?)?;
        assert_eq!(rt; of_check(alloc, body)?, Some(or));
        let yes = true_or_faulty(alloc, test)?;
        let no = true_or_faulty(alloc, !test)?;
        let body = cond(alloc, Expr::Truth(test), yes, no)?;
        assert_eq!(rt; of_check(alloc, body)?, Some(Plain::Holds));
    }
    Ok(())
}

#[test]
fn the_first_fault_from_the_left_is_told(rt: HostRuntime) -> Result<(), Fail> {
    let alloc = rt.alloc();
    let sum = binary(alloc, fault(alloc, 2)?, Operator::Less, fault(alloc, 3)?, 4)?;
    assert_eq!(rt; of_check(alloc, sum)?, Some(Plain::Divide(column(2))));
    let choice = cond(
        alloc,
        faulty(alloc, 2)?,
        faulty(alloc, 3)?,
        faulty(alloc, 4)?,
    )?;
    assert_eq!(rt; of_check(alloc, choice)?, Some(Plain::Divide(column(2))));
    let null = field(alloc, field(alloc, Expr::Local(0), 1, 5)?, 0, 6)?;
    assert_eq!(rt; of_check(alloc, null)?, Some(Plain::Null(column(5))));
    Ok(())
}

#[test]
fn signs_and_truths_are_turned(rt: HostRuntime) -> Result<(), Fail> {
    let alloc = rt.alloc();
    let rows = [
        (i64::MAX, -i64::MAX, Plain::Holds),
        (0, 0, Plain::Holds),
        (i64::MIN, 0, Plain::Overflow(column(5))),
    ];
    for (number, turned, plain) in rows {
        let given = minus(alloc, Expr::Number(number), 5)?;
        let body = binary(alloc, given, Operator::Equal, Expr::Number(turned), 9)?;
        assert_eq!(rt; of_check(alloc, body)?, Some(plain));
    }
    for (truth, plain) in [(true, Plain::Fails), (false, Plain::Holds)] {
        let body = not(alloc, Expr::Truth(truth))?;
        assert_eq!(rt; of_check(alloc, body)?, Some(plain));
    }
    Ok(())
}
