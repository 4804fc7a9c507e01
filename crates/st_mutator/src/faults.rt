//! What operators make of words, and faults as ends.
ghost use Rattle.std.specs.Prelude.{◌≡◌, ℤ, SomeIff, FitsSigned, neg_ℤ};
ghost use Rattle.std.specs.Int.{w64};
ghost use Rattle.st_check_meaning.specs.Numbers.{number_of, number_or_overflow};
ghost use Rattle.st_check_meaning.specs.Meaning.{operate, quotient, remainder};
ghost use Rattle.st_thread_meaning.specs.Statements.{end_of as end_of_fault};
ghost use Rattle.st_mutator.specs.Outcomes.{outcome_of};

use st_events::{End, Plain, Site};
use st_resolved::Operator;

/// The end of a thread in whose evaluation this fault comes.
pub(crate) fn end_of(fault: Plain) -> End
    ensures { result ≡ end_of_fault fault }
{
    match fault {
        Plain::Null(at) => End::Null(at),
        Plain::Divide(at) => End::Divide(at),
        Plain::Overflow(at) => End::Overflow(at),
        Plain::Holds | Plain::Fails | Plain::Spent | Plain::Deep => End::Finished,
    }
}
/// What an operator gives for the words of its operands, or its fault, told at its mark.
pub(crate) fn operate(operator: Operator, left: u64, right: u64, at: Site) -> Result<u64, Plain>
    ensures { operate operator left right at ≡ outcome_of result }
{
    let (first, second) = (left.cast_signed(), right.cast_signed());
    match operator {
        Operator::Add => in_range(first.checked_add(second), at),
        Operator::Sub => in_range(first.checked_sub(second), at),
        Operator::Mul => in_range(first.checked_mul(second), at),
        Operator::Div => quotient(left, right, at),
        Operator::Rem => remainder(left, right, at),
        Operator::Less => Ok(u64::from(first < second)),
        Operator::LessEq => Ok(u64::from(first <= second)),
        Operator::Greater => Ok(u64::from(first > second)),
        Operator::GreaterEq => Ok(u64::from(first >= second)),
        Operator::Equal => Ok(u64::from(left == right)),
        Operator::NotEqual => Ok(u64::from(left != right)),
    }
}

/// The number with the other sign.
pub(crate) fn negate(word: u64, at: Site) -> Result<u64, Plain>
    ensures { number_or_overflow (neg_ℤ (number_of word)) at ≡ outcome_of result }
{
    in_range(word.cast_signed().checked_neg(), at)
}

/// The word of a number that fits into 64 bits; an overflow where there is none.
fn in_range(number: Option<i64>, at: Site) -> Result<u64, Plain>
    ensures { (z : ℤ) → SomeIff number (FitsSigned w64 z) z → number_or_overflow z at ≡ outcome_of result }
{
    match number {
        Some(number) => Ok(number.cast_unsigned()),
        None => Err(Plain::Overflow(at)),
    }
}

/// The quotient, towards zero.
fn quotient(left: u64, right: u64, at: Site) -> Result<u64, Plain>
    ensures { quotient left right at ≡ outcome_of result }
{
    if right == 0 {
        return Err(Plain::Divide(at));
    }
    in_range(left.cast_signed().checked_div(right.cast_signed()), at)
}

/// The remainder, with the sign of the dividend; it faults where the quotient does.
fn remainder(left: u64, right: u64, at: Site) -> Result<u64, Plain>
    ensures { remainder left right at ≡ outcome_of result }
{
    if right == 0 {
        return Err(Plain::Divide(at));
    }
    match left.cast_signed().checked_rem(right.cast_signed()) {
        Some(rest) => Ok(rest.cast_unsigned()),
        None => Err(Plain::Overflow(at)),
    }
}
