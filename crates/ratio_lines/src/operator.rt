//! The enum `Operator`: the operators of the calculator, by their names, and what each gives between two fractions.
ghost use Rattle.std.specs.Prelude.{◌≡◌, ◌<ℤ◌, ◌∷◌, [], pos};
ghost use Rattle.num_rational.specs.Ratio.{numerator, denominator};
ghost use Rattle.ratio_lines.specs.Answers.{IsOutcome, order_text, outcome_of_result};
ghost use Rattle.ratio_lines.specs.AnswerText.{outcome_of};
ghost use Rattle.ratio_lines.specs.Operands.{number_of, operator_of};

use crate::answer::AnswerText;
use either::Either;
use num_rational::Rational64;
use std::cmp::Ordering;

/// An operator between two operands.
#[derive(Clone, Copy, PartialEq, Debug)]
pub enum Operator {
    Add,
    Sub,
    Mul,
    Div,
    Rem,
    Cmp,
}

impl Operator {
    ghost use Rattle.ratio_lines.specs.Answers.{is_cmp};

    /// Whether it is `cmp`, which gives no number for a next operator.
    pub fn is_cmp(self) -> bool
        ensures { result ≡ is_cmp self }
    {
        matches!(self, Operator::Cmp)
    }
}

/// The operator that a part of a line names.
pub fn operator_named(part: &str) -> Option<Operator>
    ensures { result ≡ operator_of part.now }
{
    match part.as_bytes() {
        [byte] => operator_of_byte(*byte),
        [b'c', b'm', b'p'] => Some(Operator::Cmp),
        _ => None,
    }
}

// The operator that one byte names.
#[inline(always)]
fn operator_of_byte(byte: u8) -> Option<Operator>
    ensures { result ≡ operator_of (byte ∷ []) }
{
    match byte {
        b'+' => Some(Operator::Add),
        b'-' => Some(Operator::Sub),
        b'*' => Some(Operator::Mul),
        b'/' => Some(Operator::Div),
        b'%' => Some(Operator::Rem),
        _ => None,
    }
}

const DIVISION_BY_ZERO: &str = "error: division by zero";

/// A result is the number for the next operator. Without one, the answer is `error: out of range`.
fn result_outcome(checked: Option<Rational64>) -> AnswerText
    ensures { outcome_of result ≡ outcome_of_result (number_of checked) }
{
    match checked {
        Some(number) => Either::Right(number),
        None => Either::Left("error: out of range"),
    }
}

/// The text of an order.
fn order_sign(order: Ordering) -> &'static str
    ensures { result.now ≡ order_text order }
{
    match order {
        Ordering::Less => "<",
        Ordering::Equal => "=",
        Ordering::Greater => ">",
    }
}

/// The outcome of an operator between two fractions: a number, or the text that is the answer.
pub(crate) fn apply_operator(operator: Operator, left: Rational64, right: Rational64) -> AnswerText
    requires left_positive { pos 0 <ℤ denominator left }
    requires right_positive { pos 0 <ℤ denominator right }
    ensures { IsOutcome operator (numerator left, denominator left) (numerator right, denominator right) (outcome_of result) }
{
    match operator {
        Operator::Add => result_outcome(left.checked_add(&right)),
        Operator::Sub => result_outcome(left.checked_sub(&right)),
        Operator::Mul => result_outcome(left.checked_mul(&right)),
        Operator::Div if right.is_zero() => Either::Left(DIVISION_BY_ZERO),
        Operator::Div => result_outcome(left.checked_div(&right)),
        Operator::Rem if right.is_zero() => Either::Left(DIVISION_BY_ZERO),
        Operator::Rem => result_outcome(left.checked_rem(&right)),
        Operator::Cmp => Either::Left(order_sign(left.cmp(&right))),
    }
}
