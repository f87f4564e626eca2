//! What an operator gives of two values, or why it refuses them.
ghost use Rattle.std.specs.Prelude.{◌≡◌, ◌↔◌, IfOk, IsTrue, MatchResult};
ghost use Rattle.ratio_big.specs.Fractions.{big_numbers};
ghost use Rattle.ratio_expressions.specs.Operators.{GivesNumbers, GivesWorth, IsSignedWorth, IsTrueOrFalse, RefusesNumbers, RefusesWorths, TakesNumbers};
ghost use Rattle.ratio_expressions.specs.Worths.{worth};
ghost use Rattle.ratio_expressions.specs.declared.refusal.Reason.TheVariants.{NotNumber};

use crate::limit::pair_fits;
use crate::power::power;
use crate::refusal::Reason;
use crate::token::{Operator, Sign};
use crate::value::Value;
use ratio_big::BigFraction;
use std::alloc::{AllocError, Global};

/// The value with a sign before it, or why it has none.
pub(crate) fn signed(
    alloc: Global,
    sign: Sign,
    value: Value,
) -> Result<Result<Value, Reason>, AllocError>
    ensures { let v = worth value in IfOk result (λ r. MatchResult r (λ w. IsSignedWorth sign v (worth w)) (λ reason. IsTrueOrFalse v × (reason ≡ NotNumber))) }
{
    match value {
        Value::Number(x) => match sign {
            Sign::Plus => Ok(Ok(Value::Number(x))),
            Sign::Minus => Ok(Ok(Value::Number(x.negate(alloc)?))),
        },
        Value::Truth(_) => Ok(Err(Reason::NotNumber)),
    }
}

/// What the operator gives of two values, or why it refuses them.
pub(crate) fn applied(
    alloc: Global,
    operator: Operator,
    left: &Value,
    right: &Value,
) -> Result<Result<Value, Reason>, AllocError>
    ensures { let u = worth left.now in let v = worth right.now in IfOk result (λ r. MatchResult r (λ w. GivesWorth operator u v (worth w)) (RefusesWorths operator u v)) }
{
    let Value::Number(x) = left else {
        return Ok(Err(Reason::NotNumber));
    };
    let Value::Number(y) = right else {
        return Ok(Err(Reason::NotNumber));
    };
    if !takes_numbers(alloc, operator, x, y)? {
        return Ok(Err(Reason::TooLarge));
    }
    of_numbers(alloc, operator, x, y)
}

// Whether the two numbers are not too large for the operator. A comparison makes no number, and a power has a rule of its own.
fn takes_numbers(
    alloc: Global,
    operator: Operator,
    x: &BigFraction,
    y: &BigFraction,
) -> Result<bool, AllocError>
    ensures { IfOk result (λ takes. IsTrue takes ↔ TakesNumbers operator (big_numbers x.now) (big_numbers y.now)) }
{
    match operator {
        Operator::Add
        | Operator::Subtract
        | Operator::Multiply
        | Operator::Divide(_)
        | Operator::Remainder(_) => pair_fits(alloc, x, y),
        Operator::Less
        | Operator::AtMost
        | Operator::Equal
        | Operator::NotEqual
        | Operator::AtLeast
        | Operator::Greater
        | Operator::Power => Ok(true),
    }
}

// What the operator gives of two numbers that are not too large for it, or why it refuses them.
fn of_numbers(
    alloc: Global,
    operator: Operator,
    x: &BigFraction,
    y: &BigFraction,
) -> Result<Result<Value, Reason>, AllocError>
    ensures { let a = big_numbers x.now in let b = big_numbers y.now in IfOk result (λ r. MatchResult r (λ w. GivesNumbers operator a b (worth w)) (RefusesNumbers operator a b)) }
{
    match operator {
        Operator::Less => Ok(Ok(Value::Truth(x.compare(alloc, y)?.is_lt()))),
        Operator::AtMost => Ok(Ok(Value::Truth(x.compare(alloc, y)?.is_le()))),
        Operator::Equal => Ok(Ok(Value::Truth(x.compare(alloc, y)?.is_eq()))),
        Operator::NotEqual => Ok(Ok(Value::Truth(x.compare(alloc, y)?.is_ne()))),
        Operator::AtLeast => Ok(Ok(Value::Truth(x.compare(alloc, y)?.is_ge()))),
        Operator::Greater => Ok(Ok(Value::Truth(x.compare(alloc, y)?.is_gt()))),
        Operator::Add => Ok(Ok(Value::Number(x.add(alloc, y)?))),
        Operator::Subtract => Ok(Ok(Value::Number(x.subtract(alloc, y)?))),
        Operator::Multiply => Ok(Ok(Value::Number(x.multiply(alloc, y)?))),
        Operator::Divide(_) => match x.divide(alloc, y)? {
            Some(quotient) => Ok(Ok(Value::Number(quotient))),
            None => Ok(Err(Reason::ZeroDivisor)),
        },
        Operator::Remainder(_) => match x.remainder(alloc, y)? {
            Some(rest) => Ok(Ok(Value::Number(rest))),
            None => Ok(Err(Reason::ZeroDivisor)),
        },
        Operator::Power => power(alloc, x, y),
    }
}
