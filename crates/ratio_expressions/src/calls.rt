//! What a call such as `max(1, 2)` gives of its arguments, or why it refuses them.
ghost use Rattle.std.specs.Prelude.{◌≡◌, ◌≢◌, ◌≤◌, ◌∷◌, [], length, map, pos, IfOk, MatchOption, MatchResult};
ghost use Rattle.std.specs.declared.cmp.Ordering.TheVariants.{Equal};
ghost use Rattle.ratio_decimal.specs.declared.rounding_rule.Rounding.TheVariants.{HalfAway};
ghost use Rattle.ratio_big.specs.Fractions.{big_numbers};
ghost use Rattle.ratio_big.specs.Multiples.{IsMultipleBy};
ghost use Rattle.ratio_expressions.specs.Calls.{AnswersArguments, GivesCall, HaveTruth, RefusesCall};
ghost use Rattle.ratio_expressions.specs.Functions.{AnswersNumbers, IsExtreme, IsGcdOfAll, IsLcmOfAll, TakesCount};
ghost use Rattle.ratio_expressions.specs.Worths.{worth, Amount};
ghost use Rattle.ratio_expressions.specs.declared.function.Function.TheVariants.{Between, Nearest};

use crate::function::{Function, function_named, takes};
use crate::limit::fit_together;
use crate::refusal::Reason;
use crate::value::Value;
use ratio_big::BigFraction;
use ratio_decimal::rounding_rule::Rounding;
use std::alloc::{AllocError, Global};
use std::cmp::Ordering;

/// What the function with this name gives of its arguments, or why it refuses them.
pub(crate) fn called(
    alloc: Global,
    name: &[u8],
    arguments: &[Value],
) -> Result<Result<Value, Reason>, AllocError>
    ensures { let ws = map worth arguments.now in IfOk result (λ r. MatchResult r (λ w. GivesCall name.now ws (worth w)) (RefusesCall name.now ws)) }
{
    let Some(function) = function_named(name) else {
        return Ok(Err(Reason::UnknownCall));
    };
    if !takes(function, arguments.len()) {
        return Ok(Err(Reason::ArgumentCount));
    }
    let Some(numbers) = numbers_in(alloc, arguments)? else {
        return Ok(Err(Reason::NotNumber));
    };
    match of_arguments(alloc, function, &numbers)? {
        Ok(result) => Ok(Ok(Value::Number(result))),
        Err(reason) => Ok(Err(reason)),
    }
}

// The numbers that the values are, or `None` if one is true or false.
fn numbers_in(alloc: Global, values: &[Value]) -> Result<Option<Vec<BigFraction>>, AllocError>
    ensures { let ws = map worth values.now in IfOk result (λ r. MatchOption r (HaveTruth ws) (λ xs. ws ≡ map Amount (map big_numbers xs.items))) }
{
    let mut numbers = Vec::new(alloc);
    for value in values {
        match value {
            Value::Number(x) => numbers.push(x.copy(alloc)?)?,
            Value::Truth(_) => return Ok(None),
        }
    }
    Ok(Some(numbers))
}

// What the function gives of its arguments, of which it takes so many, or why it refuses them: they may be too large together.
fn of_arguments(
    alloc: Global,
    function: Function,
    numbers: &[BigFraction],
) -> Result<Result<BigFraction, Reason>, AllocError>
    requires { TakesCount function (length numbers.now) }
    ensures { IfOk result (AnswersArguments function (map big_numbers numbers.now)) }
{
    if !fit_together(alloc, numbers)? {
        return Ok(Err(Reason::TooLarge));
    }
    of_numbers(alloc, function, numbers)
}

// What the function gives of numbers, of which it takes so many, or why it refuses them.
fn of_numbers(
    alloc: Global,
    function: Function,
    numbers: &[BigFraction],
) -> Result<Result<BigFraction, Reason>, AllocError>
    requires { TakesCount function (length numbers.now) }
    ensures { IfOk result (AnswersNumbers function (map big_numbers numbers.now)) }
{
    match function {
        Function::Abs => Ok(Ok(numbers[0].abs(alloc)?)),
        Function::Floor => Ok(Ok(numbers[0].floor(alloc)?)),
        Function::Ceil => Ok(Ok(numbers[0].ceil(alloc)?)),
        Function::Round => Ok(Ok(numbers[0].round(alloc)?)),
        Function::Trunc => Ok(Ok(numbers[0].trunc(alloc)?)),
        Function::Cents => Ok(Ok(cents(alloc, &numbers[0])?)),
        Function::Gcd => Ok(Ok(common_divisor(alloc, numbers)?)),
        Function::Lcm => Ok(Ok(common_multiple(alloc, numbers)?)),
        Function::Min => Ok(Ok(extreme(alloc, numbers, Ordering::Less)?)),
        Function::Max => Ok(Ok(extreme(alloc, numbers, Ordering::Greater)?)),
        Function::Nearest => nearest(alloc, &numbers[0], &numbers[1]),
        Function::Between => between(alloc, &numbers[0], &numbers[1]),
    }
}

// The nearest fraction with a denominator from 1 to `most`.
fn nearest(
    alloc: Global,
    x: &BigFraction,
    most: &BigFraction,
) -> Result<Result<BigFraction, Reason>, AllocError>
    ensures { IfOk result (AnswersNumbers Nearest (big_numbers x.now ∷ big_numbers most.now ∷ [])) }
{
    match x.nearest(alloc, most)? {
        Some(nearest) => Ok(Ok(nearest)),
        None => Ok(Err(Reason::BoundBelowOne)),
    }
}

// The simplest fraction strictly between two numbers, in either order.
fn between(
    alloc: Global,
    x: &BigFraction,
    y: &BigFraction,
) -> Result<Result<BigFraction, Reason>, AllocError>
    ensures { IfOk result (AnswersNumbers Between (big_numbers x.now ∷ big_numbers y.now ∷ [])) }
{
    if let Some(simplest) = BigFraction::simplest_between(alloc, x, y)? {
        return Ok(Ok(simplest));
    }
    match BigFraction::simplest_between(alloc, y, x)? {
        Some(simplest) => Ok(Ok(simplest)),
        None => Ok(Err(Reason::NothingBetween)),
    }
}

// The nearest multiple of 1/100, a half rounded away from 0.
fn cents(alloc: Global, x: &BigFraction) -> Result<BigFraction, AllocError>
    ensures { IfOk result (λ r. IsMultipleBy HalfAway (big_numbers x.now) (pos 1, pos 100) (big_numbers r)) }
{
    x.round_to(alloc, 100, Rounding::HalfAway)
}

// The greatest common divisor of the numbers.
fn common_divisor(alloc: Global, numbers: &[BigFraction]) -> Result<BigFraction, AllocError>
    requires { 1 ≤ length numbers.now }
    ensures { IfOk result (λ r. IsGcdOfAll (map big_numbers numbers.now) (big_numbers r)) }
{
    let mut divisor = numbers[0].gcd(alloc, &numbers[0])?;
    for next in 1..numbers.len() {
        divisor = divisor.gcd(alloc, &numbers[next])?;
    }
    Ok(divisor)
}

// The least common multiple of the numbers.
fn common_multiple(alloc: Global, numbers: &[BigFraction]) -> Result<BigFraction, AllocError>
    requires { 1 ≤ length numbers.now }
    ensures { IfOk result (λ r. IsLcmOfAll (map big_numbers numbers.now) (big_numbers r)) }
{
    let mut multiple = numbers[0].lcm(alloc, &numbers[0])?;
    for next in 1..numbers.len() {
        multiple = multiple.lcm(alloc, &numbers[next])?;
    }
    Ok(multiple)
}

// The least of the numbers for `Less`, and the greatest for `Greater`.
fn extreme(
    alloc: Global,
    numbers: &[BigFraction],
    side: Ordering,
) -> Result<BigFraction, AllocError>
    requires some { 1 ≤ length numbers.now }
    requires side { side ≢ Equal }
    ensures { IfOk result (λ r. IsExtreme side (map big_numbers numbers.now) (big_numbers r)) }
{
    let mut at = 0;
    for next in 1..numbers.len() {
        if numbers[next].compare(alloc, &numbers[at])? == side {
            at = next;
        }
    }
    numbers[at].copy(alloc)
}
