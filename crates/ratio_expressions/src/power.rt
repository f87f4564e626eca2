//! The power of two numbers, if it is not too large to be worth it.
ghost use Rattle.std.specs.Prelude.{◌≡◌, ◌+◌, ◌↔◌, ◌<◌, ◌≤◌, ◌^◌, pos, IfOk, IsTrue, MatchResult};
ghost use Rattle.ratio_core.specs.Signs.{with_sign};
ghost use Rattle.ratio_natural.specs.Number.{natural_of};
ghost use Rattle.ratio_big.specs.Fractions.{big_numbers};
ghost use Rattle.ratio_expressions.specs.Operators.{GivesNumbers, HaveSamePowers, IsModestPower, RefusesNumbers};
ghost use Rattle.ratio_expressions.specs.Worths.{worth};
ghost use Rattle.ratio_expressions.specs.declared.token.Operator.TheVariants as operators;

use crate::refusal::Reason;
use crate::size::{MOST_BITS, take_one};
use crate::value::Value;
use ratio_big::BigFraction;
use ratio_natural::{bits, compare, is_zero, remainder, used};
use std::alloc::{AllocError, Global};
use std::cmp::Ordering;

/// The power, or why there is none.
pub(crate) fn power(
    alloc: Global,
    x: &BigFraction,
    y: &BigFraction,
) -> Result<Result<Value, Reason>, AllocError>
    ensures { let a = big_numbers x.now in let b = big_numbers y.now in IfOk result (λ r. MatchResult r (λ w. GivesNumbers operators.Power a b (worth w)) (RefusesNumbers operators.Power a b)) }
{
    if !is_whole(alloc, y)? {
        return Ok(Err(Reason::ExponentNotWhole));
    }
    let exponent = short_exponent(alloc, y)?;
    whole_power(alloc, x, exponent)
}

// The exponent, or one of 64 bits with the same powers. A longer exponent has powers of 0, 1 and -1 alone, which depend on its sign and on
// whether it is even.
fn short_exponent(alloc: Global, y: &BigFraction) -> Result<i64, AllocError>
    requires { (big_numbers y.now).1 ≡ pos 1 }
    ensures { IfOk result (λ exponent. HaveSamePowers (big_numbers y.now).0 exponent) }
{
    if let Some(exponent) = y.to_reduced() {
        return Ok(*exponent.numer());
    }
    let digits = y.numer_digits(alloc)?;
    Ok(large_exponent(y.is_negative(), remainder(&digits, 2)))
}

// An exponent above a million, with this sign: even for 0, and odd for 1.
fn large_exponent(negative: bool, last_bit: u64) -> i64
    requires { last_bit < 2 }
    ensures { result ≡ with_sign negative (1000002 + last_bit) }
{
    let size = (MOST_BITS + 2 + last_bit) as i64;
    if negative { -size } else { size }
}

// The power with a whole exponent, or why there is none.
fn whole_power(
    alloc: Global,
    x: &BigFraction,
    exponent: i64,
) -> Result<Result<Value, Reason>, AllocError>
    ensures { let a = big_numbers x.now in IfOk result (λ r. MatchResult r (λ w. GivesNumbers operators.Power a (exponent, pos 1) (worth w)) (RefusesNumbers operators.Power a (exponent, pos 1))) }
{
    if !is_modest(alloc, x, exponent)? {
        return Ok(Err(Reason::PowerTooLarge));
    }
    match x.pow(alloc, exponent)? {
        Some(power) => Ok(Ok(Value::Number(power))),
        None => Ok(Err(Reason::ZeroDivisor)),
    }
}

// Whether the denominator is 1.
fn is_whole(alloc: Global, x: &BigFraction) -> Result<bool, AllocError>
    ensures { IfOk result (λ whole. IsTrue whole ↔ ((big_numbers x.now).1 ≡ pos 1)) }
{
    let denom = x.denom_digits(alloc)?;
    Ok(is_one(&denom))
}

// Whether the number is 1.
fn is_one(digits: &[u64]) -> bool
    ensures { IsTrue result ↔ (natural_of digits.now ≡ 1) }
{
    compare(digits, &[1]) == Ordering::Equal
}

// Whether the power is not too large.
fn is_modest(alloc: Global, x: &BigFraction, exponent: i64) -> Result<bool, AllocError>
    ensures { IfOk result (λ modest. IsTrue modest ↔ IsModestPower (big_numbers x.now) exponent) }
{
    let size = exponent.unsigned_abs();
    if size == 0 {
        return Ok(true);
    }
    let most = MOST_BITS / size;
    let mut numer = x.numer_digits(alloc)?;
    let mut denom = x.denom_digits(alloc)?;
    Ok(is_at_most(numer.as_mut_slice(), most) && is_at_most(denom.as_mut_slice(), most))
}

// Whether the number is at most 2 to the `most`: one less has at most so many bits. The digits are then those of one less.
fn is_at_most(digits: &mut [u64], most: u64) -> bool
    requires { most ≤ 1000000 }
    ensures { IsTrue result ↔ (natural_of digits.old ≤ 2 ^ most) }
{
    if is_zero(digits) {
        return true;
    }
    take_one(digits);
    has_bits(digits, most)
}

// Whether the number has at most so many bits.
fn has_bits(digits: &[u64], most: u64) -> bool
    requires { most ≤ 1000000 }
    ensures { IsTrue result ↔ (natural_of digits.now < 2 ^ most) }
{
    let count = used(digits);
    count as u64 <= MOST_BITS / 64 && bits(&digits[..count]) as u64 <= most
}
