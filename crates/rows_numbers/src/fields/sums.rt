//! Sums, differences, products, quotients, remainders and powers of the fields of fractions, and the parts of these calls. A row of a
//! checked call that returns a fraction asks also the calls that require that it does.
ghost use Rattle.std.specs.Prelude.{◌<ℤ◌, pos, IsTrue};
ghost use Rattle.ratio_core.specs.Parts.{IsPart};

use crate::fields::{agreed, positive, two_positive};
use ratio_core::pow::{checked_pow, checked_pow_with, checked_recip, pow, pow_with, recip};
use ratio_core::products::{checked_div, checked_mul, div, mul};
use ratio_core::remainder::{checked_rem, rem};
use ratio_core::sums::{
    add, carried_on, checked_add, checked_sub, multiple_over, numerator_of, sub, sum_over,
};
use ratio_integer::Integer;
use rows::answer::{Answer, of_fields, of_number};
use rows::notation::{fraction, number};

/// Makes the call and returns its answer.
pub fn answer<T: Integer>(call: &str, words: &str) -> Option<Answer<T>> {
    match call {
        "checked_add" | "checked_sub" => sum(call, words),
        "checked_mul" | "checked_div" | "checked_rem" => product(call, words),
        "checked_recip" => reciprocal(words),
        "checked_pow" => power(words),
        _ => of_part(call, words),
    }
}

#[tactic(auto, using(ratio_core::proofs::SumLemmas::fits_by))]
fn sum<T: Integer>(call: &str, words: &str) -> Option<Answer<T>> {
    let (a, b, c, d) = two_positive::<T>(words)?;
    Some(match call {
        "checked_add" => match checked_add(a, b, c, d) {
            Some(sum) => agreed(sum, add(a, b, c, d)),
            None => Answer::Nothing,
        },
        _ => match checked_sub(a, b, c, d) {
            Some(difference) => agreed(difference, sub(a, b, c, d)),
            None => Answer::Nothing,
        },
    })
}

fn product<T: Integer>(call: &str, words: &str) -> Option<Answer<T>> {
    let (a, b, c, d) = two_positive::<T>(words)?;
    Some(match call {
        "checked_mul" => match checked_mul(a, b, c, d) {
            Some(product) => agreed(product, mul(a, b, c, d)),
            None => Answer::Nothing,
        },
        "checked_div" => match checked_div(a, b, c, d) {
            Some(quotient) => agreed(quotient, div(a, b, c, d)),
            None => Answer::Nothing,
        },
        _ => match checked_rem(a, b, c, d) {
            Some(rest) => agreed(rest, rem(a, b, c, d)),
            None => Answer::Nothing,
        },
    })
}

fn reciprocal<T: Integer>(words: &str) -> Option<Answer<T>> {
    let (n, d) = positive::<T>(words)?;
    Some(match checked_recip(n, d) {
        Some(fields) => agreed(fields, recip(n, d)),
        None => Answer::Nothing,
    })
}

// The power by all four calls.
fn power<T: Integer>(words: &str) -> Option<Answer<T>> {
    let (base, exponent) = words.split_once(' ')?;
    let (n, d) = positive::<T>(base)?;
    let e = exponent.parse::<i32>().ok()?;
    let with = checked_pow_with(n, d, e);
    let Some(power) = checked_pow(n, d, e) else {
        return Some(if with.is_none() {
            Answer::Nothing
        } else {
            Answer::FormsDiffer
        });
    };
    Some(if with == Some(power) && pow(n, d, e) == power {
        agreed(power, pow_with(n, d, e))
    } else {
        Answer::FormsDiffer
    })
}

// The parts of these calls. Their words are a number and a fraction, or a fraction and a number.
fn of_part<T: Integer>(call: &str, words: &str) -> Option<Answer<T>> {
    let (first, second) = words.split_once(' ')?;
    if call == "multiple_over" {
        return multiple(fraction(first)?, number(second)?);
    }
    let x = number(first)?;
    match call {
        "numerator_of" => numerator(x, fraction(second)?),
        "sum_over" => sum_of_parts(x, fraction(second)?),
        "carried_on" if second == "true" => next(x),
        _ => None,
    }
}

// The quotient with a carry.
fn next<T: Integer>(quotient: T) -> Option<Answer<T>> {
    let next = quotient.try_plus(T::ONE)?;
    let carried = carried_on(quotient, true);
    Some(if carried == next {
        Answer::Number(carried)
    } else {
        Answer::FormsDiffer
    })
}

fn numerator<T: Integer>(whole: T, (part, denom): (T, T)) -> Option<Answer<T>> {
    if part < T::ZERO || denom < part {
        return None;
    }
    Some(of_number(numerator_of(whole, part, denom)))
}

fn is_part<T: Integer>(part: T, d: T) -> bool
    ensures { IsTrue result → IsPart (T.value part) (T.value d) }
{
    !(part < T::ZERO) && part < d
}

// The sum of two parts of 1 with one denominator, as whether it is at least 1, and the numerator of the rest.
fn sum_of_parts<T: Integer>(x: T, (y, d): (T, T)) -> Option<Answer<T>> {
    if !is_part(x, d) || y < T::ZERO || d < y {
        return None;
    }
    let (carry, rest) = sum_over(x, y, d);
    Some(Answer::Pair(if carry { T::ONE } else { T::ZERO }, rest))
}

fn multiple<T: Integer>((part, d): (T, T), factor: T) -> Option<Answer<T>> {
    if !is_part(part, d) || !(T::ZERO < factor) {
        return None;
    }
    let (quotient, rest) = multiple_over(part, factor, d);
    Some(Answer::Pair(quotient, rest))
}
