//! Calls on two fractions, and powers.
use crate::big::written::{agreed, shown, shown_if_any};
use ratio_big::BigFraction;
use rows::answer::{Answer, of_order};
use std::alloc::{AllocError, Global};

/// The answer of the call.
pub fn answer(
    alloc: Global,
    call: &str,
    x: &BigFraction,
    y: &BigFraction,
) -> Result<Answer<i64>, AllocError> {
    match call {
        "add" => shown(alloc, &x.add(alloc, y)?),
        "subtract" => shown(alloc, &x.subtract(alloc, y)?),
        "multiply" => shown(alloc, &x.multiply(alloc, y)?),
        "divide" => shown_if_any(alloc, x.divide(alloc, y)?),
        "remainder" => shown_if_any(alloc, x.remainder(alloc, y)?),
        "compare" => Ok(of_order(Some(x.compare(alloc, y)?))),
        _ => of_near(alloc, call, x, y),
    }
}

fn of_near(
    alloc: Global,
    call: &str,
    x: &BigFraction,
    y: &BigFraction,
) -> Result<Answer<i64>, AllocError> {
    match call {
        "gcd" => shown(alloc, &x.gcd(alloc, y)?),
        "lcm" => shown(alloc, &x.lcm(alloc, y)?),
        "nearest" => shown_if_any(alloc, x.nearest(alloc, y)?),
        "simplest_between" => simplest(alloc, x, y),
        _ => Ok(Answer::BadRow),
    }
}

// The simplest fraction between two. There is none the other way round, and the negatives of the two have its negative.
fn simplest(
    alloc: Global,
    low: &BigFraction,
    high: &BigFraction,
) -> Result<Answer<i64>, AllocError> {
    let Some(found) = BigFraction::simplest_between(alloc, low, high)? else {
        return Ok(Answer::Nothing);
    };
    let none = BigFraction::simplest_between(alloc, high, low)?;
    let (low, high) = (low.negate(alloc)?, high.negate(alloc)?);
    let none_below = BigFraction::simplest_between(alloc, &low, &high)?;
    let below = BigFraction::simplest_between(alloc, &high, &low)?;
    if none.is_none() && none_below.is_none() && below == Some(found.negate(alloc)?) {
        shown(alloc, &found)
    } else {
        agreed(alloc, false, String::new(alloc))
    }
}

/// The power with the exponent of the word.
pub fn power(alloc: Global, x: &BigFraction, word: &str) -> Result<Answer<i64>, AllocError> {
    match word.parse::<i64>() {
        Ok(exponent) => shown_if_any(alloc, x.pow(alloc, exponent)?),
        Err(_) => Ok(Answer::BadRow),
    }
}

/// The power with the exponent of the words, if its numbers have at most so many bits: `3 5`.
pub fn power_within(
    alloc: Global,
    x: &BigFraction,
    words: &str,
) -> Result<Answer<i64>, AllocError> {
    let Some((exponent, bits)) = words.split_once(' ') else {
        return Ok(Answer::BadRow);
    };
    match (exponent.parse::<i64>(), bits.parse::<u64>()) {
        (Ok(exponent), Ok(bits)) => shown_if_any(alloc, x.pow_within(alloc, exponent, bits)?),
        _ => Ok(Answer::BadRow),
    }
}
