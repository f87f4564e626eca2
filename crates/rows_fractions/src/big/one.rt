//! Calls on one fraction.
use crate::big::lists;
use crate::big::written::{shown, shown_if_any};
use ratio_big::BigFraction;
use rows::answer::Answer;
use std::alloc::{AllocError, Global};

/// The answer of the call.
pub fn answer(alloc: Global, call: &str, x: &BigFraction) -> Result<Answer<i64>, AllocError> {
    match call {
        "floor" => shown(alloc, &x.floor(alloc)?),
        "ceil" => shown(alloc, &x.ceil(alloc)?),
        "round" => shown(alloc, &x.round(alloc)?),
        "trunc" => shown(alloc, &x.trunc(alloc)?),
        "fract" => shown(alloc, &x.fract(alloc)?),
        "numer" => shown(alloc, &x.numer(alloc)?),
        "denom" => shown(alloc, &x.denom(alloc)?),
        "reciprocal" => shown_if_any(alloc, x.reciprocal(alloc)?),
        _ => of_signs(alloc, call, x),
    }
}

fn of_signs(alloc: Global, call: &str, x: &BigFraction) -> Result<Answer<i64>, AllocError> {
    match call {
        "negate" => shown(alloc, &x.negate(alloc)?),
        "abs" => shown(alloc, &x.abs(alloc)?),
        "copy" => shown(alloc, &x.copy(alloc)?),
        "signum" => shown(alloc, &x.signum()),
        "is_zero" => Ok(Answer::Truth(x.is_zero())),
        "is_negative" => Ok(Answer::Truth(x.is_negative())),
        "is_positive" => Ok(Answer::Truth(x.is_positive())),
        _ => of_forms(alloc, call, x),
    }
}

fn of_forms(alloc: Global, call: &str, x: &BigFraction) -> Result<Answer<i64>, AllocError> {
    match call {
        "to_text" => {
            let text = x.to_text(alloc)?;
            Ok(Answer::Text(format!(in alloc; "\"{text}\"")?))
        }
        "to_f64" => bits(alloc, x),
        "to_f32" => bits_of_32(alloc, x),
        "continued_fraction" => lists::fractions(alloc, &x.continued_fraction(alloc)?),
        _ => Ok(Answer::BadRow),
    }
}

// The bits of the nearest float, which is always a number.
fn bits(alloc: Global, x: &BigFraction) -> Result<Answer<i64>, AllocError> {
    let near = x.to_f64(alloc)?;
    if near.is_nan() {
        return Ok(Answer::Nothing);
    }
    let bits = near.to_bits();
    Ok(Answer::Text(format!(in alloc; "{bits:#x}")?))
}

fn bits_of_32(alloc: Global, x: &BigFraction) -> Result<Answer<i64>, AllocError> {
    let near = x.to_f32(alloc)?;
    if near.is_nan() {
        return Ok(Answer::Nothing);
    }
    let bits = near.to_bits();
    Ok(Answer::Text(format!(in alloc; "{bits:#x}")?))
}
