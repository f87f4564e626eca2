//! The fraction of a JSON value, from the numbers or texts of a list of two.
ghost use Rattle.std.specs.Prelude.{IfOk, OnErr};
ghost use Rattle.serde_json.specs.View.{view};
ghost use Rattle.ratio_json.specs.BigJson.{AnswersBigJson, AreJsonWholes, DividesJsonWholes, HasWhole, IsJsonFraction, IsJsonWhole, ReadsSome};

use crate::integers::{is_whole, whole};
use num_rational::JsonRatioError;
use ratio_big::BigFraction;
use serde_json::Value;
use std::alloc::{AllocError, Global};

/// The lowest terms of a list of two whole numbers: -3/2 for `[6,"-4"]`. Each is a number or a text of any length. A text is read as `from_str` of
/// `BigFraction` reads it: `"+007"` is 7. The refusals come in this order: the value is no list of two, one of the two is no whole number,
/// the denominator is 0. An outer error means that an allocation failed, so that a value that is refused takes no memory.
pub fn from_json(
    alloc: Global,
    value: &Value,
) -> Result<Result<BigFraction, JsonRatioError>, AllocError>
    ensures read { IfOk result (AnswersBigJson (view value.now)) }
    ensures memory { OnErr result (ReadsSome (IsJsonFraction (view value.now))) }
{
    let Some(items) = value.as_array() else {
        return Ok(Err(JsonRatioError::NotAPair));
    };
    if items.len() != 2 {
        return Ok(Err(JsonRatioError::NotAPair));
    }
    let numer = &items[0];
    let denom = &items[1];
    if !is_whole(numer) {
        return Ok(Err(JsonRatioError::NotAnInteger));
    }
    if !is_whole(denom) {
        return Ok(Err(JsonRatioError::NotAnInteger));
    }
    match quotient(alloc, numer, denom)? {
        Some(fraction) => Ok(Ok(fraction)),
        None => Ok(Err(JsonRatioError::ZeroDenominator)),
    }
}

// The lowest terms of two whole numbers, or `None` if the second is 0, which takes no memory.
fn quotient(alloc: Global, numer: &Value, denom: &Value) -> Result<Option<BigFraction>, AllocError>
    requires numer { HasWhole (IsJsonWhole (view numer.now)) }
    requires denom { HasWhole (IsJsonWhole (view denom.now)) }
    ensures read { IfOk result (DividesJsonWholes (view numer.now) (view denom.now)) }
    ensures memory { OnErr result (ReadsSome (AreJsonWholes (view numer.now) (view denom.now))) }
{
    let divisor = whole(alloc, denom)?;
    if divisor.is_zero() {
        return Ok(None);
    }
    let dividend = whole(alloc, numer)?;
    dividend.divide(alloc, &divisor)
}
