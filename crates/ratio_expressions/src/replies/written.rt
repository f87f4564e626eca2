//! The text of a value in a form.
ghost use Rattle.std.specs.Prelude.{◌≡◌, IfOk};
ghost use Rattle.ratio_decimal.specs.declared.rounding_rule.Rounding.TheVariants.{HalfAway};
ghost use Rattle.ratio_decimal.specs.Decimal.{IsDecimalOf};
ghost use Rattle.ratio_big.specs.Fractions.{big_numbers};
ghost use Rattle.ratio_big.specs.Texts.{fraction_text};
ghost use Rattle.ratio_expressions.specs.Worths.{worth};
ghost use Rattle.ratio_expressions.specs.Forms.{IsValueInForm};

use crate::replies::both::both_text;
use crate::replies::fields::fields_text;
use crate::replies::float::float_text;
use crate::replies::form::Form;
use crate::replies::mixed::mixed_text;
use crate::value::Value;
use ratio_big::BigFraction;
use ratio_decimal::rounding_rule::Rounding;
use std::alloc::{AllocError, Global};

/// The text of a value in a form: `1 5/12` for 17/12 in `Mixed`. An error means that an allocation failed.
pub fn value_text(alloc: Global, value: &Value, form: Form) -> Result<Vec<u8>, AllocError>
    ensures { IfOk result (λ text. IsValueInForm (worth value.now) form text.items) }
{
    let x = match value {
        Value::Number(x) => x,
        Value::Truth(true) => return Vec::from_slice(alloc, b"true"),
        Value::Truth(false) => return Vec::from_slice(alloc, b"false"),
    };
    match form {
        Form::Fraction => fraction_text(alloc, x),
        Form::Decimal(places) => decimal_text(alloc, x, places),
        Form::Mixed => mixed_text(alloc, x),
        Form::Fields(places) => fields_text(alloc, x, places),
        Form::Both => both_text(alloc, x),
        Form::Float => float_text(alloc, x),
    }
}

/// The text of a fraction: `17/12`, and `5` for 5/1.
pub(crate) fn fraction_text(alloc: Global, x: &BigFraction) -> Result<Vec<u8>, AllocError>
    ensures { IfOk result (λ text. text.items ≡ fraction_text (big_numbers x.now)) }
{
    Ok(x.to_text(alloc)?.into_bytes())
}

/// The decimal with so many places, rounded half away from zero.
pub(crate) fn decimal_text(
    alloc: Global,
    x: &BigFraction,
    places: u32,
) -> Result<Vec<u8>, AllocError>
    ensures { let a = big_numbers x.now in IfOk result (λ text. IsDecimalOf HalfAway places a.0 a.1 text.items) }
{
    Ok(x.decimal(alloc, places, Rounding::HalfAway)?.into_bytes())
}
