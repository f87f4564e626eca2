//! The float nearest to a number, as a decimal: `0.5833333333333334` for 7/12.
ghost use Rattle.std.specs.Prelude.{◌≡◌, ◌↔◌, ◌^◌, pos, IfOk, IsTrue};
ghost use Rattle.std.specs.Float.{NotNan, binary64};
ghost use Rattle.ratio_decimal.specs.Floats.{fraction_of_float, nearest_float};
ghost use Rattle.ratio_big.specs.Fractions.{big_numbers};
ghost use Rattle.ratio_big.specs.Values.{HasTerms};
ghost use Rattle.ratio_expressions.specs.Floats.{IsFewestPlaces, IsFloatText, FloatReadsBack};

use ratio_big::BigFraction;
use ratio_decimal::rounding_rule::Rounding;
use std::alloc::{AllocError, Global};

/// The places of 2^-1074, the least float above 0. No float has more.
const MOST_PLACES: u32 = 1074;

/// The text of the nearest float of 64 bits: its exact value with the fewest places that read back as this float, rounded half to even. So it
/// is `0.1` for 1/10, and `0` for 2^-1075 and for its negative. From 2^53 on it is a whole number, with each of its digits: 10^23 is
/// `99999999999999991611392`. An infinite float is `inf` or `-inf`. An error means that an allocation failed.
pub(crate) fn float_text(alloc: Global, x: &BigFraction) -> Result<Vec<u8>, AllocError>
    ensures { let a = big_numbers x.now in IfOk result (λ text. IsFloatText (nearest_float binary64 a.0 a.1) text.items) }
{
    let float = x.to_f64(alloc)?;
    match BigFraction::from_f64(alloc, float)? {
        Some(value) => finite_text(alloc, float, &value),
        None => infinite_text(alloc, float),
    }
}

// The text of a float with this exact value.
fn finite_text(alloc: Global, float: f64, value: &BigFraction) -> Result<Vec<u8>, AllocError>
    requires exact { HasTerms (fraction_of_float float) (big_numbers value.now) }
    requires last { FloatReadsBack float MOST_PLACES }
    ensures { IfOk result (λ text. IsFloatText float text.items) }
{
    let places = fewest_places(alloc, float, value)?;
    let text = value.decimal(alloc, places, Rounding::HalfEven)?;
    Ok(text.into_bytes())
}

// The text of an infinite float.
fn infinite_text(alloc: Global, float: f64) -> Result<Vec<u8>, AllocError>
    requires number { NotNan float }
    requires infinite { (fraction_of_float float).1 ≡ pos 0 }
    ensures { IfOk result (λ text. IsFloatText float text.items) }
{
    if float.is_sign_negative() {
        Vec::from_slice(alloc, b"-inf")
    } else {
        Vec::from_slice(alloc, b"inf")
    }
}

// The fewest places with which a float reads back. Each number is tried in turn: 2^-645 reads back with 209 places, and not with 210.
fn fewest_places(alloc: Global, float: f64, value: &BigFraction) -> Result<u32, AllocError>
    requires exact { HasTerms (fraction_of_float float) (big_numbers value.now) }
    requires last { FloatReadsBack float MOST_PLACES }
    ensures { IfOk result (IsFewestPlaces float) }
{
    for places in 0..MOST_PLACES {
        if reads_back(alloc, float, value, places)? {
            return Ok(places);
        }
    }
    Ok(MOST_PLACES)
}

// Whether a float reads back from its value with so many places.
fn reads_back(
    alloc: Global,
    float: f64,
    value: &BigFraction,
    places: u32,
) -> Result<bool, AllocError>
    requires { HasTerms (fraction_of_float float) (big_numbers value.now) }
    ensures { IfOk result (λ r. IsTrue r ↔ FloatReadsBack float places) }
{
    let step = last_place(alloc, places)?;
    let rounded = value.round_to_multiple_of(alloc, &step, Rounding::HalfEven)?;
    let nearest = rounded.to_f64(alloc)?;
    Ok(nearest == float)
}

// What 1 at the last of so many places is worth: 1/1000 for three.
fn last_place(alloc: Global, places: u32) -> Result<BigFraction, AllocError>
    ensures { IfOk result (λ r. big_numbers r ≡ (pos 1, pos (10 ^ places))) }
{
    Ok(
        BigFraction::from_integer(10)
            .pow(alloc, -i64::from(places))?
            .unwrap(),
    )
}
