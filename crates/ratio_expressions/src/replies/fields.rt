//! What a page shows of a number, with tabs between.
ghost use Rattle.std.specs.Prelude.{◌≡◌, ◌++◌, ◌∷◌, [], IfOk};
ghost use Rattle.ratio_big.specs.Fractions.{big_numbers};
ghost use Rattle.ratio_expressions.specs.Forms.{IsInFields, with_zeros};

use crate::replies::both::short_denominator;
use crate::replies::mixed::mixed_text;
use crate::replies::written::{decimal_text, fraction_text};
use ratio_big::BigFraction;
use std::alloc::{AllocError, Global};

/// The fraction, its decimal with so many places, and the mixed number, with tabs between. The digits of a whole number are computed once:
/// that takes long for a long one.
pub(crate) fn fields_text(
    alloc: Global,
    x: &BigFraction,
    places: u32,
) -> Result<Vec<u8>, AllocError>
    ensures { IfOk result (λ text. IsInFields (big_numbers x.now) places text.items) }
{
    let text = fraction_text(alloc, x)?;
    match short_denominator(alloc, x)? {
        Some(1) => {
            let decimal = with_zeros(alloc, &text, places)?;
            with_tabs(alloc, &text, &decimal, &text)
        }
        _ => {
            let decimal = decimal_text(alloc, x, places)?;
            let mixed = mixed_text(alloc, x)?;
            with_tabs(alloc, &text, &decimal, &mixed)
        }
    }
}

// The text of a whole number with so many places.
fn with_zeros(alloc: Global, whole: &[u8], places: u32) -> Result<Vec<u8>, AllocError>
    ensures { IfOk result (λ text. text.items ≡ with_zeros places whole.now) }
{
    let mut text = Vec::from_slice(alloc, whole)?;
    if places == 0 {
        return Ok(text);
    }
    text.push(b'.')?;
    let length = text.len().saturating_add(places as usize);
    text.resize(length, b'0')?;
    Ok(text)
}

// Three texts with tabs between.
fn with_tabs(
    alloc: Global,
    first: &[u8],
    second: &[u8],
    third: &[u8],
) -> Result<Vec<u8>, AllocError>
    ensures { IfOk result (λ text. text.items ≡ first.now ++ 9 ∷ [] ++ second.now ++ 9 ∷ [] ++ third.now) }
{
    let mut text = Vec::from_slice(alloc, first)?;
    text.push(b'\t')?;
    text.extend_from_slice(second)?;
    text.push(b'\t')?;
    text.extend_from_slice(third)?;
    Ok(text)
}
