//! A fraction with its decimal beside it: `7/12 ≈ 0.583333`.
ghost use Rattle.std.specs.Prelude.{◌≡◌, ◌==◌, ◌<◌, ℤ, length, reverse, take_while, IfOk, IfSome};
ghost use Rattle.ratio_big.specs.Fractions.{big_numbers};
ghost use Rattle.ratio_expressions.specs.Forms.{ChecksShortDenominator, IsInBothForm, IsWithDecimal, ends_in_six, without_zeros};

use crate::replies::written::fraction_text;
use ratio_big::BigFraction;
use ratio_decimal::rounding_rule::Rounding;
use std::alloc::{AllocError, Global};

/// The fraction, and its decimal with six places, rounded half away from zero: `7/12 ≈ 0.583333`. If the decimal is exact, it has no zeros
/// at its end: `1/4 = 0.25`. A whole number stands alone. An error means that an allocation failed.
pub(crate) fn both_text(alloc: Global, x: &BigFraction) -> Result<Vec<u8>, AllocError>
    ensures { IfOk result (λ text. IsInBothForm (big_numbers x.now) text.items) }
{
    let denom = short_denominator(alloc, x)?;
    match denom {
        Some(1) => fraction_text(alloc, x),
        _ => with_decimal(alloc, x, ends_in_six(denom)),
    }
}

// The fraction and its decimal with six places, which has no zeros at its end if it is exact.
fn with_decimal(alloc: Global, x: &BigFraction, exact: bool) -> Result<Vec<u8>, AllocError>
    ensures { IfOk result (λ text. IsWithDecimal (big_numbers x.now) exact text.items) }
{
    let mut text = fraction_text(alloc, x)?;
    let decimal = x.decimal(alloc, 6, Rounding::HalfAway)?;
    if exact {
        text.extend_from_slice(b" = ")?;
        text.extend_from_slice(without_zeros(decimal.as_bytes()))?;
    } else {
        text.extend_from_slice(" ≈ ".as_bytes())?;
        text.extend_from_slice(decimal.as_bytes())?;
    }
    Ok(text)
}

/// The denominator, if it has at most 64 bits.
pub(crate) fn short_denominator(alloc: Global, x: &BigFraction) -> Result<Option<u64>, AllocError>
    ensures { IfOk result (ChecksShortDenominator (big_numbers x.now).1) }
{
    let digits = x.denom_digits(alloc)?;
    if digits.len() == 1 {
        Ok(Some(digits[0]))
    } else {
        Ok(None)
    }
}

// Whether six places are all of a fraction over this denominator.
fn ends_in_six(denom: Option<u64>) -> bool
    requires { IfSome denom (λ n. 0 < n) }
    ensures { (d : ℤ) → ChecksShortDenominator d denom → result ≡ ends_in_six d }
{
    match denom {
        Some(n) => 1_000_000 % n == 0,
        None => false,
    }
}

// A decimal without the zeros at its end.
fn without_zeros(decimal: &[u8]) -> &[u8]
    ensures { result.now ≡ without_zeros decimal.now }
{
    &decimal[..decimal.len() - zeros(decimal)]
}

// How many zeros a text has at its end.
fn zeros(text: &[u8]) -> usize
    ensures { result ≡ length (take_while (λ b. b == 48) (reverse text.now)) }
{
    text.iter().rev().take_while(|byte| **byte == b'0').count()
}
