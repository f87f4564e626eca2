//! The lowest terms of fractions and mixed numbers, from the digits of their whole numbers.
ghost use Rattle.std.specs.Prelude.{◌*◌, ◌+◌, ◌<◌, ◌∷◌, [], pos};
ghost use Rattle.std.specs.Str.Parse.{AllDigits};
ghost use Rattle.ratio_integer.specs.Fraction.{IsLowestTerms, IsLowestTermsOf};
ghost use Rattle.ratio_decimal.specs.DecimalCuts.{ChecksTerms};
ghost use Rattle.ratio_core.specs.Reading.{digits_sum};
ghost use Rattle.ratio_decimal.specs.TypedTerms.{ChecksTyped};
ghost use Rattle.ratio_decimal.specs.TypedText.{share};

use crate::reading::cut::number_after;
use crate::reading::terms::{Terms, whole_before};
use crate::typed::TextRefusal;
use ratio_integer::{cancelled, lowest_terms};

/// The lowest terms of a number, and whether it is below 0.
#[derive(Clone, Copy)]
pub(crate) struct SignedTerms {
    pub below: bool,
    pub terms: Terms,
}

/// The lowest terms of `b/c`, or of its 100th part if `percent`.
pub(crate) fn quotient_terms(
    numer: &[u8],
    denom: &[u8],
    percent: bool,
) -> Result<Terms, TextRefusal>
    requires numer { AllDigits 10 numer.now }
    requires denom { AllDigits 10 denom.now }
    ensures { ChecksTyped (digits_sum 10 numer.now ∷ digits_sum 10 denom.now ∷ [])
        (digits_sum 10 numer.now) (share percent * digits_sum 10 denom.now) result }
{
    match part_terms(numer, denom) {
        Err(refusal) => Err(refusal),
        Ok(terms) => {
            if percent {
                match hundredth(terms) {
                    None => Err(TextRefusal::NotHeld),
                    Some(less) => Ok(less),
                }
            } else {
                Ok(terms)
            }
        }
    }
}

/// The lowest terms of `a b/c`. The terms of `b/c` come first. Then the denominator stays, since what divides it and the
/// numerator of the sum divides the numerator of `b/c`.
pub(crate) fn mixed_terms(whole: &[u8], numer: &[u8], denom: &[u8]) -> Result<Terms, TextRefusal>
    requires whole { AllDigits 10 whole.now }
    requires numer { AllDigits 10 numer.now }
    requires denom { AllDigits 10 denom.now }
    ensures { ChecksTyped (digits_sum 10 whole.now ∷ digits_sum 10 numer.now ∷ digits_sum 10 denom.now ∷ [])
        (digits_sum 10 whole.now * digits_sum 10 denom.now + digits_sum 10 numer.now) (digits_sum 10 denom.now) result }
{
    match part_terms(numer, denom) {
        Err(refusal) => Err(refusal),
        Ok(part) => match number_after(0, whole) {
            None => Err(TextRefusal::NotHeld),
            Some(number) => match whole_before(number, part) {
                None => Err(TextRefusal::NotHeld),
                Some(terms) => Ok(terms),
            },
        },
    }
}

// The lowest terms of `b/c`.
fn part_terms(numer: &[u8], denom: &[u8]) -> Result<Terms, TextRefusal>
    requires numer { AllDigits 10 numer.now }
    requires denom { AllDigits 10 denom.now }
    ensures { ChecksTyped (digits_sum 10 numer.now ∷ digits_sum 10 denom.now ∷ [])
        (digits_sum 10 numer.now) (digits_sum 10 denom.now) result }
{
    match number_after(0, denom) {
        None => Err(TextRefusal::NotHeld),
        Some(d) => {
            if d == 0 {
                return Err(TextRefusal::ZeroDenominator);
            }
            match number_after(0, numer) {
                None => Err(TextRefusal::NotHeld),
                Some(n) => Ok(reduced(n, d)),
            }
        }
    }
}

// The lowest terms of n/d.
fn reduced(n: u128, d: u128) -> Terms
    requires { 0 < d }
    ensures { IsLowestTermsOf (pos n) (pos d) (pos result.numer) (pos result.denom) }
{
    let (numer, denom) = lowest_terms(n, d);
    Terms { numer, denom }
}

// The lowest terms of a 100th part. What divides both new numbers divides 100, since nothing divides the old ones.
fn hundredth(terms: Terms) -> Option<Terms>
    requires { IsLowestTerms (pos terms.numer) (pos terms.denom) }
    ensures { ChecksTerms terms.numer (100 * terms.denom) result }
{
    let (numer, rest) = cancelled(terms.numer, 100);
    let denom = terms.denom.checked_mul(rest)?;
    Some(Terms { numer, denom })
}
