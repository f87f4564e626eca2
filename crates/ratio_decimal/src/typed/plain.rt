//! The lowest terms of a decimal or a fraction, or of their 100th parts.
ghost use Rattle.std.specs.Prelude.{◌≡◌, ◌*◌, ◌^◌, ◌++◌, length};
ghost use Rattle.std.specs.Str.Parse.{AllDigits};
ghost use Rattle.ratio_decimal.specs.DecimalCuts.{ChecksTerms};
ghost use Rattle.ratio_decimal.specs.DecimalReading.{HasDecimalParts, tens_above, tens_below};
ghost use Rattle.ratio_core.specs.Reading.{digits_sum};
ghost use Rattle.ratio_decimal.specs.TypedTerms.{AnswersTerms, differ};
ghost use Rattle.ratio_decimal.specs.TypedText.{IsShareText, share};

use crate::reading::cut::decimal_parts;
use crate::reading::terms::Terms;
use crate::reading::value::{lowest, lowest_hundredth};
use crate::typed::TextRefusal;
use crate::typed::parts::quotient_parts;
use crate::typed::signed::{SignedTerms, quotient_terms};

/// The lowest terms of the text, or of its 100th part if `percent`.
pub(crate) fn plain_terms(text: &[u8], percent: bool) -> Result<SignedTerms, TextRefusal>
    ensures { AnswersTerms (IsShareText percent text.now) result }
{
    match quotient_parts(text) {
        None => match decimal_parts(text) {
            None => Err(TextRefusal::NotNumber),
            Some(parts) => match decimal_terms(
                parts.whole,
                parts.part,
                parts.down,
                parts.exponent,
                percent,
            ) {
                None => Err(TextRefusal::NotHeld),
                Some(terms) => Ok(SignedTerms {
                    below: parts.below,
                    terms,
                }),
            },
        },
        Some(parts) => match quotient_terms(parts.numer, parts.denom, percent) {
            Err(refusal) => Err(refusal),
            Ok(terms) => Ok(SignedTerms {
                below: differ(parts.below, parts.under),
                terms,
            }),
        },
    }
}

// The lowest terms of the digits and the exponent of a decimal, or of its 100th part if `percent`.
fn decimal_terms(
    whole: &[u8],
    part: &[u8],
    down: bool,
    exponent: &[u8],
    percent: bool,
) -> Option<Terms>
    requires whole { AllDigits 10 whole.now }
    requires part { AllDigits 10 part.now }
    requires exponent { AllDigits 10 exponent.now }
    ensures { ChecksTerms (digits_sum 10 (whole.now ++ part.now) * tens_above down (digits_sum 10 exponent.now))
        (share percent * (10 ^ length part.now * tens_below down (digits_sum 10 exponent.now))) result }
{
    if percent {
        lowest_hundredth(whole, part, down, exponent)
    } else {
        lowest(whole, part, down, exponent)
    }
}

// Whether one of the two is true, and the other is false.
fn differ(one: bool, other: bool) -> bool
    ensures { result ≡ differ one other }
{
    if one { !other } else { other }
}
