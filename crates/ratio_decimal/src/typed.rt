//! Reading what a person types into one field as a fraction: `-0.5`, `3/4`, `-1 1/2` or `12.5%`.
pub(crate) mod parts;
mod plain;
mod signed;

ghost use Rattle.std.specs.Prelude.{Some};
ghost use Rattle.std.specs.Fmt.{padded};
ghost use Rattle.ratio_decimal.specs.TypedTerms.{AnswersTerms};
ghost use Rattle.ratio_decimal.specs.TypedText.{AnswersTyped, IsTypedText, text_refusal_text};

use crate::reading::held_terms;
use crate::typed::parts::{before_percent, mixed_parts};
use crate::typed::plain::plain_terms;
use crate::typed::signed::{SignedTerms, mixed_terms};
use ratio_integer::Primitive;
use std::error::Error;
use std::fmt;

/// Why a typed text has no fraction.
#[derive(Clone, Copy, PartialEq, Debug)]
pub enum TextRefusal {
    /// The text is no number: `1.5/2`, `1 -1/2`, `50 %` and the empty text.
    NotNumber,
    /// The text is a fraction or a mixed number over 0: `1/0` and `1 1/0`.
    ZeroDenominator,
    /// The lowest terms of the value do not fit the type. Or the text is a fraction or a mixed number, and one of the
    /// whole numbers in it is 2^128 or more.
    NotHeld,
}

impl fmt::Display for TextRefusal {
    ghost output = { λ why. Some (text_refusal_text why) };

    ghost styled_output = { λ why options. Some (padded options (text_refusal_text why)) };

    fn fmt<W: fmt::Write>(&self, f: &mut fmt::Formatter<W>) -> fmt::Result {
        f.pad(match self {
            TextRefusal::NotNumber => "the text is not a number such as -0.5, 3/4, -1 1/2 or 12.5%",
            TextRefusal::ZeroDenominator => "the denominator is 0",
            TextRefusal::NotHeld => {
                "the lowest terms do not fit the type, or a whole number of the fraction is 2^128 or more"
            }
        })
    }
}

/// The lowest terms of what a person types. The text is one of these:
///
/// - a decimal, as `from_decimal` reads it: `-0.5`;
/// - a fraction of two whole numbers, which may have signs: `3/4` and `1/-2`;
/// - a mixed number with one space, whose sign counts for the whole: `-1 1/2` is -3/2;
/// - a decimal or a fraction with a percent sign behind it: `12.5%` is 1/8.
///
/// The first refusal that applies is returned: `NotNumber`, `ZeroDenominator`, `NotHeld`. A fraction is read by its
/// value, so `200/400` over `i8` is 1/2. The whole numbers of a fraction or a mixed number must be below 2^128.
pub fn from_text<T: Primitive>(text: &str) -> Result<(T, T), TextRefusal>
    ensures { AnswersTyped (λ r. T.value r.0) (λ r. T.value r.1) T.lo T.hi text.now result }
{
    match typed_terms(text.as_bytes()) {
        Err(refusal) => Err(refusal),
        Ok(read) => match held_terms::<T>(read.below, read.terms) {
            None => Err(TextRefusal::NotHeld),
            Some(fraction) => Ok(fraction),
        },
    }
}

// The lowest terms of the text in 128 bits.
fn typed_terms(text: &[u8]) -> Result<SignedTerms, TextRefusal>
    ensures { AnswersTerms (IsTypedText text.now) result }
{
    if let Some(front) = before_percent(text) {
        return plain_terms(front, true);
    }
    match mixed_parts(text) {
        None => plain_terms(text, false),
        Some(parts) => match mixed_terms(parts.whole, parts.numer, parts.denom) {
            Err(refusal) => Err(refusal),
            Ok(terms) => Ok(SignedTerms {
                below: parts.below,
                terms,
            }),
        },
    }
}

impl Error for TextRefusal {}
