//! Printing fractions as decimals, and reading them from decimals.
ghost use Rattle.std.specs.Prelude.{◌≤◌, [], length, IfOk, MatchResult};
ghost use Rattle.ratio_c.specs.Calls.{SaysDecimal};
ghost use Rattle.ratio_c.specs.Codes.{code_answered};
ghost use Rattle.ratio_c.specs.Texts.{ShowsDecimal, decimal_longest};

use crate::code::{BAD_OPTION, DENOMINATOR_NOT_POSITIVE, NOT_HELD, PARSE_ERROR};
use crate::crossing::{Digest, Pointed};
use crate::one_fraction::positive;
use crate::printing::{Printer, Text, no_text, put_bytes};
use crate::reading::Reader;
use crate::rounded::rule_of;
use ratio_core::DecimalText;
use ratio_decimal::{DecimalRefusal, decimal, from_decimal};
use ratio_integer::both_held;
use std::marker::PhantomData;

/// Prints a fraction as a decimal, with its places and by its rule: 2/3 with 2 places by `RULE_HALF_EVEN` is `0.67`.
#[derive(Clone, Copy)]
pub struct Decimals;

impl<F: Pointed> Printer<F> for Decimals {
    ghost shows = { λ x. ShowsDecimal (F.fraction x) (F.places x) (F.rule x) };

    ghost longest = { decimal_longest F.Inside.lo F.Inside.hi };

    fn put(&self, x: &F, texts: &mut [u8], at: usize) -> Text {
        match decimal_of(x) {
            Ok(text) => put_bytes(text.as_str().as_bytes(), texts, at),
            Err(code) => no_text(code, at),
        }
    }
}

/// The text of a fraction as a decimal, or the code that says why there is none.
fn decimal_of<F: Pointed>(x: &F) -> Result<DecimalText, u32>
    ensures shows { MatchResult result
        (λ text. ShowsDecimal (F.fraction x.now) (F.places x.now) (F.rule x.now) code_answered text)
        (λ code. ShowsDecimal (F.fraction x.now) (F.places x.now) (F.rule x.now) code []) }
    ensures short { IfOk result (λ text. length text ≤ decimal_longest F.Inside.lo F.Inside.hi) }
{
    let places = x.places();
    match positive(x) {
        Some((n, d)) => match rule_of(x.rule()) {
            Some(rule) if places <= 38 => {
                both_held(n, d);
                Ok(decimal(n, d, places, rule))
            }
            _ => Err(BAD_OPTION),
        },
        None => Err(DENOMINATOR_NOT_POSITIVE),
    }
}

/// The reader of decimals such as `12.375` and `-1.5e-3`, over the type `T`.
#[derive(Drop)]
pub struct DecimalTexts<T> {
    marker: PhantomData<T>,
}

impl<T> DecimalTexts<T> {
    /// The reader of decimals, over the type `T`.
    #[inline(always)]
    pub fn new() -> DecimalTexts<T> {
        DecimalTexts {
            marker: PhantomData,
        }
    }
}

impl<T: Digest> Reader for DecimalTexts<T> {
    type Inside = T;

    ghost says = { SaysDecimal T.lo T.hi };

    fn read(&self, text: &str) -> Result<(T, T), u32> {
        match from_decimal::<T>(text) {
            Ok(x) => Ok((x.0, x.1)),
            Err(DecimalRefusal::NotDecimal) => Err(PARSE_ERROR),
            Err(DecimalRefusal::NotHeld) => Err(NOT_HELD),
        }
    }
}
