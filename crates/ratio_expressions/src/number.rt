//! The number that a piece of a text says.
mod short_fraction;

ghost use Rattle.std.specs.Prelude.{◌≡◌, ◌≤◌, ◌*ℤ◌, ℤ, length, option_map, pos, true, MatchResult, IfOk};
ghost use Rattle.std.specs.Char.{is_ascii_digit};
ghost use Rattle.std.specs.List.{count_by, take_while};
ghost use Rattle.ratio_decimal.specs.TypedText.{share};
ghost use Rattle.ratio_big.specs.Decimals.{AnswersBigTyped};
ghost use Rattle.ratio_big.specs.Fractions.{big_numbers};
ghost use Rattle.ratio_big.specs.Values.{HasTerms};
ghost use Rattle.ratio_expressions.specs.Numbers.{AnswersBigReading, IsShareOf, IsTypedNumber, SaysNumber, SaysNoNumber, SaysPlainNumber, SaysNoPlainNumber, exponent_digits, is_no_e, mixed_front};
ghost use Rattle.ratio_expressions.specs.Worths.{worth, Amount};

use crate::number::short_fraction::short_fraction;
use crate::refusal::Reason;
use crate::spelled::spelled;
use crate::value::Value;
use ratio_big::BigFraction;
use ratio_decimal::TextRefusal;
use std::alloc::{AllocError, Global};
use std::str;

// How many digits the exponent of a number may have, so that a short text takes no long time.
const MOST_EXPONENT_DIGITS: usize = 5;

/// The number that a text says, or why it says none.
pub(crate) fn number_in(alloc: Global, text: &[u8]) -> Result<Result<Value, Reason>, AllocError>
    ensures { IfOk result (λ r. MatchResult r (λ v. (x : ℤ × ℤ) × SaysNumber text.now x × (worth v ≡ Amount x)) (SaysNoNumber text.now)) }
{
    if let Some(number) = short_fraction(text) {
        return Ok(Ok(Value::Number(number)));
    }
    match spelled(alloc, text)? {
        Some(slashed) => plain_number_in(alloc, &slashed),
        None => plain_number_in(alloc, text),
    }
}

// The same, if the text has no vulgar fraction.
fn plain_number_in(alloc: Global, text: &[u8]) -> Result<Result<Value, Reason>, AllocError>
    ensures { IfOk result (λ r. MatchResult r (λ v. (x : ℤ × ℤ) × SaysPlainNumber text.now x × (worth v ≡ Amount x)) (SaysNoPlainNumber text.now)) }
{
    if digits_of_exponent(text) > MOST_EXPONENT_DIGITS {
        return Ok(Err(Reason::NumberTooLarge));
    }
    match read(alloc, text)? {
        Ok(number) => Ok(Ok(Value::Number(number))),
        Err(TextRefusal::ZeroDenominator) => Ok(Err(Reason::ZeroDenominator)),
        Err(TextRefusal::NotNumber) => Ok(Err(Reason::NotNumeral)),
        Err(TextRefusal::NotHeld) => unreachable!(),
    }
}

// The same, with an exponent of any length.
fn read(alloc: Global, text: &[u8]) -> Result<Result<BigFraction, TextRefusal>, AllocError>
    ensures { IfOk result (AnswersBigReading (IsTypedNumber text.now)) }
{
    match before_percent(text) {
        Some(mixed) => read_share(alloc, mixed),
        None => read_field(alloc, text),
    }
}

// The 100th part of a mixed number.
fn read_share(alloc: Global, mixed: &[u8]) -> Result<Result<BigFraction, TextRefusal>, AllocError>
    ensures { IfOk result (AnswersBigReading (IsShareOf mixed.now)) }
{
    match read_field(alloc, mixed)? {
        Ok(number) => Ok(Ok(hundredth(alloc, &number)?)),
        Err(refusal) => Ok(Err(refusal)),
    }
}

// The mixed number before the percent sign of a text.
fn before_percent(text: &[u8]) -> Option<&[u8]>
    ensures { option_map (λ s. s.now) result ≡ mixed_front text.now }
{
    match text {
        [mixed @ .., b'%'] if text.contains(&b' ') => Some(mixed),
        _ => None,
    }
}

// The number that a person types into one field.
fn read_field(alloc: Global, text: &[u8]) -> Result<Result<BigFraction, TextRefusal>, AllocError>
    ensures { IfOk result (AnswersBigTyped text.now) }
{
    match str::from_utf8(text) {
        Err(_) => Ok(Err(TextRefusal::NotNumber)),
        Ok(field) => BigFraction::from_text(alloc, field),
    }
}

// The 100th part of a number.
fn hundredth(alloc: Global, x: &BigFraction) -> Result<BigFraction, AllocError>
    ensures { let n = (big_numbers x.now).0 in let d = (big_numbers x.now).1 in IfOk result (λ r. HasTerms (n, pos (share true) *ℤ d) (big_numbers r)) }
{
    match x.divide(alloc, &BigFraction::from_integer(100))? {
        Some(part) => Ok(part),
        None => unreachable!(),
    }
}

// How many digits are behind an e.
fn digits_of_exponent(text: &[u8]) -> usize
    ensures { result ≡ exponent_digits text.now }
{
    digits_in(&text[before_exponent(text)..])
}

// How many bytes are before the first e.
fn before_exponent(text: &[u8]) -> usize
    ensures is { result ≡ length (take_while is_no_e text.now) }
    ensures within { result ≤ length text.now }
{
    text.iter()
        .take_while(|byte| **byte != b'e' && **byte != b'E')
        .count()
}

// How many of the bytes are digits.
fn digits_in(text: &[u8]) -> usize
    ensures { result ≡ count_by is_ascii_digit text.now }
{
    text.iter().filter(|byte| byte.is_ascii_digit()).count()
}
