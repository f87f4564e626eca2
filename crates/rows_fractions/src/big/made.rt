//! Calls that make a fraction of texts, numbers, digits, floats and slots, and one that writes it behind a text.
use crate::big::lists::{digits, pairs};
use crate::big::written::{fraction, shown, shown_if_any};
use num_rational::Reduced;
use ratio_big::BigFraction;
use ratio_integer::Primitive;
use ratio_slots::Slot;
use rows::answer::Answer;
use rows::notation;
use std::alloc::{AllocError, Global};

/// The fraction of a text.
pub fn of_text(alloc: Global, source: &str, text: &str) -> Result<Answer<i64>, AllocError> {
    match source {
        "str" => match BigFraction::from_str(alloc, text)? {
            Ok(x) => shown(alloc, &x),
            Err(refusal) => Ok(Answer::Text(format!(in alloc; "refused: {refusal}")?)),
        },
        "text" => match BigFraction::from_text(alloc, text)? {
            Ok(x) => shown(alloc, &x),
            Err(refusal) => Ok(Answer::Text(format!(in alloc; "refused: {refusal}")?)),
        },
        "decimal" => shown_if_any(alloc, BigFraction::from_decimal(alloc, text)?),
        _ => Ok(Answer::BadRow),
    }
}

/// The fraction of other words.
pub fn of_words(alloc: Global, source: &str, words: &str) -> Result<Answer<i64>, AllocError> {
    match source {
        "integer" => of_integer(alloc, words),
        "reduced" => of_reduced(alloc, words),
        "wide" => of_wide(alloc, words),
        "digits" => of_digits(alloc, words),
        "slots" => of_slots(alloc, words),
        "f64" => of_f64(alloc, words),
        "f32" => of_f32(alloc, words),
        "text_within" => of_text_within(alloc, true, words),
        "decimal_within" => of_text_within(alloc, false, words),
        _ => Ok(Answer::BadRow),
    }
}

// The fraction of a number of bits and a text in quotes, which may be any that a person types if `typed`: `10 "12.5%"`.
fn of_text_within(alloc: Global, typed: bool, words: &str) -> Result<Answer<i64>, AllocError> {
    let Some((bits, text)) = bits_and_text(words) else {
        return Ok(Answer::BadRow);
    };
    let read = if typed {
        BigFraction::from_text_within(alloc, text, bits)?
    } else {
        BigFraction::from_decimal_within(alloc, text, bits)?
    };
    match read {
        Ok(x) => shown(alloc, &x),
        Err(refusal) => Ok(Answer::Text(format!(in alloc; "refused: {refusal}")?)),
    }
}

fn bits_and_text(words: &str) -> Option<(u64, &str)> {
    let (bits, rest) = words.split_once(' ')?;
    let Ok(bits) = bits.parse::<u64>() else {
        return None;
    };
    let text = notation::text(rest)?;
    Some((bits, text))
}

fn of_integer(alloc: Global, word: &str) -> Result<Answer<i64>, AllocError> {
    match word.parse::<i64>() {
        Ok(0) => shown(alloc, &BigFraction::zero()),
        Ok(1) => shown(alloc, &BigFraction::one()),
        Ok(n) => shown(alloc, &BigFraction::from_integer(n)),
        Err(_) => Ok(Answer::BadRow),
    }
}

fn of_reduced(alloc: Global, word: &str) -> Result<Answer<i64>, AllocError> {
    match lowest::<i64>(word) {
        Some(x) => shown(alloc, &BigFraction::from_reduced(x)),
        None => Ok(Answer::BadRow),
    }
}

// The lowest terms of a word's two numbers.
fn lowest<T: Primitive>(word: &str) -> Option<Reduced<T>> {
    let (numer, denom) = notation::fraction(word)?;
    Reduced::checked_new(numer, denom)
}

// A type and a fraction.
fn of_wide(alloc: Global, words: &str) -> Result<Answer<i64>, AllocError> {
    match words.split_once(' ') {
        Some(("i8", word)) => of_wide_terms::<i8>(alloc, word),
        Some(("u64", word)) => of_wide_terms::<u64>(alloc, word),
        Some(("i128", word)) => of_wide_terms::<i128>(alloc, word),
        Some(("u128", word)) => of_wide_terms::<u128>(alloc, word),
        _ => Ok(Answer::BadRow),
    }
}

fn of_wide_terms<T: Primitive>(alloc: Global, word: &str) -> Result<Answer<i64>, AllocError> {
    match lowest::<T>(word) {
        Some(x) => shown(alloc, &BigFraction::from_wide(alloc, &x)?),
        None => Ok(Answer::BadRow),
    }
}

// A sign and the digits of both numbers: `- [0,1] [3]`.
fn of_digits(alloc: Global, words: &str) -> Result<Answer<i64>, AllocError> {
    let Some((sign, words)) = words.split_once(' ') else {
        return Ok(Answer::BadRow);
    };
    let Some((numer, denom)) = words.split_once(' ') else {
        return Ok(Answer::BadRow);
    };
    match (digits(alloc, numer)?, digits(alloc, denom)?) {
        (Some(numer), Some(denom)) => {
            let x = BigFraction::from_digits(alloc, sign == "-", &numer, &denom)?;
            shown_if_any(alloc, x)
        }
        _ => Ok(Answer::BadRow),
    }
}

fn of_slots(alloc: Global, word: &str) -> Result<Answer<i64>, AllocError> {
    let Some(pairs) = pairs(alloc, word)? else {
        return Ok(Answer::BadRow);
    };
    let mut slots = Vec::new(alloc);
    for (numer, denom) in pairs.iter() {
        slots.push(Slot::new(*denom, *numer))?;
    }
    shown(alloc, &BigFraction::from_slots(alloc, &slots)?)
}

fn of_f64(alloc: Global, word: &str) -> Result<Answer<i64>, AllocError> {
    let float = match word {
        "inf" => f64::INFINITY,
        "-inf" => f64::NEG_INFINITY,
        "nan" => f64::NAN,
        "-0.0" => -0.0,
        _ => match fraction(alloc, word)? {
            Some(x) => x.to_f64(alloc)?,
            None => return Ok(Answer::BadRow),
        },
    };
    shown_if_any(alloc, BigFraction::from_f64(alloc, float)?)
}

fn of_f32(alloc: Global, word: &str) -> Result<Answer<i64>, AllocError> {
    let float = match word {
        "inf" => f32::INFINITY,
        "nan" => f32::NAN,
        "-0.0" => -0.0,
        _ => match fraction(alloc, word)? {
            Some(x) => x.to_f32(alloc)?,
            None => return Ok(Answer::BadRow),
        },
    };
    shown_if_any(alloc, BigFraction::from_f32(alloc, float)?)
}

/// The text in quotes with the fraction behind it.
pub fn longer_text(alloc: Global, x: &BigFraction, words: &str) -> Result<Answer<i64>, AllocError> {
    let Some(text) = notation::text(words) else {
        return Ok(Answer::BadRow);
    };
    let mut text = String::from_str(alloc, text)?;
    x.append_text(alloc, &mut text)?;
    Ok(Answer::Text(format!(in alloc; "\"{text}\"")?))
}
