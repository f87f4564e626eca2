//! Fractions of any size as rows write them: `-3/2`, and `9223372036854775808 long` where a number does not fit an `i64`.
use num_rational::Reduced64;
use ratio_big::BigFraction;
use rows::answer::Answer;
use rows::notation;
use std::alloc::{AllocError, Global};

/// The fraction that a word writes. Each call that can make it must make the same one.
pub fn fraction(alloc: Global, word: &str) -> Result<Option<BigFraction>, AllocError> {
    let Ok(x) = BigFraction::from_text(alloc, word)? else {
        return Ok(None);
    };
    let read_alike = match BigFraction::from_str(alloc, word)? {
        Ok(other) => other == x,
        Err(_) => true,
    };
    if read_alike && made_alike(alloc, word, &x)? {
        Ok(Some(x))
    } else {
        Ok(None)
    }
}

// Whether the fraction is the one of the word's two numbers, if they fit an `i64`, and of its own digits if not.
fn made_alike(alloc: Global, word: &str, x: &BigFraction) -> Result<bool, AllocError> {
    match notation::fraction::<i64>(word) {
        Some((numer, denom)) => match Reduced64::checked_new(numer, denom) {
            Some(short) => {
                let made = BigFraction::from_reduced(short);
                Ok(made == *x && (denom != 1 || BigFraction::from_integer(numer) == *x))
            }
            None => Ok(false),
        },
        None => Ok(by_digits(alloc, x)? == Some(x.copy(alloc)?)),
    }
}

// The fraction of the digits of both numbers.
fn by_digits(alloc: Global, x: &BigFraction) -> Result<Option<BigFraction>, AllocError> {
    let numer = x.numer_digits(alloc)?;
    let denom = x.denom_digits(alloc)?;
    BigFraction::from_digits(alloc, x.is_negative(), &numer, &denom)
}

/// The fraction as `to_text` writes it, with ` long` behind it if it is not short. The other calls that take it apart must agree.
pub fn shown(alloc: Global, x: &BigFraction) -> Result<Answer<i64>, AllocError> {
    let text = x.to_text(alloc)?;
    match x.to_reduced() {
        Some(short) => {
            let same = format!(in alloc; "{short}")?;
            agreed(alloc, same == text, text)
        }
        None => {
            let same = text_by_digits(alloc, x)? == text;
            agreed(alloc, same, format!(in alloc; "{text} long")?)
        }
    }
}

/// The same for a call that may return no fraction.
pub fn shown_if_any(alloc: Global, x: Option<BigFraction>) -> Result<Answer<i64>, AllocError> {
    match x {
        Some(x) => shown(alloc, &x),
        None => Ok(Answer::Nothing),
    }
}

/// The text, if all forms of the call agree.
pub fn agreed(alloc: Global, agree: bool, text: String) -> Result<Answer<i64>, AllocError> {
    if agree {
        Ok(Answer::Text(text))
    } else {
        Ok(Answer::Text(String::from_str(alloc, "forms differ")?))
    }
}

// The text of a long fraction by the digits of its numbers. Without a leading zero, the last digit is not 0.
fn text_by_digits(alloc: Global, x: &BigFraction) -> Result<String, AllocError> {
    let (numer, denom) = (x.numer_digits(alloc)?, x.denom_digits(alloc)?);
    if numer.last() == Some(&0) || denom.last() == Some(&0) {
        return String::from_str(alloc, "leading zeros");
    }
    let mut text = whole_text(alloc, x.is_negative(), &numer)?;
    if denom.as_slice() != [1].as_slice() {
        let denom = whole_text(alloc, false, &denom)?;
        write!(text, "/{denom}")?;
    }
    Ok(text)
}

fn whole_text(alloc: Global, negative: bool, digits: &[u64]) -> Result<String, AllocError> {
    match BigFraction::from_digits(alloc, negative, digits, &[1])? {
        Some(whole) => whole.to_text(alloc),
        None => String::from_str(alloc, "none"),
    }
}
