//! Lists of digits, slots and fractions: `[0,1]`, `[1/36,0/0]`, `[4,2,6]`.
use crate::big::written::shown;
use ratio_big::BigFraction;
use rows::answer::Answer;
use std::alloc::{AllocError, Global};

// What is between the brackets of a list. An empty list has nothing there.
fn inside(word: &str) -> Option<&str> {
    word.strip_prefix('[')?.strip_suffix(']')
}

/// The digits of a list.
pub fn digits(alloc: Global, word: &str) -> Result<Option<Vec<u64>>, AllocError> {
    let mut digits = Vec::new(alloc);
    let Some(inside) = inside(word) else {
        return Ok(None);
    };
    for digit in inside.split(',') {
        match digit.parse::<u64>() {
            Ok(digit) => digits.push(digit)?,
            Err(_) => return Ok(None),
        }
    }
    Ok(Some(digits))
}

/// The numerators and denominators of a list. A denominator fits a `u64`.
pub fn pairs(alloc: Global, word: &str) -> Result<Option<Vec<(i128, u64)>>, AllocError> {
    let mut pairs = Vec::new(alloc);
    let Some(inside) = inside(word) else {
        return Ok(None);
    };
    if inside.is_empty() {
        return Ok(Some(pairs));
    }
    for pair in inside.split(',') {
        match pair.split_once('/') {
            Some((numer, denom)) => match (numer.parse::<i128>(), denom.parse::<u64>()) {
                (Ok(numer), Ok(denom)) => pairs.push((numer, denom))?,
                _ => return Ok(None),
            },
            None => return Ok(None),
        }
    }
    Ok(Some(pairs))
}

/// The fractions in brackets, with commas between.
pub fn fractions(alloc: Global, fractions: &[BigFraction]) -> Result<Answer<i64>, AllocError> {
    let mut text = String::from_str(alloc, "[")?;
    for (at, x) in fractions.iter().enumerate() {
        if at > 0 {
            text.push_str(",")?;
        }
        let shown = shown(alloc, x)?;
        write!(text, "{shown}")?;
    }
    text.push_str("]")?;
    Ok(Answer::Text(text))
}
