//! Calls with a rule of rounding. A row without a rule has the answers by all six.
use crate::big::written::{fraction, shown};
use ratio_big::BigFraction;
use ratio_decimal::rounding_rule::Rounding;
use rows::answer::Answer;
use std::alloc::{AllocError, Global};

const RULES: [Rounding; 6] = [
    Rounding::HalfAway,
    Rounding::HalfEven,
    Rounding::Down,
    Rounding::Up,
    Rounding::Floor,
    Rounding::Ceil,
];

// The number of places or of parts, or the step, and the rules that the words name.
fn cut(words: &str) -> (&str, &'static [Rounding]) {
    match words.split_once(' ') {
        Some((first, rule)) => (first, named(rule)),
        None => (words, &RULES),
    }
}

fn named(rule: &str) -> &'static [Rounding] {
    match rule {
        "HalfAway" => &[Rounding::HalfAway],
        "HalfEven" => &[Rounding::HalfEven],
        "Down" => &[Rounding::Down],
        "Up" => &[Rounding::Up],
        "Floor" => &[Rounding::Floor],
        "Ceil" => &[Rounding::Ceil],
        _ => &[],
    }
}

/// The decimals with the places of the words.
pub fn decimal(alloc: Global, x: &BigFraction, words: &str) -> Result<Answer<i64>, AllocError> {
    let (places, rules) = cut(words);
    let Ok(places) = places.parse::<u32>() else {
        return Ok(Answer::BadRow);
    };
    let mut texts = String::new(alloc);
    for rule in rules {
        let decimal = x.decimal(alloc, places, *rule)?;
        write!(texts, " \"{decimal}\"")?;
    }
    listed(alloc, &texts)
}

/// The multiples of 1 over the parts of the words.
pub fn multiple(alloc: Global, x: &BigFraction, words: &str) -> Result<Answer<i64>, AllocError> {
    let (parts, rules) = cut(words);
    let Ok(parts) = parts.parse::<i64>() else {
        return Ok(Answer::BadRow);
    };
    let mut texts = String::new(alloc);
    for rule in rules {
        if parts > 0 {
            let multiple = shown(alloc, &x.round_to(alloc, parts, *rule)?)?;
            write!(texts, " {multiple}")?;
        }
    }
    listed(alloc, &texts)
}

/// The multiples of the step of the words.
pub fn multiple_of_step(
    alloc: Global,
    x: &BigFraction,
    words: &str,
) -> Result<Answer<i64>, AllocError> {
    let (step, rules) = cut(words);
    let Some(step) = fraction(alloc, step)? else {
        return Ok(Answer::BadRow);
    };
    let mut texts = String::new(alloc);
    for rule in rules {
        if step.is_positive() {
            let multiple = shown(alloc, &x.round_to_multiple_of(alloc, &step, *rule)?)?;
            write!(texts, " {multiple}")?;
        }
    }
    listed(alloc, &texts)
}

// The texts, without the space before the first.
fn listed(alloc: Global, texts: &str) -> Result<Answer<i64>, AllocError> {
    match texts.strip_prefix(' ') {
        Some(texts) => Ok(Answer::Text(String::from_str(alloc, texts)?)),
        None => Ok(Answer::BadRow),
    }
}
