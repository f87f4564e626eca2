//! The sum of the fractions from 1/1 to 1/n.
use crate::big::written::{agreed, shown};
use num_rational::Reduced64;
use ratio_big::BigFraction;
use rows::answer::Answer;
use std::alloc::{AllocError, Global};

/// The sum up to the number of the word. Its parts taken away again leave 0, and its square divided by it twice is 1.
pub fn answer(alloc: Global, word: &str) -> Result<Answer<i64>, AllocError> {
    let Ok(last) = word.parse::<i64>() else {
        return Ok(Answer::BadRow);
    };
    let mut sum = BigFraction::zero();
    for k in 1..=last {
        sum = sum.add(alloc, &part(k))?;
    }
    let mut rest = sum.copy(alloc)?;
    for k in 1..=last {
        rest = rest.subtract(alloc, &part(k))?;
    }
    if rest.is_zero() && squares_back(alloc, &sum)? {
        shown(alloc, &sum)
    } else {
        agreed(alloc, false, String::new(alloc))
    }
}

// 1/k.
fn part(k: i64) -> BigFraction {
    match Reduced64::checked_new(1, k) {
        Some(part) => BigFraction::from_reduced(part),
        None => BigFraction::zero(),
    }
}

fn squares_back(alloc: Global, x: &BigFraction) -> Result<bool, AllocError> {
    let square = x.multiply(alloc, x)?;
    let Some(root) = square.divide(alloc, x)? else {
        return Ok(false);
    };
    let one = root.divide(alloc, x)?;
    Ok(root == *x && one == Some(BigFraction::one()))
}
