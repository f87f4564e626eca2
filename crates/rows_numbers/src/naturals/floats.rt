//! The floats nearest to fractions of long numbers, by their bits.
use crate::naturals::digits::digits;
use ratio_decimal::float::leading::float_of;
use ratio_decimal::naturals::nearest_f64;
use ratio_natural::is_zero;
use rows::answer::{Answer, of_f64};
use std::alloc::Global;

/// A fraction's sign, its leading digits in one number, `more` or `exact`, and the powers of 2 that the two numbers were multiplied by.
pub fn of_leading_digits(alloc: Global, call: &str, words: &str) -> Option<Answer<u64>> {
    let mut words = words.split(' ');
    let below = words.next()? == "-";
    let digits = words.next()?.parse::<u128>().ok()?;
    let is_more = words.next()? == "more";
    let up = words.next()?.parse::<u64>().ok()?;
    let down = words.next()?.parse::<u64>().ok()?;
    if call != "float_of" || digits < 1 << 64 || up >= 1 << 63 || down >= 1 << 62 {
        return None;
    }
    Some(of_f64(alloc, float_of(digits, is_more, up, down, below)))
}

/// A fraction by its digits, in room that was used before.
pub fn of_fraction(alloc: Global, below: bool, words: &str) -> Option<Answer<u64>> {
    let (numer, denom) = words.split_once(' ')?;
    let (numer, denom) = (digits(alloc, numer)?, digits(alloc, denom)?);
    let mut long = [0; 24];
    let mut scaled = [5; 24];
    if is_zero(&denom) || denom.len() > 22 || numer.len() > 24 {
        return None;
    }
    long[..numer.len()].copy_from_slice(&numer);
    Some(of_f64(alloc, nearest_f64(&mut long, &denom, below, &mut scaled)))
}
