//! Natural numbers by their digits of 64 bits, the lowest one first: `[0,1]` is 2^64.
//!
//! A digit is a number in decimal, a power of 2 such as `2^63`, or what is missing to the highest digit: `max` and `max-1`. `0*16` stands for
//! sixteen digits 0.
ghost use Rattle.std.specs.Prelude.{◌≡◌, vec_len, IfOk};

use rows::answer::{Answer, of_text};
use std::alloc::{AllocError, Global};
use std::fmt;
use std::fmt::Display;

/// The digits that a word writes.
pub fn digits(alloc: Global, word: &str) -> Option<Vec<u64>> {
    let mut digits = Vec::new(alloc);
    let inner = word.strip_prefix('[')?.strip_suffix(']')?;
    if inner.is_empty() {
        return Some(digits);
    }
    for word in inner.split(',') {
        let (one, times) = match word.split_once('*') {
            Some((one, times)) => (digit(one)?, times.parse::<u8>().ok()?),
            None => (digit(word)?, 1),
        };
        for _ in 0..times {
            digits.push(one).ok()?;
        }
    }
    Some(digits)
}

fn digit(word: &str) -> Option<u64> {
    if word == "max" {
        return Some(u64::MAX);
    }
    if let Some(less) = word.strip_prefix("max-") {
        return u64::MAX.checked_sub(less.parse::<u64>().ok()?);
    }
    match word.strip_prefix("2^") {
        Some(exponent) => 1u64.checked_shl(exponent.parse::<u32>().ok()?),
        None => word.parse::<u64>().ok(),
    }
}

/// Room of so many digits, with something in them.
pub fn used_room(alloc: Global, length: usize) -> Result<Vec<u64>, AllocError>
    ensures { IfOk result (λ room. vec_len room ≡ length) }
{
    let mut room = Vec::new(alloc);
    room.resize(length, 7)?;
    Ok(room)
}

/// The digits, which are written as a row writes them. Those near the highest one are `max` and `max-9`.
#[derive(Clone, Copy)]
pub struct Printed<'a>(pub &'a [u64]);

impl Display for Printed<'_> {
    fn fmt<W: fmt::Write>(&self, f: &mut fmt::Formatter<W>) -> fmt::Result {
        f.write_str("[")?;
        for (i, &digit) in self.0.iter().enumerate() {
            if i > 0 {
                f.write_str(",")?;
            }
            match u64::MAX - digit {
                0 => f.write_str("max")?,
                less if less < 10_000 => write!(f, "max-{less}")?,
                _ => write!(f, "{digit}")?,
            }
        }
        f.write_str("]")
    }
}

/// The answer of a call that returns a digit and changes a number.
pub fn of_changed(alloc: Global, digit: u64, a: &[u64]) -> Answer<u64> {
    let digits = Printed(a);
    of_text(format!(in alloc; "{digit} {digits}"))
}

/// The answer of a call that changes a number.
pub fn of_digits(alloc: Global, a: &[u64]) -> Answer<u64> {
    let digits = Printed(a);
    of_text(format!(in alloc; "{digits}"))
}
