//! Calls on natural numbers of any length, by their digits: those of `ratio_natural`, and those of `ratio_decimal` on their fractions.
mod digits;
mod floats;
mod one_number;
mod rounding;
mod texts;
mod two_numbers;

use rows::answer::Answer;
use std::alloc::Global;
use std::fmt;

/// Makes the call and writes its answer.
pub fn write_answer<W: fmt::Write>(
    alloc: Global,
    subject: &str,
    call: &str,
    words: &str,
    f: &mut fmt::Formatter<W>,
) -> fmt::Result {
    let answer = match subject {
        "ratio_natural" => natural(alloc, call, words),
        "naturals" => long(alloc, call, words),
        _ => floats::of_leading_digits(alloc, call, words),
    };
    match answer {
        Some(answer) => write!(f, "{answer}"),
        None => f.write_str("bad row"),
    }
}

// The calls whose first word is a number by its digits, and the others.
fn natural(alloc: Global, call: &str, words: &str) -> Option<Answer<u64>> {
    let (first, rest) = match words.split_once(' ') {
        Some(split) => split,
        None => (words, ""),
    };
    match call {
        "gcd_wide" => two_numbers::wide_divisor(words),
        "read_decimal" => texts::read(alloc, first, rest),
        "put_decimal" => texts::of_number(alloc, first),
        "put_last_digits" => texts::last_digits(alloc, first, rest),
        _ if rest.starts_with('[') => two_numbers::answer(alloc, call, first, rest),
        _ => one_number::answer(alloc, call, first, rest),
    }
}

// The calls on fractions of long numbers. Their first word is a sign.
fn long(alloc: Global, call: &str, words: &str) -> Option<Answer<u64>> {
    let (sign, words) = words.split_once(' ')?;
    let below = sign == "-";
    match call {
        "round_quotient" => rounding::quotient(alloc, below, words),
        "round_fraction" => rounding::fraction(alloc, below, words),
        "put_places" => texts::places(alloc, below, words),
        "put_decimal" => texts::decimal(alloc, below, words),
        "nearest_f64" => floats::of_fraction(alloc, below, words),
        _ => None,
    }
}
