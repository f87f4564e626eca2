//! Calls on two numbers, and on two numbers and a digit.
ghost use Rattle.std.specs.Prelude.{◌<◌};
ghost use Rattle.ratio_natural.specs.Number.{natural_of};

use crate::naturals::digits::{Printed, digits, of_changed, of_digits, used_room};
use ratio_natural::{
    add, add_times, compare, divide_long, gcd, gcd_wide, is_zero, lowest_terms, multiply,
    quotient_digit, subtract, subtract_times,
};
use rows::answer::{Answer, of_pair, of_text};
use rows::notation::{number, two_numbers};
use std::alloc::Global;

/// Makes the call and returns its answer. The call may change both numbers.
pub fn answer(alloc: Global, call: &str, first: &str, words: &str) -> Option<Answer<u64>> {
    let mut a = digits(alloc, first)?;
    let a = a.as_mut_slice();
    if let Some((second, digit)) = words.split_once(' ') {
        return with_digit(alloc, call, a, &digits(alloc, second)?, number(digit)?);
    }
    let mut b = digits(alloc, words)?;
    let b = b.as_mut_slice();
    match call {
        "compare" => Some(Answer::Order(compare(a, b))),
        "multiply" => product(alloc, a, b),
        "gcd" => divisor(alloc, a, b),
        "add" | "subtract" => sum(alloc, call, a, b),
        _ if is_zero(b) => None,
        _ => by_positive(alloc, call, a, b),
    }
}

// The calls that divide, or take lowest terms.
fn by_positive(alloc: Global, call: &str, a: &mut [u64], b: &mut [u64]) -> Option<Answer<u64>>
    requires { 0 < natural_of b.now }
{
    match call {
        "quotient_digit" => Some(quotient(alloc, a, b)),
        "divide_long" => long_quotient(alloc, a, b),
        "lowest_terms" => Some(of_pair(lowest_terms(a, b))),
        _ => None,
    }
}

fn with_digit(
    alloc: Global,
    call: &str,
    a: &mut [u64],
    b: &[u64],
    digit: u64,
) -> Option<Answer<u64>> {
    if a.len() < b.len() {
        return None;
    }
    let carry = match call {
        "add_times" => add_times(a, b, digit),
        "subtract_times" => subtract_times(a, b, digit),
        _ => return None,
    };
    Some(of_changed(alloc, carry, a))
}

fn sum(alloc: Global, call: &str, a: &mut [u64], b: &[u64]) -> Option<Answer<u64>> {
    if a.len() < b.len() {
        return None;
    }
    let carry = match call {
        "add" => add(a, b),
        _ => subtract(a, b),
    };
    Some(of_changed(alloc, carry, a))
}

fn product(alloc: Global, a: &[u64], b: &[u64]) -> Option<Answer<u64>> {
    if a.len() > 1000 || b.len() > 1000 {
        return None;
    }
    let mut out = used_room(alloc, a.len() + b.len()).ok()?;
    multiply(out.as_mut_slice(), a, b);
    Some(of_digits(alloc, &out))
}

// Both numbers after the call: the divisor, and 0.
fn divisor(alloc: Global, a: &mut [u64], b: &mut [u64]) -> Option<Answer<u64>> {
    if a.len() < b.len() {
        return None;
    }
    gcd(a, b);
    let (a, b) = (Printed(a), Printed(b));
    Some(of_text(format!(in alloc; "{a} {b}")))
}

// The quotient and the rest, or nothing and the number as it was.
fn quotient(alloc: Global, a: &mut [u64], b: &[u64]) -> Answer<u64>
    requires { 0 < natural_of b.now }
{
    match quotient_digit(a, b) {
        Some(digit) => of_changed(alloc, digit, a),
        None => {
            let digits = Printed(a);
            of_text(format!(in alloc; "none {digits}"))
        }
    }
}

fn long_quotient(alloc: Global, a: &mut [u64], b: &[u64]) -> Option<Answer<u64>>
    requires { 0 < natural_of b.now }
{
    let mut room = used_room(alloc, a.len()).ok()?;
    divide_long(room.as_mut_slice(), a, b);
    let (quotient, rest) = (Printed(&room), Printed(a));
    Some(of_text(format!(in alloc; "{quotient} {rest}")))
}

/// The greatest common divisor of two numbers of 128 bits.
pub fn wide_divisor(words: &str) -> Option<Answer<u64>> {
    let (a, b) = two_numbers(words)?;
    Some(Answer::Unsigned(gcd_wide(a, b)))
}
