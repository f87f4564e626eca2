//! Calls on a number and one or two digits.
use crate::naturals::digits::{digits, of_changed};
use ratio_natural::{
    add_digit, bits, divide, is_zero, shift_left, shift_right, subtract_digit, times_plus, used,
};
use rows::answer::Answer;
use rows::notation::{number, two_numbers};
use std::alloc::Global;

/// Makes the call and returns its answer. The call may change the number.
pub fn answer(alloc: Global, call: &str, first: &str, words: &str) -> Option<Answer<u64>> {
    let mut a = digits(alloc, first)?;
    let a = a.as_mut_slice();
    match call {
        "is_zero" => Some(Answer::Truth(is_zero(a))),
        "used" => Some(Answer::Unsigned(used(a) as u128)),
        "bits" if a.len() < 1000 => Some(Answer::Unsigned(bits(a) as u128)),
        "times_plus" => {
            let (digit, plus) = two_numbers(words)?;
            let carry = times_plus(a, digit, plus);
            Some(of_changed(alloc, carry, a))
        }
        _ => with_digit(alloc, call, a, number(words)?),
    }
}

fn with_digit(alloc: Global, call: &str, a: &mut [u64], digit: u64) -> Option<Answer<u64>> {
    let carry = match call {
        "add_digit" => add_digit(a, digit),
        "subtract_digit" => subtract_digit(a, digit),
        "divide" if digit > 0 => divide(a, digit),
        "shift_left" if digit < 64 => shift_left(a, digit as u32),
        "shift_right" if digit < 64 => shift_right(a, digit as u32),
        _ => return None,
    };
    Some(of_changed(alloc, carry, a))
}
