//! Calls on signs, and those of `SignedInteger`, over the six types with negative numbers.
use crate::fields::two_positive;
use ratio_core::sign::{
    abs, abs_sub, have_unlike_signs, is_above_zero, is_negative, is_positive, neg, signum,
};
use ratio_core::sums::checked_sub;
use ratio_integer::SignedInteger;
use rows::answer::{Answer, of_fields, write_or_bad_row};
use rows::notation::{fraction, number, two_numbers};
use std::fmt;

/// Makes the call over this type and writes its answer.
pub fn write_answer<W: fmt::Write>(
    type_name: &str,
    call: &str,
    words: &str,
    f: &mut fmt::Formatter<W>,
) -> fmt::Result {
    match type_name {
        "i8" => write_or_bad_row(answer::<i8>(call, words), f),
        "i16" => write_or_bad_row(answer::<i16>(call, words), f),
        "i32" => write_or_bad_row(answer::<i32>(call, words), f),
        "i64" => write_or_bad_row(answer::<i64>(call, words), f),
        "i128" => write_or_bad_row(answer::<i128>(call, words), f),
        "isize" => write_or_bad_row(answer::<isize>(call, words), f),
        _ => f.write_str("bad row"),
    }
}

fn answer<T: SignedInteger>(call: &str, words: &str) -> Option<Answer<T>> {
    match call {
        "abs_sub" => positive_difference(words),
        "have_unlike_signs" | "is_above_zero" | "neg" | "try_negate" => of_numbers(call, words),
        _ => of_fraction(call, words),
    }
}

fn of_numbers<T: SignedInteger>(call: &str, words: &str) -> Option<Answer<T>> {
    if call == "have_unlike_signs" {
        let (a, b) = two_numbers::<T>(words)?;
        return Some(Answer::Truth(have_unlike_signs(a, b)));
    }
    let a = number::<T>(words)?;
    if call == "is_above_zero" {
        return Some(Answer::Truth(is_above_zero(a)));
    }
    Some(match a.try_negate() {
        Some(negative) if a.negate() == negative && neg(a) == negative => Answer::Number(negative),
        Some(_) => Answer::FormsDiffer,
        None => Answer::Nothing,
    })
}

fn of_fraction<T: SignedInteger>(call: &str, words: &str) -> Option<Answer<T>> {
    let (n, d) = fraction::<T>(words)?;
    if d.is_zero() {
        return None;
    }
    Some(match call {
        "abs" => match n.try_negate() {
            Some(_) => Answer::Number(abs(n, d)),
            None => Answer::Nothing,
        },
        "signum" => Answer::Number(signum(n, d)),
        "is_positive" => Answer::Truth(is_positive(n, d)),
        "is_negative" => Answer::Truth(is_negative(n, d)),
        _ => return None,
    })
}

// The difference that is not below 0, if the checked call returns it.
fn positive_difference<T: SignedInteger>(words: &str) -> Option<Answer<T>> {
    let (a, b, c, d) = two_positive::<T>(words)?;
    Some(match checked_sub(a, b, c, d) {
        Some(_) => of_fields(abs_sub(a, b, c, d)),
        None => Answer::Nothing,
    })
}
