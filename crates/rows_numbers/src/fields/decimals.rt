//! Fractions rounded by a rule, decimals and floats.
use crate::fields::{positive, two_positive};
use ratio_decimal::float::nearest::{to_f32, to_f64};
use ratio_decimal::{
    decimal, from_decimal, from_text, round_to, rounded_product, rounded_product_to,
    rounded_quotient, rounded_quotient_to,
};
use ratio_integer::{Integer, Primitive};
use rows::answer::{Answer, of_f32, of_f64, of_number, of_pair, of_text};
use rows::notation::{number, rule, text};
use std::alloc::Global;

/// Makes the call and returns its answer.
pub fn answer<T: Primitive>(alloc: Global, call: &str, words: &str) -> Option<Answer<T>> {
    match call {
        "from_decimal" | "from_text" => read(call, text(words)?),
        "to_f64" | "to_f32" => float(alloc, call, words),
        "round_to" => to_parts(words),
        "decimal" => places::<T>(alloc, words),
        "rounded_product" | "rounded_quotient" => of_two(call, words),
        _ => of_two_to(call, words),
    }
}

fn read<T: Primitive>(call: &str, text: &str) -> Option<Answer<T>> {
    Some(match call {
        "from_decimal" => of_pair(from_decimal(text).ok()),
        _ => of_pair(from_text(text).ok()),
    })
}

fn float<T: Primitive>(alloc: Global, call: &str, words: &str) -> Option<Answer<T>> {
    let (n, d) = positive::<T>(words)?;
    Some(match call {
        "to_f64" => of_f64(alloc, to_f64(n, d)),
        _ => of_f32(alloc, to_f32(n, d)),
    })
}

// A fraction, the parts and the rule.
fn to_parts<T: Integer>(words: &str) -> Option<Answer<T>> {
    let (words, name) = words.rsplit_once(' ')?;
    let (fields, parts) = words.split_once(' ')?;
    let (n, d) = positive::<T>(fields)?;
    let (parts, rule) = (number::<T>(parts)?, rule(name)?);
    if !(T::ZERO < parts) {
        return None;
    }
    Some(of_pair(round_to(n, d, parts, rule)))
}

// A fraction, how many places, and the rule.
fn places<T: Primitive>(alloc: Global, words: &str) -> Option<Answer<T>> {
    let (words, name) = words.rsplit_once(' ')?;
    let (fields, places) = words.split_once(' ')?;
    let (n, d) = positive::<T>(fields)?;
    let (places, rule) = (places.parse::<u32>().ok()?, rule(name)?);
    if places > 38 {
        return None;
    }
    let text = decimal(n, d, places, rule);
    Some(of_text(format!(in alloc; "\"{}\"", text.as_str())))
}

// Two fractions and the rule.
fn of_two<T: Integer>(call: &str, words: &str) -> Option<Answer<T>> {
    let (words, name) = words.rsplit_once(' ')?;
    let (a, b, c, d) = two_positive::<T>(words)?;
    let rule = rule(name)?;
    Some(match call {
        "rounded_product" => of_number(rounded_product(a, b, c, d, rule)),
        _ => of_number(rounded_quotient(a, b, c, d, rule)),
    })
}

// Two fractions, the parts and the rule.
fn of_two_to<T: Integer>(call: &str, words: &str) -> Option<Answer<T>> {
    let (words, name) = words.rsplit_once(' ')?;
    let (words, parts) = words.rsplit_once(' ')?;
    let (a, b, c, d) = two_positive::<T>(words)?;
    let (parts, rule) = (number::<T>(parts)?, rule(name)?);
    if !(T::ZERO < parts) {
        return None;
    }
    Some(match call {
        "rounded_product_to" => of_pair(rounded_product_to(a, b, c, d, parts, rule)),
        "rounded_quotient_to" => of_pair(rounded_quotient_to(a, b, c, d, parts, rule)),
        _ => return None,
    })
}
