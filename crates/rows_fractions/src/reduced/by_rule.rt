//! Calls that take a rule of rounding. A row without a rule has the answers by all six, in the order of `Rounding`.
use super::{lowest, two_lowest};
use num_rational::{Reduced, Rounding};
use ratio_integer::Primitive;
use rows::answer::{Answer, of_number, of_reduced, of_text};
use rows::notation::{number, rule};
use std::alloc::Global;
use std::fmt::Display;

// A call with all that it takes but the rule.
#[derive(Clone, Copy)]
enum Rounded<T: Copy + Primitive> {
    Product(Reduced<T>, Reduced<T>),
    Quotient(Reduced<T>, Reduced<T>),
    ProductTo(Reduced<T>, Reduced<T>, T),
    QuotientTo(Reduced<T>, Reduced<T>, T),
    Multiple(Reduced<T>, T),
    Decimal(Reduced<T>, u32),
}

/// The answer, or `None` if no call here has this name, or the words cannot be read.
pub fn answer<T: Primitive + Display>(alloc: Global, call: &str, words: &str) -> Option<Answer<T>> {
    if let Some((words, last)) = words.rsplit_once(' ') {
        if let Some(rule) = rule(last) {
            return Some(by(alloc, asked(call, words)?, rule));
        }
    }
    Some(by_each(alloc, asked(call, words)?))
}

fn asked<T: Primitive>(call: &str, words: &str) -> Option<Rounded<T>> {
    match call {
        "checked_mul_round" | "checked_div_round" => asked_whole(call, words),
        "checked_mul_round_to" | "checked_div_round_to" => asked_parts(call, words),
        "round_to" => {
            let (x, parts) = words.split_once(' ')?;
            Some(Rounded::Multiple(lowest(x)?, number(parts)?))
        }
        "decimal" => {
            let (x, places) = words.split_once(' ')?;
            Some(Rounded::Decimal(lowest(x)?, places.parse().ok()?))
        }
        _ => None,
    }
}

fn asked_whole<T: Primitive>(call: &str, words: &str) -> Option<Rounded<T>> {
    let (x, y) = two_lowest(words)?;
    Some(if call == "checked_mul_round" {
        Rounded::Product(x, y)
    } else {
        Rounded::Quotient(x, y)
    })
}

fn asked_parts<T: Primitive>(call: &str, words: &str) -> Option<Rounded<T>> {
    let (fractions, parts) = words.rsplit_once(' ')?;
    let (x, y) = two_lowest(fractions)?;
    let parts = number(parts)?;
    Some(if call == "checked_mul_round_to" {
        Rounded::ProductTo(x, y, parts)
    } else {
        Rounded::QuotientTo(x, y, parts)
    })
}

fn by_each<T: Primitive + Display>(alloc: Global, asked: Rounded<T>) -> Answer<T> {
    of_text(format!(in alloc;
        "{} {} {} {} {} {}",
        by(alloc, asked, Rounding::HalfAway),
        by(alloc, asked, Rounding::HalfEven),
        by(alloc, asked, Rounding::Down),
        by(alloc, asked, Rounding::Up),
        by(alloc, asked, Rounding::Floor),
        by(alloc, asked, Rounding::Ceil)
    ))
}

fn by<T: Primitive>(alloc: Global, asked: Rounded<T>, rule: Rounding) -> Answer<T> {
    match asked {
        Rounded::Product(x, y) => of_number(x.checked_mul_round(y, rule)),
        Rounded::Quotient(x, y) => of_number(x.checked_div_round(y, rule)),
        Rounded::ProductTo(x, y, parts) => {
            if T::ZERO < parts {
                of_reduced(x.checked_mul_round_to(y, parts, rule))
            } else {
                Answer::BadRow
            }
        }
        Rounded::QuotientTo(x, y, parts) => {
            if T::ZERO < parts {
                of_reduced(x.checked_div_round_to(y, parts, rule))
            } else {
                Answer::BadRow
            }
        }
        Rounded::Multiple(x, parts) => {
            if T::ZERO < parts {
                of_reduced(x.round_to(parts, rule))
            } else {
                Answer::BadRow
            }
        }
        Rounded::Decimal(x, places) => {
            if places <= 38 {
                of_text(format!(in alloc; "\"{}\"", x.decimal(places, rule).as_str()))
            } else {
                Answer::BadRow
            }
        }
    }
}
