//! Calls on one fraction: its whole part, all of its digits and its continued fraction.
use super::lists::List;
use super::lowest;
use num_rational::Reduced;
use ratio_integer::{Integer, Primitive};
use rows::answer::{Answer, of_fields, of_reduced, of_text};
use std::alloc::{AllocError, Global};
use std::fmt::Display;

/// The answer, or `None` if no call here has this name, or the word is no fraction.
pub fn answer<T: Primitive + Display>(alloc: Global, call: &str, words: &str) -> Option<Answer<T>> {
    let x = lowest(words)?;
    match call {
        "trunc" => Some(of_reduced(Some(x.trunc()))),
        "exact_decimal" => Some(exact_decimal(alloc, x)),
        "continued_fraction" => Some(of_text(quotients(alloc, x))),
        "convergents" => Some(of_text(convergents(alloc, x))),
        _ => None,
    }
}

fn exact_decimal<T: Primitive>(alloc: Global, x: Reduced<T>) -> Answer<T> {
    match x.exact_decimal() {
        Some(text) => of_text(format!(in alloc; "\"{}\"", text.as_str())),
        None => Answer::Nothing,
    }
}

fn quotients<T: Integer + Display>(alloc: Global, x: Reduced<T>) -> Result<String, AllocError> {
    let mut quotients = Vec::new(alloc);
    for quotient in x.continued_fraction() {
        quotients.push(quotient)?;
    }
    format!(in alloc; "{}", List(quotients.as_slice()))
}

fn convergents<T: Integer + Display>(alloc: Global, x: Reduced<T>) -> Result<String, AllocError> {
    let mut convergents = Vec::new(alloc);
    for convergent in x.convergents() {
        convergents.push(of_fields(convergent.into_raw()))?;
    }
    format!(in alloc; "{}", List(convergents.as_slice()))
}
