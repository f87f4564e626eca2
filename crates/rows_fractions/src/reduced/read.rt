//! Calls that read a fraction: from a decimal, from what a person types, or from a float.
use num_rational::Reduced;
use ratio_integer::Primitive;
use rows::answer::{Answer, of_reduced, of_text};
use rows::notation::text;
use std::alloc::Global;
use std::fmt::Display;

/// The answer, or `None` if no call here has this name, or the words cannot be read.
pub fn answer<T: Primitive>(alloc: Global, call: &str, words: &str) -> Option<Answer<T>> {
    match call {
        "from_decimal" => Some(of_outcome(alloc, Reduced::from_decimal(text(words)?))),
        "from_text" => Some(of_outcome(alloc, Reduced::from_text(text(words)?))),
        "from_float" => Some(of_reduced(Reduced::from_float(words.parse().ok()?))),
        "from_float32" => Some(of_reduced(Reduced::from_float32(words.parse().ok()?))),
        "rationalize" => Some(of_reduced(Reduced::rationalize(words.parse().ok()?))),
        "rationalize32" => Some(of_reduced(Reduced::rationalize32(words.parse().ok()?))),
        _ => None,
    }
}

fn of_outcome<T: Primitive, E: Display + Drop>(
    alloc: Global,
    outcome: Result<Reduced<T>, E>,
) -> Answer<T> {
    match outcome {
        Ok(x) => of_reduced(Some(x)),
        Err(refusal) => of_text(format!(in alloc; "refused: {refusal}")),
    }
}
