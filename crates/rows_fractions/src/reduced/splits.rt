//! Amounts split by shares or by weights. A row has the parts as they are before, and its answer those after: at a refusal, the same.
use super::lists::{List, fractions, numbers};
use num_rational::{split, split_by_weights};
use ratio_integer::Integer;
use rows::answer::{Answer, of_text};
use rows::notation::number;
use std::alloc::Global;
use std::fmt::Display;

/// The answer, or `None` if no call here has this name, or the words cannot be read.
pub fn answer<T: Integer + Display>(alloc: Global, call: &str, words: &str) -> Option<Answer<T>> {
    let (amount, lists) = words.split_once(' ')?;
    let amount = number(amount)?;
    let (shares, parts) = lists.split_once(' ')?;
    let mut parts = numbers(alloc, parts)?;
    match call {
        "split" => {
            let shares = fractions(alloc, shares)?;
            let outcome = split(amount, shares.as_slice(), parts.as_mut_slice());
            Some(of_parts(alloc, parts.as_slice(), outcome))
        }
        "split_by_weights" => {
            let weights = numbers(alloc, shares)?;
            let outcome = split_by_weights(amount, weights.as_slice(), parts.as_mut_slice());
            Some(of_parts(alloc, parts.as_slice(), outcome))
        }
        _ => None,
    }
}

fn of_parts<T: Display, E: Display + Drop>(
    alloc: Global,
    parts: &[T],
    outcome: Result<(), E>,
) -> Answer<T> {
    let parts = List(parts);
    of_text(match outcome {
        Ok(()) => format!(in alloc; "{parts}"),
        Err(refusal) => format!(in alloc; "{parts} refused: {refusal}"),
    })
}
