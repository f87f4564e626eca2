//! Calls of `BigFraction`. A fraction in a row is a text of any length: `-3/2`, `1e400`.
mod harmonic;
mod lists;
mod made;
mod one;
mod rules;
mod two;
mod written;

use ratio_big::BigFraction;
use rows::answer::{Answer, write_or_no_memory};
use rows::notation::text;
use std::alloc::{AllocError, Global};
use std::fmt;
use written::fraction;

/// Makes the call, and writes its answer.
pub fn write_answer<W: fmt::Write>(
    alloc: Global,
    call: &str,
    words: &str,
    f: &mut fmt::Formatter<W>,
) -> fmt::Result {
    write_or_no_memory(answer(alloc, call, words), f)
}

fn answer(alloc: Global, call: &str, words: &str) -> Result<Answer<i64>, AllocError> {
    if call == "harmonic" {
        return harmonic::answer(alloc, words);
    }
    if let Some(source) = call.strip_prefix("from_") {
        return match text(words) {
            Some(text) => made::of_text(alloc, source, text),
            None => made::of_words(alloc, source, words),
        };
    }
    match words.split_once(' ') {
        Some((first, rest)) => match fraction(alloc, first)? {
            Some(x) => of_more(alloc, call, &x, rest),
            None => Ok(Answer::BadRow),
        },
        None => match fraction(alloc, words)? {
            Some(x) => one::answer(alloc, call, &x),
            None => Ok(Answer::BadRow),
        },
    }
}

// The calls on a fraction and something else.
fn of_more(
    alloc: Global,
    call: &str,
    x: &BigFraction,
    rest: &str,
) -> Result<Answer<i64>, AllocError> {
    match call {
        "decimal" => rules::decimal(alloc, x, rest),
        "round_to" => rules::multiple(alloc, x, rest),
        "round_to_multiple_of" => rules::multiple_of_step(alloc, x, rest),
        "append_text" => made::longer_text(alloc, x, rest),
        "pow" => two::power(alloc, x, rest),
        "pow_within" => two::power_within(alloc, x, rest),
        _ => match fraction(alloc, rest)? {
            Some(y) => two::answer(alloc, call, x, &y),
            None => Ok(Answer::BadRow),
        },
    }
}
