//! Calls of `Reduced`, and of the functions beside it that take lists of fractions or of numbers, over the twelve types.
mod by_rule;
mod casts;
mod floats;
mod lists;
mod on_one;
mod on_two;
mod read;
mod splits;
mod within;

use num_rational::Reduced;
use ratio_integer::{Integer, Primitive};
use rows::answer::Answer;
use rows::notation::fraction;
use rows::types::{Asked, OverTypes};
use std::fmt::Display;

/// The calls of this module.
#[derive(Clone, Copy, Drop)]
pub struct ReducedCalls;

impl OverTypes for ReducedCalls {
    // The module that has the call answers. The others return `None`, as they do for words that cannot be read.
    fn answer<T: Primitive + Display>(&self, asked: Asked<'_>) -> Option<Answer<T>> {
        let (alloc, call, words) = (asked.alloc, asked.call, asked.words);
        on_two::answer(call, words)
            .or_else(|| on_one::answer(alloc, call, words))
            .or_else(|| floats::answer(alloc, call, words))
            .or_else(|| by_rule::answer(alloc, call, words))
            .or_else(|| read::answer(alloc, call, words))
            .or_else(|| lists::answer(alloc, call, words))
            .or_else(|| splits::answer(alloc, call, words))
            .or_else(|| within::answer(call, words))
            .or_else(|| casts::answer::<T>(alloc, call, words))
    }
}

// The lowest terms of a fraction as it is written. A row whose lowest terms do not fit the type cannot be read.
fn lowest<T: Copy + Integer>(word: &str) -> Option<Reduced<T>> {
    let (numer, denom) = fraction(word)?;
    Reduced::checked_new(numer, denom)
}

// The lowest terms of two fractions.
fn two_lowest<T: Copy + Integer>(words: &str) -> Option<(Reduced<T>, Reduced<T>)> {
    let (left, right) = words.split_once(' ')?;
    Some((lowest(left)?, lowest(right)?))
}
