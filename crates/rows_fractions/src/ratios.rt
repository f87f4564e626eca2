//! Calls that `Ratio` and `Reduced` share, over the twelve types. A row asks both types.
//!
//! `Reduced` has lowest terms. So where the fields of a row as they are matter, it is asked only if they are lowest terms.
mod lowest_terms;
mod order;
mod texts;

use num_rational::Ratio;
use ratio_integer::{Integer, Primitive};
use rows::answer::Answer;
use rows::types::{Asked, OverTypes};
use std::fmt::Display;

/// The calls of this module.
#[derive(Clone, Copy, Drop)]
pub struct Ratios;

impl OverTypes for Ratios {
    fn answer<T: Primitive + Display>(&self, asked: Asked<'_>) -> Option<Answer<T>> {
        match asked.call {
            "checked_new" => lowest_terms::answer(asked.words),
            "cmp" => order::answer(asked.words),
            "from_str" => texts::read(asked.alloc, asked.words),
            "from_str_radix" => texts::read_in_base(asked.alloc, asked.words),
            "text" => texts::written(asked.alloc, asked.words),
            _ => None,
        }
    }
}

// The fraction with these fields, if its denominator is not 0.
fn raw<T: Integer>(fields: (T, T)) -> Option<Ratio<T>> {
    let (numer, denom) = fields;
    if denom.is_zero() {
        None
    } else {
        Some(Ratio::new_raw(numer, denom))
    }
}
