//! Lowest terms of one fraction and of two.
ghost use Rattle.std.specs.Prelude.{◌≢◌, pos, IsTrue};
ghost use Rattle.ratio_integer.specs.Division.{IsGcdAboveMax};

use crate::fields::integers::has_divisor;
use crate::fields::{positive, two_positive};
use ratio_core::checked_new::checked_new;
use ratio_integer::{Integer, both_cancelled, both_lowest_terms, cancelled, lowest_terms};
use rows::answer::{Answer, of_fields, of_pair, of_text};
use rows::notation::{fraction, two_fractions};
use std::alloc::Global;
use std::fmt::Display;

/// Makes the call and returns its answer.
pub fn answer<T: Integer + Display>(alloc: Global, call: &str, words: &str) -> Option<Answer<T>> {
    match call {
        "checked_new" => {
            let (n, d) = fraction(words)?;
            Some(of_pair(checked_new(n, d)))
        }
        "lowest_terms" => {
            let (n, d) = positive(words)?;
            Some(of_fields(lowest_terms(n, d)))
        }
        "cancelled" => match fraction(words)? {
            (n, d) if may_be_cancelled(n, d) => Some(of_fields(cancelled(n, d))),
            _ => None,
        },
        _ => of_both(alloc, call, words),
    }
}

// Whether the denominator is not 0, and the greatest common divisor fits the type for sure.
fn may_be_cancelled<T: Integer>(n: T, d: T) -> bool
    ensures zero { IsTrue result → T.value d ≢ pos 0 }
    ensures divisor { IsTrue result → ¬ (IsGcdAboveMax T.hi (T.value n) (T.value d)) }
{
    !d.is_zero() && has_divisor(n, d)
}

fn of_both<T: Integer + Display>(alloc: Global, call: &str, words: &str) -> Option<Answer<T>> {
    let ((a, b), (c, d)) = match call {
        "both_lowest_terms" => {
            let (a, b, c, d) = two_positive::<T>(words)?;
            both_lowest_terms(a, b, c, d)
        }
        "both_cancelled" => match two_fractions::<T>(words)? {
            ((a, b), (c, d)) if may_be_cancelled(a, b) && may_be_cancelled(c, d) => {
                both_cancelled(a, b, c, d)
            }
            _ => return None,
        },
        _ => return None,
    };
    Some(of_text(format!(in alloc; "{a}/{b} {c}/{d}")))
}
