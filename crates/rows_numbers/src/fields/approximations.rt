//! The nearest fraction, and the simplest one between two or within bounds.
ghost use Rattle.std.specs.Prelude.{IfSome};
ghost use Rattle.ratio_approximation.specs.Bounds.{HasPositiveDenominator, numbers_in};

use crate::fields::{agreed, positive, two_positive};
use ratio_approximation::nearest::{nearest, nearest_counted};
use ratio_approximation::simplest::{simplest_between, simplest_between_counted, simplest_within};
use ratio_core::Steps;
use ratio_integer::Integer;
use rows::answer::{Answer, of_pair};
use rows::notation::{fraction, number};
use std::ops::Bound;

/// Makes the call and returns its answer.
pub fn answer<T: Integer>(call: &str, words: &str) -> Option<Answer<T>> {
    match call {
        "nearest" => near(words),
        "simplest_between" => between(words),
        "simplest_within" => within(words),
        _ => None,
    }
}

// The nearest fraction, with and without a count of the steps.
fn near<T: Integer>(words: &str) -> Option<Answer<T>> {
    let (fields, most) = words.split_once(' ')?;
    let (n, d) = positive::<T>(fields)?;
    let most = number::<T>(most)?;
    if !(T::ZERO < most) {
        return None;
    }
    let counted = nearest_counted(n, d, most, &mut Steps::new());
    Some(agreed(nearest(n, d, most), counted))
}

// The simplest fraction between two, with and without a count of the steps.
fn between<T: Integer>(words: &str) -> Option<Answer<T>> {
    let (n, d, m, e) = two_positive::<T>(words)?;
    let fields = simplest_between(n, d, m, e);
    Some(if simplest_between_counted(n, d, m, e, &mut Steps::new()) == fields {
        of_pair(fields)
    } else {
        Answer::FormsDiffer
    })
}

// The simplest fraction within two bounds.
fn within<T: Integer>(words: &str) -> Option<Answer<T>> {
    let (low, high) = words.split_once(' ')?;
    let (low, high) = (bound::<T>(low, '>')?, bound::<T>(high, '<')?);
    Some(of_pair(simplest_within(low, high)))
}

// The bound of a word, whose sign is `>` or `<`: `>=1/2` includes its end, `>1/2` does not, and `any` has none.
fn bound<T: Integer>(word: &str, sign: char) -> Option<Bound<(T, T)>>
    ensures { IfSome result (λ bound. HasPositiveDenominator (numbers_in T.value bound)) }
{
    if word == "any" {
        return Some(Bound::Unbounded);
    }
    let word = word.strip_prefix(sign)?;
    let (word, is_included) = match word.strip_prefix('=') {
        Some(end) => (end, true),
        None => (word, false),
    };
    let end = fraction::<T>(word)?;
    if !(T::ZERO < end.1) {
        return None;
    }
    if is_included {
        Some(Bound::Included(end))
    } else {
        Some(Bound::Excluded(end))
    }
}
