//! The simplest fraction within two bounds: `>=1/3 <1/2` has 1/3 and all that is below 1/2, and `>5/2 any` all that is above 5/2.
use super::lowest;
use num_rational::Reduced;
use ratio_integer::Integer;
use rows::answer::{Answer, of_reduced};
use std::ops::Bound;

/// The answer, or `None` if the call has another name, or the words are not two bounds.
pub fn answer<T: Copy + Integer>(call: &str, words: &str) -> Option<Answer<T>> {
    if call != "simplest_within" {
        return None;
    }
    let (low, high) = words.split_once(' ')?;
    let found = Reduced::simplest_within(bound(low, '>')?, bound(high, '<')?);
    Some(of_reduced(found))
}

fn bound<T: Copy + Integer>(word: &str, sign: char) -> Option<Bound<Reduced<T>>> {
    if word == "any" {
        return Some(Bound::Unbounded);
    }
    let word = word.strip_prefix(sign)?;
    match word.strip_prefix('=') {
        Some(end) => Some(Bound::Included(lowest(end)?)),
        None => Some(Bound::Excluded(lowest(word)?)),
    }
}
