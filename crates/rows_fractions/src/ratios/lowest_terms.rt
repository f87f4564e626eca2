//! The lowest terms of two fields, by every call that makes them.
use crate::ratios::raw;
use num_rational::{Ratio, Reduced};
use ratio_integer::Integer;
use rows::answer::{Answer, of_pair};
use rows::notation::fraction;

/// Makes the calls.
pub fn answer<T: Integer>(words: &str) -> Option<Answer<T>> {
    let (numer, denom) = fraction::<T>(words)?;
    let made = Ratio::checked_new(numer, denom).map(Ratio::into_raw);
    let is_same = required(numer, denom) == made
        && Reduced::checked_new(numer, denom).map(Reduced::into_raw) == made
        && (denom.is_zero() || taken(numer, denom) == made);
    Some(if is_same {
        of_pair(made)
    } else {
        Answer::FormsDiffer
    })
}

// Those of the calls that require that `checked_new` returns them.
fn required<T: Integer>(numer: T, denom: T) -> Option<(T, T)> {
    match Ratio::checked_new(numer, denom) {
        Some(_) => {
            let made = Ratio::new(numer, denom).into_raw();
            let is_same = Ratio::from_pair((numer, denom)).into_raw() == made
                && Ratio::new_raw(numer, denom).reduced().into_raw() == made;
            if is_same { Some(made) } else { None }
        }
        None => None,
    }
}

// Those that `Reduced` takes from the fraction with these fields.
fn taken<T: Integer>(numer: T, denom: T) -> Option<(T, T)> {
    let taken = Reduced::from_ratio(&raw((numer, denom))?)?;
    Some(taken.to_ratio().into_raw())
}
