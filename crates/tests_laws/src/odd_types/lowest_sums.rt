//! Every pair of fractions in lowest terms of the three smallest types: their sum and difference, beside a plain model.
use crate::odd_types::fractions::{answers, looked_at};
use crate::odd_types::plain::{Plain, Range, minus, times};
use crate::odd_types::walks::{PLACES, pair_at};
use num_rational::{Ratio, Reduced};
use ratio_integer::Integer;
use ratio_odd::{Nat2, Sym5, Two3};
use std::process::Abort;

/// The fraction with these fields, if `T` has both and they are lowest terms.
pub(crate) fn lowest<T: Copy + Integer>(x: Plain) -> Option<Reduced<T>> {
    let made = Reduced::checked_new(T::from_i128(x.n as i128)?, T::from_i128(x.d as i128)?)?;
    let same = answers(Some(made.to_ratio()), Some(x));
    if same { Some(made) } else { None }
}

/// The same result, as a `Ratio`.
pub(crate) fn ratio_in<T: Copy + Integer>(answer: Option<Reduced<T>>) -> Option<Ratio<T>> {
    Some(answer?.to_ratio())
}

/// Whether the sum and the difference are the lowest terms exactly if these fit `T`. `None` if `T` does not
/// have both fractions.
fn added_well<T: Copy + Integer>(x: Plain, y: Plain, range: Range) -> Option<bool> {
    let left = lowest::<T>(x)?;
    let right = lowest::<T>(y)?;
    let first = times(x.n as i128, y.d as i128);
    let second = times(y.n as i128, x.d as i128);
    let denom = times(x.d as i128, y.d as i128);
    let sum = range.lowest(first.wrapping_add(second), denom);
    let difference = range.lowest(minus(first, second), denom);
    Some(
        answers(ratio_in(left.checked_add(right)), sum)
            && answers(ratio_in(left.checked_sub(right)), difference),
    )
}

/// How many pairs of such fractions `T` has. Each must be `added_well`.
fn pairs_added<T: Copy + Integer>(rt: &impl Abort, range: Range) -> u32 {
    let mut pairs = 0;
    for i in 0..PLACES {
        for j in 0..PLACES {
            pairs = looked_at(rt, pairs, added_well::<T>(pair_at(i), pair_at(j), range));
        }
    }
    pairs
}

#[test]
fn every_pair_of_lowest_terms(rt: HostRuntime) {
    assert!(rt; pairs_added::<Sym5>(&rt, Range { lo: -5, hi: 5 }) == 1_521);
    assert!(rt; pairs_added::<Nat2>(&rt, Range { lo: 0, hi: 2 }) == 16);
    assert!(rt; pairs_added::<Two3>(&rt, Range { lo: -3, hi: 2 }) == 81);
}
