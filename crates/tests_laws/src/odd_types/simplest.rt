//! Every pair of fractions in lowest terms of the three smallest types: the simplest fraction between them, and within
//! them as bounds of each kind, beside a plain model.
use crate::odd_types::fractions::{answers, looked_at};
use crate::odd_types::lowest_sums::{lowest, ratio_in};
use crate::odd_types::plain::{Plain, Range, order};
use crate::odd_types::walks::{PLACES, pair_at};
use num_rational::Reduced;
use ratio_integer::Integer;
use ratio_odd::{Nat2, Sym5, Two3};
use std::ops::Bound;
use std::process::Abort;

/// A bound of one of the three kinds.
fn bound<A: Copy>(kind: u8, end: A) -> Bound<A> {
    match kind {
        0 => Bound::Included(end),
        1 => Bound::Excluded(end),
        _ => Bound::Unbounded,
    }
}

/// Whether `x` is within both bounds.
fn is_within(x: Plain, low: Bound<Plain>, high: Bound<Plain>) -> bool {
    let is_from = match low {
        Bound::Included(end) => order(x, end).is_ge(),
        Bound::Excluded(end) => order(x, end).is_gt(),
        Bound::Unbounded => true,
    };
    let is_up_to = match high {
        Bound::Included(end) => order(x, end).is_le(),
        Bound::Excluded(end) => order(x, end).is_lt(),
        Bound::Unbounded => true,
    };
    is_from && is_up_to
}

/// The first fraction of the range within both bounds, by its denominator and then by how far its numerator is from 0.
fn first_within(range: Range, low: Bound<Plain>, high: Bound<Plain>) -> Option<Plain> {
    for d in 1..=range.hi {
        for size in 0..=5i8 {
            for n in [size, 0i8.wrapping_sub(size)] {
                let x = Plain { n, d };
                if range.holds(n as i128) && is_within(x, low, high) {
                    return Some(x);
                }
            }
        }
    }
    None
}

/// Whether both calls return what the model does, for bounds of each kind. `None` if `T` does not have both fractions.
fn found_well<T: Copy + Integer>(x: Plain, y: Plain, range: Range) -> Option<bool> {
    let low = lowest::<T>(x)?;
    let high = lowest::<T>(y)?;
    let between = Reduced::simplest_between(&low, &high);
    let wanted = first_within(range, Bound::Excluded(x), Bound::Excluded(y));
    if !answers(ratio_in(between), wanted) {
        return Some(false);
    }
    for i in 0..3u8 {
        for j in 0..3u8 {
            let within = Reduced::simplest_within(bound(i, low), bound(j, high));
            if !answers(
                ratio_in(within),
                first_within(range, bound(i, x), bound(j, y)),
            ) {
                return Some(false);
            }
        }
    }
    Some(true)
}

/// How many pairs of such fractions `T` has. Each must be `found_well`.
fn pairs_found<T: Copy + Integer>(rt: &impl Abort, range: Range) -> u32 {
    let mut pairs = 0;
    for i in 0..PLACES {
        for j in 0..PLACES {
            pairs = looked_at(rt, pairs, found_well::<T>(pair_at(i), pair_at(j), range));
        }
    }
    pairs
}

#[test]
fn every_pair_of_ends(rt: HostRuntime) {
    assert!(rt; pairs_found::<Sym5>(&rt, Range { lo: -5, hi: 5 }) == 1_521);
    assert!(rt; pairs_found::<Nat2>(&rt, Range { lo: 0, hi: 2 }) == 16);
    assert!(rt; pairs_found::<Two3>(&rt, Range { lo: -3, hi: 2 }) == 81);
}
