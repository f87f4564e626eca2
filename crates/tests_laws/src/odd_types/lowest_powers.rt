//! Every fraction in lowest terms of the three smallest types: its powers, beside a plain model.
use crate::odd_types::fractions::{answers, looked_at};
use crate::odd_types::lowest_sums::{lowest, ratio_in};
use crate::odd_types::plain::{Plain, Range};
use crate::odd_types::walks::{PLACES, pair_at};
use ratio_integer::Integer;
use ratio_odd::{Nat2, Sym5, Two3};
use std::process::Abort;

/// The lowest terms of the power, if they are in range. For an exponent below 0 the numbers change places.
fn power(x: Plain, exponent: i32, range: Range) -> Option<Plain> {
    let numer = (x.n as i128).checked_pow(exponent.unsigned_abs())?;
    let denom = (x.d as i128).checked_pow(exponent.unsigned_abs())?;
    if exponent < 0 {
        range.lowest(denom, numer)
    } else {
        range.lowest(numer, denom)
    }
}

/// Whether the power is the lowest terms exactly if these fit `T`. `None` if `T` does not have the fraction.
fn raised_well<T: Copy + Integer>(x: Plain, exponent: i32, range: Range) -> Option<bool> {
    let base = lowest::<T>(x)?;
    Some(answers(
        ratio_in(base.checked_pow(exponent)),
        power(x, exponent, range),
    ))
}

/// How many powers of such fractions of `T`, with exponents from -4 to 4, there are. Each must be `raised_well`.
fn raised<T: Copy + Integer>(rt: &impl Abort, range: Range) -> u32 {
    let mut powers = 0;
    for i in 0..PLACES {
        for exponent in -4..=4 {
            powers = looked_at(rt, powers, raised_well::<T>(pair_at(i), exponent, range));
        }
    }
    powers
}

#[test]
fn every_power_of_lowest_terms(rt: HostRuntime) {
    // Nine powers of each of the 39, 4 and 9 fractions.
    assert!(rt; raised::<Sym5>(&rt, Range { lo: -5, hi: 5 }) == 351);
    assert!(rt; raised::<Nat2>(&rt, Range { lo: 0, hi: 2 }) == 36);
    assert!(rt; raised::<Two3>(&rt, Range { lo: -3, hi: 2 }) == 81);
}
