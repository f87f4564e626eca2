//! Rounding and signs of every fraction of the three smallest types, compared with a plain model.
use crate::odd_types::fractions::{fraction, has, looked_at};
use crate::odd_types::plain::{self, Plain, Range};
use num_rational::Ratio;
use ratio_integer::{Integer, SignedInteger};
use ratio_odd::{Nat2, Sym5, Two3};
use std::process::Abort;
use std::test::Fail;

/// Whether the fraction is the wanted number over 1.
fn is_whole<T: Integer>(x: Ratio<T>, wanted: Option<i8>) -> bool {
    match wanted {
        Some(z) => has(x, z as i128, 1),
        None => false,
    }
}

/// Whether `part` is what `x` leaves without the whole number, over the denominator of `x`.
fn is_rest<T: Integer>(part: Ratio<T>, x: Plain, whole: Option<i8>) -> bool {
    match whole {
        Some(z) => has(part, plain::rest(x, z), x.d as i128),
        None => false,
    }
}

/// Whether each rounding call returns what the model does, if `T` has
/// the fraction and its denominator is positive.
fn rounded_well<T: Integer>(x: Plain, range: Range) -> Option<bool> {
    let value = fraction::<T>(x)?;
    if T::ZERO < *value.denom() {
        Some(
            is_whole(value.floor(), range.floor(x))
                && is_whole(value.ceil(), range.ceiling(x))
                && is_whole(value.round(), range.rounded(x))
                && is_whole(value.trunc(), range.truncated(x))
                && is_rest(value.fract(), x, range.truncated(x)),
        )
    } else {
        None
    }
}

/// Whether the negative has the model's numerator over the same denominator, if `T` has both.
fn negated_well<T: SignedInteger>(x: Plain) -> Option<bool> {
    let value = fraction::<T>(x)?;
    let _ = value.numer().try_negate()?;
    Some(has(value.neg(), plain::minus(0, x.n as i128), x.d as i128))
}

/// Whether the absolute value is the model's, over the same denominator, if `T` has both.
fn absolute_well<T: SignedInteger>(x: Plain) -> Option<bool> {
    let value = fraction::<T>(x)?;
    if plain::sign(x) < 0 {
        let _ = value.numer().try_negate()?;
        Some(has(value.abs(), plain::minus(0, x.n as i128), x.d as i128))
    } else if value.is_negative() {
        Some(false)
    } else {
        Some(has(value.abs(), x.n as i128, x.d as i128))
    }
}

/// Whether the sign is the model's, if `T` has the fraction.
fn signed_well<T: SignedInteger>(x: Plain) -> Option<bool> {
    let value = fraction::<T>(x)?;
    Some(is_whole(value.signum(), Some(plain::sign(x))))
}

/// How many fractions of `T` are rounded as in the model.
fn rounded<T: Integer>(rt: &impl Abort, range: Range) -> u32 {
    let mut looked = 0;
    for n in -5..=5 {
        for d in -5..=5 {
            looked = looked_at(rt, looked, rounded_well::<T>(Plain { n, d }, range));
        }
    }
    looked
}

/// How many fractions of `T` have the negative, the absolute
/// value and the sign of the model: three counts.
fn signed<T: SignedInteger>(rt: &impl Abort) -> (u32, u32, u32) {
    let mut negated = 0;
    let mut absolute = 0;
    let mut signed = 0;
    for n in -5..=5 {
        for d in -5..=5 {
            negated = looked_at(rt, negated, negated_well::<T>(Plain { n, d }));
            absolute = looked_at(rt, absolute, absolute_well::<T>(Plain { n, d }));
            signed = looked_at(rt, signed, signed_well::<T>(Plain { n, d }));
        }
    }
    (negated, absolute, signed)
}

#[test]
fn every_rounding(rt: HostRuntime) -> Result<(), Fail> {
    let sym5 = rounded::<Sym5>(&rt, Range { lo: -5, hi: 5 });
    let nat2 = rounded::<Nat2>(&rt, Range { lo: 0, hi: 2 });
    let two3 = rounded::<Two3>(&rt, Range { lo: -3, hi: 2 });
    println!(rt; "rounded: {sym5}, {nat2}, {two3}")?;
    assert!(rt; sym5 == 55 && nat2 == 6 && two3 == 12);
    Ok(())
}

#[test]
fn every_sign(rt: HostRuntime) -> Result<(), Fail> {
    let sym5 = signed::<Sym5>(&rt);
    let two3 = signed::<Two3>(&rt);
    println!(rt; "signs: {}, {}", sym5.2, two3.2)?;
    assert!(rt; sym5 == (110, 110, 110) && two3 == (25, 28, 30));
    Ok(())
}
