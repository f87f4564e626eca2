//! Powers of every fraction of the three smallest types, compared with a plain model.
use crate::odd_types::fractions::{fraction, has, looked_at};
use crate::odd_types::plain::{self, Plain, Range};
use ratio_integer::Integer;
use ratio_odd::{Nat2, Sym5, Two3};
use std::process::Abort;
use std::test::Fail;

/// The power's numerator and denominator, if the type holds them. Each number is
/// raised to the magnitude of the exponent. For a negative exponent they are then
/// exchanged, with the sign in the numerator.
fn power(x: Plain, exponent: i32, range: Range) -> Option<(i128, i128)> {
    let numer = (x.n as i128).checked_pow(exponent.unsigned_abs())?;
    let denom = (x.d as i128).checked_pow(exponent.unsigned_abs())?;
    if !range.holds(numer) || !range.holds(denom) {
        return None;
    }
    if exponent >= 0 {
        Some((numer, denom))
    } else {
        turned_over(numer, denom, range)
    }
}

/// The denominator over the numerator, with the sign in the numerator, if the type holds both.
fn turned_over(numer: i128, denom: i128, range: Range) -> Option<(i128, i128)> {
    let below = plain::minus(0, numer);
    if numer > 0 {
        Some((denom, numer))
    } else if numer < 0 && range.holds(below) {
        Some((plain::minus(0, denom), below))
    } else {
        None
    }
}

/// Whether `checked_pow` returns what the model does, if `T` has
/// the fraction and its denominator is positive.
fn raised_well<T: Integer>(x: Plain, exponent: i32, range: Range) -> Option<bool> {
    let value = fraction::<T>(x)?;
    if T::ZERO < *value.denom() {
        Some(
            match (value.checked_pow(exponent), power(x, exponent, range)) {
                (Some(answer), Some((numer, denom))) => has(answer, numer, denom),
                (None, None) => true,
                _ => false,
            },
        )
    } else {
        None
    }
}

/// How many powers of fractions of `T`, with exponents from -4 to 4, are as in the model.
fn raised<T: Integer>(rt: &impl Abort, range: Range) -> u32 {
    let mut looked = 0;
    for n in -5..=5 {
        for d in 1..=5 {
            for exponent in -4..=4 {
                looked = looked_at(
                    rt,
                    looked,
                    raised_well::<T>(Plain { n, d }, exponent, range),
                );
            }
        }
    }
    looked
}

#[test]
fn every_power(rt: HostRuntime) -> Result<(), Fail> {
    let sym5 = raised::<Sym5>(&rt, Range { lo: -5, hi: 5 });
    let nat2 = raised::<Nat2>(&rt, Range { lo: 0, hi: 2 });
    let two3 = raised::<Two3>(&rt, Range { lo: -3, hi: 2 });
    println!(rt; "raised: {sym5}, {nat2}, {two3}")?;
    assert!(rt; sym5 == 495 && nat2 == 54 && two3 == 108);
    Ok(())
}
