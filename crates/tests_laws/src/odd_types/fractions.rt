//! Fractions over any type, from and to plain numbers.
use crate::odd_types::plain::Plain;
use num_rational::Ratio;
use ratio_integer::Integer;
use std::process::Abort;

/// The fraction with these fields, if the denominator is not 0.
pub fn raw<T: Integer>(numer: T, denom: T) -> Option<Ratio<T>> {
    if denom.is_zero() {
        None
    } else {
        Some(Ratio::new_raw(numer, denom))
    }
}

/// The fraction with these fields, if `T` has both.
pub fn fraction<T: Integer>(x: Plain) -> Option<Ratio<T>> {
    raw(T::from_i128(x.n as i128)?, T::from_i128(x.d as i128)?)
}

/// Whether the fraction has these fields.
pub fn has<T: Integer>(x: Ratio<T>, n: i128, d: i128) -> bool {
    x.numer().to_i128() == Some(n) && x.denom().to_i128() == Some(d)
}

/// Whether the result is the wanted one.
pub fn answers<T: Integer>(answer: Option<Ratio<T>>, wanted: Option<Plain>) -> bool {
    match (answer, wanted) {
        (Some(x), Some(y)) => has(x, y.n as i128, y.d as i128),
        (None, None) => true,
        _ => false,
    }
}

/// Counts a case if there is one, and asserts that it is well.
pub fn looked_at(rt: &impl Abort, before: u32, well: Option<bool>) -> u32 {
    match well {
        Some(is_well) => {
            assert!(rt; is_well);
            before.wrapping_add(1)
        }
        None => before,
    }
}
