//! Powers of fractions in lowest terms, which are `Some` exactly if the lowest terms of the power fit the type.
//!
//! The two powers of the fields have no common divisor, so they are the lowest terms. A negative exponent turns
//! the fraction over first, before anything is multiplied. So over `i8`, -1/2 to the -7 is -2/1 to the 7, which
//! is -128/1. The number 128 is never formed.
ghost use Rattle.ratio_integer.specs.Fraction.{ChecksLowest, IsLowestTerms};
ghost use Rattle.ratio_core.specs.Power.{power_of};

use crate::exponent::Exponent;
use crate::pow::{checked_recip, try_powers};
use ratio_integer::Integer;

/// The lowest terms of `n/d` to the `e`, or `None` if they do not fit the type, or if `n` is 0 and `e` is below 0.
/// The fraction must be in lowest terms. Over `i8`, -1/2 to the 7 would be -1/128.
pub fn checked_pow_with<T: Integer, E: Exponent>(n: T, d: T, e: E) -> Option<(T, T)>
    requires { IsLowestTerms (T.value n) (T.value d) }
    ensures { ChecksLowest (λ r. T.value r.0) (λ r. T.value r.1) T.lo T.hi
        (power_of (T.value n) (T.value d) (E.number e)) result }
{
    let (upper, lower) = if e.is_below_zero() {
        checked_recip(n, d)?
    } else {
        (n, d)
    };
    try_powers(upper, lower, e.magnitude())
}
