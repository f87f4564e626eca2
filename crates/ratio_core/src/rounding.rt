//! Whole numbers near a fraction (floor, ceiling, truncation, rounded), its fractional part, and its whole part as an `i64`, `i128`, `u64`
//! or `u128`.
//!
//! Each call requires only a positive denominator. It divides once, and no step overflows: nothing is
//! doubled, and nothing is added before the division.
ghost use Rattle.std.specs.Prelude.{◌≡◌, ◌↔◌, ◌-◌, ◌^◌, ◌<ℤ◌, ◌+ℤ◌, ◌-ℤ◌, pos, IsTrue};
ghost use Rattle.ratio_integer.specs.Range.{IsHeld};
ghost use Rattle.ratio_integer.specs.SignedBits.{greatest128, greatest64, least128, least64};
ghost use Rattle.ratio_core.specs.Rounding.{ChecksTruncation, IsBelowHalf, IsCeiling, IsTruncatedDivision, IsFloor, IsFractionalPart, IsRest, IsRounded, IsTruncation};

use crate::sign::{is_above_zero, is_below_zero};
use ratio_integer::Integer;

/// The greatest whole number that is not above `n/d`: -4 for -7/2.
pub fn floor<T: Integer>(n: T, d: T) -> T
    requires { pos 0 <ℤ T.value d }
    ensures { IsFloor (T.value n) (T.value d) (T.value result) }
{
    let (whole, rest) = cut(n, d);
    if is_below_zero(rest) {
        previous(whole)
    } else {
        whole
    }
}

/// The least whole number that is not below `n/d`: -3 for -7/2.
pub fn ceil<T: Integer>(n: T, d: T) -> T
    requires { pos 0 <ℤ T.value d }
    ensures { IsCeiling (T.value n) (T.value d) (T.value result) }
{
    let (whole, rest) = cut(n, d);
    if is_above_zero(rest) {
        next(whole)
    } else {
        whole
    }
}

/// `n/d` cut towards zero: -3 for -7/2.
pub fn trunc<T: Integer>(n: T, d: T) -> T
    requires { pos 0 <ℤ T.value d }
    ensures { IsTruncation (T.value n) (T.value d) (T.value result) }
{
    cut(n, d).0
}

/// The whole number nearest to `n/d`. A half is rounded away from zero: 5/2 to 3.
pub fn round<T: Integer>(n: T, d: T) -> T
    requires { pos 0 <ℤ T.value d }
    ensures { IsRounded (T.value n) (T.value d) (T.value result) }
{
    let (whole, rest) = cut(n, d);
    if is_below_half(rest, d) {
        whole
    } else if is_below_zero(rest) {
        previous(whole)
    } else {
        next(whole)
    }
}

/// The numerator, over `d`, of `n/d` minus its `trunc`: -1 for -7/2. It is 0 or has the sign of `n`.
pub fn fract<T: Integer>(n: T, d: T) -> T
    requires { pos 0 <ℤ T.value d }
    ensures { IsFractionalPart (T.value n) (T.value d) (T.value result) }
{
    cut(n, d).1
}

/// What `trunc` returns, by the name of the call of `num-rational` whose result is a number and no fraction.
pub fn to_integer<T: Integer>(n: T, d: T) -> T
    requires { pos 0 <ℤ T.value d }
    ensures { IsTruncation (T.value n) (T.value d) (T.value result) }
{
    trunc(n, d)
}

/// `trunc` as an `i64`, or `None` if it does not fit that type.
pub fn to_i64<T: Integer>(n: T, d: T) -> Option<i64>
    requires { pos 0 <ℤ T.value d }
    ensures { ChecksTruncation (λ y. y) least64 greatest64 (T.value n) (T.value d) result }
{
    i64::from_i128(trunc(n, d).to_i128()?)
}

/// `trunc` as an `i128`, or `None` if it does not fit that type.
pub fn to_i128<T: Integer>(n: T, d: T) -> Option<i128>
    requires { pos 0 <ℤ T.value d }
    ensures { ChecksTruncation (λ y. y) least128 greatest128 (T.value n) (T.value d) result }
{
    trunc(n, d).to_i128()
}

/// `trunc` as a `u64`, or `None` if it does not fit that type.
pub fn to_u64<T: Integer>(n: T, d: T) -> Option<u64>
    requires { pos 0 <ℤ T.value d }
    ensures { ChecksTruncation (λ y. pos y) (pos 0) (pos (2 ^ 64 - 1)) (T.value n) (T.value d) result }
{
    u64::from_u128(trunc(n, d).to_u128()?)
}

/// `trunc` as a `u128`, or `None` if it does not fit that type.
pub fn to_u128<T: Integer>(n: T, d: T) -> Option<u128>
    requires { pos 0 <ℤ T.value d }
    ensures { ChecksTruncation (λ y. pos y) (pos 0) (pos (2 ^ 128 - 1)) (T.value n) (T.value d) result }
{
    trunc(n, d).to_u128()
}

// The quotient cut towards zero, and the rest. A division by a positive number never overflows.
fn cut<T: Integer>(n: T, d: T) -> (T, T)
    requires { pos 0 <ℤ T.value d }
    ensures cut { IsTruncatedDivision (T.value n) (T.value d) (T.value result.0) (T.value result.1) }
    ensures held { IsHeld T.lo T.hi (T.value n) }
{
    let _ = n.held();
    n.div_rem(d)
}

// Whether twice `part` is nearer to 0 than `d`. Twice `part` may not fit the
// type, so we compare `part` with the rest of `d`.
fn is_below_half<T: Integer>(part: T, d: T) -> bool
    requires { IsRest (T.value d) (T.value part) }
    ensures { IsTrue result ↔ IsBelowHalf (T.value d) (T.value part) }
{
    let _ = d.held();
    if is_below_zero(part) {
        T::ZERO.minus(part) < part.plus(d)
    } else {
        part < d.minus(part)
    }
}

fn previous<T: Integer>(whole: T) -> T
    requires { IsHeld T.lo T.hi (T.value whole -ℤ pos 1) }
    ensures { T.value result ≡ T.value whole -ℤ pos 1 }
{
    whole.minus(T::ONE)
}

fn next<T: Integer>(whole: T) -> T
    requires { IsHeld T.lo T.hi (T.value whole +ℤ pos 1) }
    ensures { T.value result ≡ T.value whole +ℤ pos 1 }
{
    whole.plus(T::ONE)
}
