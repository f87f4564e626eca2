//! Signs of numbers and of fractions, and the negatives, absolute values and positive differences of fractions. A denominator may have either sign.
ghost use Rattle.std.specs.Prelude.{◌≡◌, ◌≢◌, ◌↔◌, ◌<ℤ◌, IsTrue, neg_ℤ, pos};
ghost use Rattle.ratio_integer.specs.Range.{IsHeld};
ghost use Rattle.ratio_core.specs.Order.{HaveUnlikeSigns};
ghost use Rattle.ratio_core.specs.Signs.{IsAbsolute, IsNegative, IsPositive, IsPositiveDifference, IsSign, PositiveDifferenceCondition};

use crate::counted::Counted;
use crate::order::cross_order;
use crate::steps::Steps;
use crate::sums::sub;
use ratio_integer::{Integer, SignedInteger};
use std::cmp::Ordering;

/// The numerator of the negative fraction, over the same denominator.
pub fn neg<T: SignedInteger>(n: T) -> T
    requires { IsHeld T.lo T.hi (neg_ℤ (T.value n)) }
    ensures { T.value result ≡ neg_ℤ (T.value n) }
{
    n.negate()
}

/// The numerator of the absolute value, over the same denominator: -1 for 1/-2.
pub fn abs<T: SignedInteger>(n: T, d: T) -> T
    requires nonzero { T.value d ≢ pos 0 }
    requires held { IsNegative (T.value n) (T.value d) → IsHeld T.lo T.hi (neg_ℤ (T.value n)) }
    ensures { IsAbsolute (T.value n) (T.value d) (T.value result) }
{
    if is_negative(n, d) { n.negate() } else { n }
}

/// The lowest terms of `a/b - c/d` if `a/b` is above `c/d`, and else 0/1. If it
/// is above, the call requires that `checked_sub` returns `Some`.
pub fn abs_sub<T: SignedInteger>(a: T, b: T, c: T, d: T) -> (T, T)
    requires left_positive { pos 0 <ℤ T.value b }
    requires right_positive { pos 0 <ℤ T.value d }
    requires answered { PositiveDifferenceCondition T.EXACT_SUMS T.lo T.hi (T.value a) (T.value b) (T.value c) (T.value d) }
    ensures { IsPositiveDifference T.lo T.hi (T.value a) (T.value b) (T.value c) (T.value d) (T.value result.0) (T.value result.1) }
{
    match cross_order(a, b, c, d, &mut Steps::new()) {
        Ordering::Greater => sub(a, b, c, d),
        Ordering::Less | Ordering::Equal => (T::ZERO, T::ONE),
    }
}

/// The sign of `n/d`: -1, 0 or 1.
pub fn signum<T: SignedInteger>(n: T, d: T) -> T
    requires { T.value d ≢ pos 0 }
    ensures { IsSign (T.value n) (T.value d) (T.value result) }
{
    if n.is_zero() {
        T::ZERO
    } else if is_negative(n, d) {
        T::ONE.negate()
    } else {
        T::ONE
    }
}

/// Whether the value of `n/d` is above 0.
pub fn is_positive<T: SignedInteger>(n: T, d: T) -> bool
    requires { T.value d ≢ pos 0 }
    ensures { IsTrue result ↔ IsPositive (T.value n) (T.value d) }
{
    if is_below_zero(d) {
        is_below_zero(n)
    } else {
        is_above_zero(n)
    }
}

/// Whether the value of `n/d` is below 0.
pub fn is_negative<T: SignedInteger>(n: T, d: T) -> bool
    requires { T.value d ≢ pos 0 }
    ensures { IsTrue result ↔ IsNegative (T.value n) (T.value d) }
{
    if is_below_zero(d) {
        is_above_zero(n)
    } else {
        is_below_zero(n)
    }
}

/// Whether the number is below 0.
pub fn is_below_zero<T: Counted>(a: T) -> bool
    ensures { IsTrue result ↔ (T.value a <ℤ pos 0) }
{
    a < T::ZERO
}

/// Whether the number is above 0.
pub fn is_above_zero<T: Integer>(a: T) -> bool
    ensures { IsTrue result ↔ (pos 0 <ℤ T.value a) }
{
    T::ZERO < a
}

/// Whether exactly one of the two is below 0.
pub fn have_unlike_signs<T: Counted>(d: T, e: T) -> bool
    ensures { IsTrue result ↔ HaveUnlikeSigns (T.value d) (T.value e) }
{
    is_below_zero(d) != is_below_zero(e)
}
