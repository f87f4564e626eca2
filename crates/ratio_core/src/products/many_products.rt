//! The product of many numbers divided by the product of many others: each is cancelled against each before
//! anything is multiplied.
//!
//! The products are then already in lowest terms, and no part of a product is larger than the whole. So the result is
//! `None` only if its lowest terms do not fit. Over `i8`, 100 * 3 over 3 * 100 is 1/1, though 300 does not fit.
ghost use Rattle.std.specs.Prelude.{◌≡◌, ◌≢◌, ◌↔◌, ◌<ℤ◌, ◌*ℤ◌, pos, unsigned_abs, IsTrue};
ghost use Rattle.ratio_integer.specs.Fraction.{ChecksLowest};
ghost use Rattle.ratio_integer.specs.Range.{Checks};
ghost use Rattle.ratio_core.specs.ManyProducts.{HasCommonFactor, IsCoprimeTo, IsQuotientSign, product_by};

use crate::sign::is_below_zero;
use ratio_integer::{Integer, both_held};

/// The lowest terms of the product of the numbers `above` over the product of the numbers `below`. The call returns `None`
/// exactly if a number below is 0 or the lowest terms do not fit the type. It leaves other numbers in both lists.
pub fn checked_quotient_of_products<T: Integer>(above: &mut [T], below: &mut [T]) -> Option<(T, T)>
    ensures { ChecksLowest (λ r. T.value r.0) (λ r. T.value r.1) T.lo T.hi
        (product_by T.value above.old, product_by T.value below.old) result }
{
    if has_zero(below) {
        return None;
    }
    if has_zero(above) {
        both_held(T::ZERO, T::ONE);
        return Some((T::ZERO, T::ONE));
    }
    cancel_lists(above, below);
    let numer = times_magnitudes(quotient_sign(above, below), above)?;
    let denom = times_magnitudes(T::ONE, below)?;
    Some((numer, denom))
}

// Whether one of the numbers is 0.
fn has_zero<T: Integer>(items: &[T]) -> bool
    ensures { IsTrue result ↔ (product_by T.value items.now ≡ pos 0) }
{
    'each: for x in items {
        if x.is_zero() {
            return true;
        }
    }
    false
}

// -1 if the product of the numbers above over that of the numbers below is below 0, and else 1.
fn quotient_sign<T: Integer>(above: &[T], below: &[T]) -> T
    requires above_nonzero { product_by T.value above.now ≢ pos 0 }
    requires below_nonzero { product_by T.value below.now ≢ pos 0 }
    ensures { IsQuotientSign (product_by T.value above.now) (product_by T.value below.now) (T.value result) }
{
    if is_negative(above) != is_negative(below) {
        T::ZERO.minus(T::ONE)
    } else {
        T::ONE
    }
}

// Whether the product of the numbers is below 0.
fn is_negative<T: Integer>(items: &[T]) -> bool
    requires { product_by T.value items.now ≢ pos 0 }
    ensures below { IsTrue result ↔ (product_by T.value items.now <ℤ pos 0) }
    ensures signed { IsTrue result → T.lo <ℤ pos 0 }
{
    let mut negative = false;
    'each: for x in items {
        let _ = x.held();
        if is_below_zero(*x) {
            negative = !negative;
        }
    }
    negative
}

// Divides both lists by common factors, until no number above has a common divisor above 1 with one below.
fn cancel_lists<T: Integer>(above: &mut [T], below: &mut [T])
    requires above_nonzero { product_by T.value above.old ≢ pos 0 }
    requires below_nonzero { product_by T.value below.old ≢ pos 0 }
    ensures factor { HasCommonFactor (product_by T.value above.old) (product_by T.value below.old)
        (product_by T.value above.new) (product_by T.value below.new) }
    ensures coprime { IsCoprimeTo (product_by T.value above.new) (product_by T.value below.new) }
{
    'each: for x in above.iter_mut() {
        *x = cancel_list(*x, below);
    }
}

// Divides the number and the list by common factors, until it has no common divisor above 1 with a number of the list.
fn cancel_list<T: Integer>(n: T, below: &mut [T]) -> T
    requires nonzero { T.value n ≢ pos 0 }
    requires below_nonzero { product_by T.value below.old ≢ pos 0 }
    ensures factor { HasCommonFactor (T.value n) (product_by T.value below.old)
        (T.value result) (product_by T.value below.new) }
    ensures coprime { IsCoprimeTo (T.value result) (product_by T.value below.new) }
{
    let mut rest = n;
    'each: for x in below.iter_mut() {
        let (numer, denom) = cancel_pair(rest, *x);
        rest = numer;
        *x = denom;
    }
    rest
}

// Divides both numbers by their gcd. Of two equal numbers the signs are left.
fn cancel_pair<T: Integer>(n: T, d: T) -> (T, T)
    requires nonzero { T.value n ≢ pos 0 }
    requires fraction { T.value d ≢ pos 0 }
    ensures factor { HasCommonFactor (T.value n) (T.value d) (T.value result.0) (T.value result.1) }
    ensures coprime { IsCoprimeTo (T.value result.0) (T.value result.1) }
{
    // The gcd of the least number and itself may not fit the type.
    if n == d {
        return (T::ONE, T::ONE);
    }
    ratio_integer::cancelled(n, d)
}

// `start` times the magnitude of each number, or `None` if it does not fit the type.
fn times_magnitudes<T: Integer>(start: T, items: &[T]) -> Option<T>
    requires start_nonzero { T.value start ≢ pos 0 }
    requires nonzero { product_by T.value items.now ≢ pos 0 }
    ensures { Checks T.value T.lo T.hi (T.value start *ℤ pos (unsigned_abs (product_by T.value items.now))) result }
{
    let mut total = start;
    'each: for x in items {
        total = times_magnitude(total, *x)?;
    }
    let _ = total.held();
    Some(total)
}

// `total` times the magnitude of `x`, or `None` if it does not fit the type. The magnitude itself may not fit: over `i8`, -1
// times the magnitude of -128 is -128.
fn times_magnitude<T: Integer>(total: T, x: T) -> Option<T>
    requires { T.value total ≢ pos 0 }
    ensures { Checks T.value T.lo T.hi (T.value total *ℤ pos (unsigned_abs (T.value x))) result }
{
    both_held(total, x);
    if !is_below_zero(x) {
        return total.try_times(x);
    }
    match T::ZERO.try_minus(x) {
        Some(magnitude) => total.try_times(magnitude),
        None if is_below_zero(total) && total.plus(T::ONE).is_zero() => Some(x),
        None => None,
    }
}
