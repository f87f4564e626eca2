//! Sums and differences of any fractions with positive denominators: `Some` exactly if the lowest terms fit.
//!
//! The call adds the fields as they are, if this gives a result. Else it brings both fractions to lowest terms first.
//! Over `i8`, 2/72 + 1/28 is 1/36 + 1/28, and so 4/63.
ghost use Rattle.std.specs.Prelude.{◌<ℤ◌, pos};
ghost use Rattle.ratio_integer.specs.Arithmetic.{difference_of, sum_of};
ghost use Rattle.ratio_integer.specs.Fraction.{ChecksLowest};

use crate::sums;
use crate::sums::lowest_sums;
use ratio_integer::{Integer, lowest_terms};

/// The lowest terms of `a/b + c/d`, or `None` if they do not fit. The fractions need not be in lowest terms.
#[inline(always)]
pub fn checked_add<T: Integer>(a: T, b: T, c: T, d: T) -> Option<(T, T)>
    requires left_positive { pos 0 <ℤ T.value b }
    requires right_positive { pos 0 <ℤ T.value d }
    ensures { ChecksLowest (λ r. T.value r.0) (λ r. T.value r.1) T.lo T.hi
        (sum_of (T.value a) (T.value b) (T.value c) (T.value d)) result }
{
    if let Some(sum) = sums::checked_add(a, b, c, d) {
        return Some(sum);
    }
    if T::EXACT_SUMS {
        return None;
    }
    let (n, m) = lowest_terms(a, b);
    let (p, q) = lowest_terms(c, d);
    lowest_sums::checked_add(n, m, p, q)
}

/// The lowest terms of `a/b - c/d`, or `None` if they do not fit. The fractions need not be in lowest terms.
#[inline(always)]
pub fn checked_sub<T: Integer>(a: T, b: T, c: T, d: T) -> Option<(T, T)>
    requires left_positive { pos 0 <ℤ T.value b }
    requires right_positive { pos 0 <ℤ T.value d }
    ensures { ChecksLowest (λ r. T.value r.0) (λ r. T.value r.1) T.lo T.hi
        (difference_of (T.value a) (T.value b) (T.value c) (T.value d)) result }
{
    if let Some(difference) = sums::checked_sub(a, b, c, d) {
        return Some(difference);
    }
    if T::EXACT_SUMS {
        return None;
    }
    let (n, m) = lowest_terms(a, b);
    let (p, q) = lowest_terms(c, d);
    lowest_sums::checked_sub(n, m, p, q)
}
