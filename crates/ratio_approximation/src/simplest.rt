//! The simplest fraction strictly between two fractions, and within two bounds.
mod search;
mod side;
mod whole_between;
mod within;

ghost use Rattle.std.specs.Prelude.{◌≡◌, ◌<ℤ◌, ◌+◌, ℕ, pos, min, unsigned_abs};
ghost use Rattle.ratio_core.specs.ContinuedFraction.{IsWithinBits};
ghost use Rattle.ratio_approximation.specs.SearchCount.{IsSearchCount};
ghost use Rattle.ratio_approximation.specs.Simplest.{ChecksSimplest};

use crate::simplest::search::search;
use crate::simplest::side::Side;
use crate::simplest::whole_between::{last_below, nearest_zero};
use ratio_core::counted::both_held;
use ratio_core::order::dividing::divide_left;
use ratio_core::{Counted, Steps};
use ratio_integer::Integer;
pub use within::simplest_within;

/// Of all fractions strictly between `n/d` and `m/e`, the one with the smallest denominator. Of these
/// it is the one whose numerator is nearest to 0. Between 1/3 and 1/2 it is 2/5, and between -1/2 and
/// 5/2 it is 0/1. It is in lowest terms. `None` exactly if the type has no fraction between them. So
/// it is `None` if `n/d` is not below `m/e`, and over `i8` it is `None` between 0/1 and 1/127.
pub fn simplest_between<T: Integer>(n: T, d: T, m: T, e: T) -> Option<(T, T)>
    requires low { pos 0 <ℤ T.value d }
    requires high { pos 0 <ℤ T.value e }
    ensures { ChecksSimplest T.value T.lo T.hi (T.value n) (T.value d) (T.value m) (T.value e) result }
{
    simplest_between_counted(n, d, m, e, &mut Steps::new())
}

/// `simplest_between` with its divisions counted.
///
/// Write `n/d` as a continued fraction with an odd number of quotients, and `m/e` with an even number. The left side
/// divides once, and once more for each quotient at their common start, except for a second quotient 1. The right side
/// divides as often, or once less if one list is the beginning of the other. For example, 1/3 has 0, 2, 1, and 1/2 has
/// 0, 2. So the left side divides three times, and the right side twice. Each side divides at most twice for each binary
/// digit of the smaller one of `d` and `e`.
pub fn simplest_between_counted<T: Counted>(
    n: T,
    d: T,
    m: T,
    e: T,
    steps: &mut Steps,
) -> Option<(T, T)>
    requires low { pos 0 <ℤ T.value d }
    requires high { pos 0 <ℤ T.value e }
    ensures simplest { ChecksSimplest T.value T.lo T.hi (T.value n) (T.value d) (T.value m) (T.value e) result }
    ensures steps { (k : ℕ) × (l : ℕ) × (steps.new.left ≡ steps.old.left + k) × (steps.new.right ≡ steps.old.right + l)
        × IsSearchCount (T.value n) (T.value d) (T.value m) (T.value e) k l }
    ensures left { (k : ℕ) × (steps.new.left ≡ steps.old.left + k) × IsWithinBits (min (unsigned_abs (T.value d)) (unsigned_abs (T.value e))) k }
    ensures right { (k : ℕ) × (steps.new.right ≡ steps.old.right + k) × IsWithinBits (min (unsigned_abs (T.value d)) (unsigned_abs (T.value e))) k }
{
    both_held(n, d);
    both_held(m, e);
    let (low, low_rest) = divide_left(n, d, steps);
    let _ = low.held();
    let (last, last_rest) = last_below(m, e, steps)?;
    let _ = last.held();
    if last < low {
        return None;
    }
    let next = low.plus(T::ONE);
    if low < last {
        return Some((nearest_zero(next, last), T::ONE));
    }
    let left = Side {
        numer: low,
        denom: T::ONE,
        own: low_rest,
        other: last_rest,
    };
    let right = Side {
        numer: next,
        denom: T::ONE,
        own: e.minus(last_rest),
        other: d.minus(low_rest),
    };
    search(n, d, m, e, left, right, steps)
}
