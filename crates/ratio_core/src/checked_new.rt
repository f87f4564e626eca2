//! The lowest terms of a fraction, with its sign moved to the numerator, if they fit the type.
ghost use Rattle.std.specs.Prelude.{pos};
ghost use Rattle.ratio_integer.specs.Fraction.{ChecksLowest};
ghost use Rattle.ratio_core.specs.Cancelling.{IsCancelled};

use ratio_integer::{Integer, both_held, cancelled};

/// The lowest terms of `n/d`, or `None` if `d` is 0 or they do not fit the type. Over `i8`, 6/-4 gives -3/2,
/// and -128/-1 gives `None`. Either number may be the least one.
pub fn checked_new<T: Integer>(n: T, d: T) -> Option<(T, T)>
    ensures { ChecksLowest (λ r. T.value r.0) (λ r. T.value r.1) T.lo T.hi (T.value n, T.value d) result }
{
    if d.is_one() {
        both_held(n, d);
        return Some((n, d));
    }
    if d.is_zero() {
        return None;
    }
    if n.is_zero() {
        return Some((T::ZERO, T::ONE));
    }
    // The gcd of the least number and itself may not fit the type.
    if n == d {
        return Some((T::ONE, T::ONE));
    }
    let (numer, denom) = cancelled(n, d);
    sign_moved(numer, denom)
}

/// `a/b` with a positive denominator, or `None` if it does not fit the type: -3/2 for 3/-2.
pub(crate) fn sign_moved<T: Integer>(a: T, b: T) -> Option<(T, T)>
    requires { IsCancelled (T.value a) (T.value b) }
    ensures { ChecksLowest (λ r. T.value r.0) (λ r. T.value r.1) T.lo T.hi (T.value a, T.value b) result }
{
    if b < T::ZERO {
        match T::ZERO.try_minus(a) {
            None => None,
            Some(numer) => match T::ZERO.try_minus(b) {
                None => None,
                Some(denom) => Some((numer, denom)),
            },
        }
    } else {
        both_held(a, b);
        Some((a, b))
    }
}
