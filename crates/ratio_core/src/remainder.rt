//! The remainder of one fraction by another in lowest terms, over any type.
ghost use Rattle.std.specs.Prelude.{◌≡◌, ◌≢◌, ◌<ℤ◌, pos, int_rem};
ghost use Rattle.ratio_integer.specs.Arithmetic.{RemainderHeld, remainder_of};
ghost use Rattle.ratio_integer.specs.Fraction.{AnswersLowest};
ghost use Rattle.ratio_core.specs.Conditions.{IsHeldLowestOf};

pub mod lowest_remainders;
pub mod unreduced_remainders;
mod wide_remainder;

use crate::sums::scaled;
use ratio_integer::{Integer, lowest_terms};

/// The lowest terms of `x - t*y`. Here `x` is `a/b`, `y` is `c/d`, and `t` is their quotient cut towards
/// zero: 3/4 by 1/2 leaves 1/4. The remainder is 0 or has the sign of `x`, and it is nearer to 0 than `y`.
///
/// The call returns `None` exactly if `c` is 0, or if the least common denominator or a numerator over it
/// does not fit the type. The fields are taken as they are, not reduced.
pub fn checked_rem<T: Integer>(a: T, b: T, c: T, d: T) -> Option<(T, T)>
    requires left_positive { pos 0 <ℤ T.value b }
    requires right_positive { pos 0 <ℤ T.value d }
    ensures { AnswersLowest (λ r. T.value r.0) (λ r. T.value r.1) T.lo T.hi
        (RemainderHeld T.lo T.hi (T.value a) (T.value b) (T.value c) (T.value d))
        (remainder_of (T.value a) (T.value b) (T.value c) (T.value d)) result }
{
    if c.is_zero() {
        return None;
    }
    let (left, right, common) = scaled(a, b, c, d)?;
    Some(lowest_terms(truncated_rest(left, right), common))
}

/// The remainder that `checked_rem` returns. It requires that `checked_rem` returns `Some`.
pub fn rem<T: Integer>(a: T, b: T, c: T, d: T) -> (T, T)
    requires left_positive { pos 0 <ℤ T.value b }
    requires right_positive { pos 0 <ℤ T.value d }
    requires answered { RemainderHeld T.lo T.hi (T.value a) (T.value b) (T.value c) (T.value d) }
    ensures { IsHeldLowestOf T.lo T.hi (remainder_of (T.value a) (T.value b) (T.value c) (T.value d))
        (T.value result.0) (T.value result.1) }
{
    match checked_rem(a, b, c, d) {
        Some(rest) => rest,
        None => unreachable!(),
    }
}

// The remainder of a division cut towards zero. Dividing the least number by -1 may overflow, so -1 is set aside.
fn truncated_rest<T: Integer>(p: T, q: T) -> T
    requires { T.value q ≢ pos 0 }
    ensures { T.value result ≡ int_rem (T.value p) (T.value q) }
{
    let _ = q.held();
    if q < T::ZERO && q.plus(T::ONE).is_zero() {
        return T::ZERO;
    }
    p.div_rem(q).1
}
