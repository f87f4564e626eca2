//! The lowest terms of one fraction or two, and their numbers cancelled: divided by their gcd, each with its sign.
ghost use Rattle.std.specs.Prelude.{◌≢◌, ◌<ℤ◌, pos};
ghost use Rattle.ratio_integer.specs.Division.{IsGcdAboveMax, IsGcdOf};
ghost use Rattle.ratio_integer.specs.Fraction.{IsCancelledOf, IsHeldLowest};

use crate::integer::{Integer, both_held};

/// The lowest terms of `n/d`, for a positive `d`. They always fit the type. So does the gcd on the way, since
/// it is at most `d`. A number over 1 is returned at once.
pub fn lowest_terms<T: Integer>(n: T, d: T) -> (T, T)
    requires { pos 0 <ℤ T.value d }
    ensures { IsHeldLowest T.lo T.hi (T.value n) (T.value d) (T.value result.0) (T.value result.1) }
{
    if d.is_one() {
        both_held(n, d);
        return (n, d);
    }
    let (numer, denom) = cancelled(n, d);
    both_held(numer, denom);
    (numer, denom)
}

/// Both numbers, divided by their gcd. The signs stay where they are: 4/-6 gives 2/-3. Numbers without a
/// common divisor above 1 are returned unchanged, without a division.
pub fn cancelled<T: Integer>(n: T, d: T) -> (T, T)
    requires fraction { T.value d ≢ pos 0 }
    requires held { ¬ (IsGcdAboveMax T.hi (T.value n) (T.value d)) }
    ensures { IsCancelledOf (T.value n) (T.value d) (T.value result.0) (T.value result.1) }
{
    divided(n, d, n.gcd(d))
}

/// Both numbers, divided by their gcd, which the caller has found: `gcds` finds those of two pairs together.
pub(crate) fn divided<T: Integer>(n: T, d: T, divisor: T) -> (T, T)
    requires fraction { T.value d ≢ pos 0 }
    requires greatest { IsGcdOf (T.value n) (T.value d) (T.value divisor) }
    ensures { IsCancelledOf (T.value n) (T.value d) (T.value result.0) (T.value result.1) }
{
    if divisor.is_one() {
        return (n, d);
    }
    let (numer, _) = n.div_rem(divisor);
    let (denom, _) = d.div_rem(divisor);
    (numer, denom)
}

/// The lowest terms of `a/b` and of `c/d`. Both gcds are computed together.
pub fn both_lowest_terms<T: Integer>(a: T, b: T, c: T, d: T) -> ((T, T), (T, T))
    requires left_positive { pos 0 <ℤ T.value b }
    requires right_positive { pos 0 <ℤ T.value d }
    ensures left { IsHeldLowest T.lo T.hi (T.value a) (T.value b) (T.value result.0.0) (T.value result.0.1) }
    ensures right { IsHeldLowest T.lo T.hi (T.value c) (T.value d) (T.value result.1.0) (T.value result.1.1) }
{
    if b.is_one() || d.is_one() {
        return (lowest_terms(a, b), lowest_terms(c, d));
    }
    let ((p, q), (s, t)) = both_cancelled(a, b, c, d);
    both_held(p, q);
    both_held(s, t);
    ((p, q), (s, t))
}

/// The numbers of `a/b` and of `c/d`, each divided by the gcd of its pair. The signs stay where they are.
pub fn both_cancelled<T: Integer>(a: T, b: T, c: T, d: T) -> ((T, T), (T, T))
    requires left_fraction { T.value b ≢ pos 0 }
    requires left_held { ¬ (IsGcdAboveMax T.hi (T.value a) (T.value b)) }
    requires right_fraction { T.value d ≢ pos 0 }
    requires right_held { ¬ (IsGcdAboveMax T.hi (T.value c) (T.value d)) }
    ensures left { IsCancelledOf (T.value a) (T.value b) (T.value result.0.0) (T.value result.0.1) }
    ensures right { IsCancelledOf (T.value c) (T.value d) (T.value result.1.0) (T.value result.1.1) }
{
    let (left, right) = T::gcds(a, b, c, d);
    (divided(a, b, left), divided(c, d, right))
}
