//! The greatest common divisor and the least common multiple of a pair of fractions.
ghost use Rattle.std.specs.Prelude.{◌<ℤ◌, pos};
ghost use Rattle.ratio_core.specs.Divisors.{ChecksPair, IsGcdOfFractions, IsLcmOfFractions};
ghost use Rattle.ratio_c.specs.Pairs.{IsGcdAnswer, IsLcmAnswer};

use crate::arithmetic::both;
use crate::code::DENOMINATOR_NOT_POSITIVE;
use crate::crossing::{Reply, TwoFractions, checked, refused};
use crate::each::Call;
use ratio_core::divisors;
use ratio_integer::{Integer, lowest_terms};

/// The greatest fraction that divides both: 1/12 for 1/4 and 1/6.
#[derive(Clone, Copy)]
pub struct CommonDivisor;

impl<P: TwoFractions, A: Reply<P::Inside>> Call<P, A> for CommonDivisor {
    ghost gives = { λ _ pair answer. IsGcdAnswer P.Inside.lo P.Inside.hi (P.left pair) (P.right pair) (A.said answer) };

    #[inline(always)]
    fn answer(&self, pair: &P) -> A {
        match both(pair) {
            Some((a, b, c, d)) => checked(gcd(a, b, c, d)),
            None => refused(DENOMINATOR_NOT_POSITIVE),
        }
    }
}

/// The least fraction above 0 that both divide: 1/2 for 1/4 and 1/6.
#[derive(Clone, Copy)]
pub struct CommonMultiple;

impl<P: TwoFractions, A: Reply<P::Inside>> Call<P, A> for CommonMultiple {
    ghost gives = { λ _ pair answer. IsLcmAnswer P.Inside.lo P.Inside.hi (P.left pair) (P.right pair) (A.said answer) };

    #[inline(always)]
    fn answer(&self, pair: &P) -> A {
        match both(pair) {
            Some((a, b, c, d)) => checked(lcm(a, b, c, d)),
            None => refused(DENOMINATOR_NOT_POSITIVE),
        }
    }
}

// The greatest common divisor of two fractions in any terms.
fn gcd<T: Copy + Integer>(a: T, b: T, c: T, d: T) -> Option<(T, T)>
    requires left_positive { pos 0 <ℤ T.value b }
    requires right_positive { pos 0 <ℤ T.value d }
    ensures { ChecksPair (λ r. T.value r.0) (λ r. T.value r.1) T.lo T.hi
        (IsGcdOfFractions (T.value a) (T.value b) (T.value c) (T.value d)) result }
{
    let (a, b) = lowest_terms(a, b);
    let (c, d) = lowest_terms(c, d);
    divisors::checked_gcd(a, b, c, d)
}

// The least common multiple of two fractions in any terms.
fn lcm<T: Copy + Integer>(a: T, b: T, c: T, d: T) -> Option<(T, T)>
    requires left_positive { pos 0 <ℤ T.value b }
    requires right_positive { pos 0 <ℤ T.value d }
    ensures { ChecksPair (λ r. T.value r.0) (λ r. T.value r.1) T.lo T.hi
        (IsLcmOfFractions (T.value a) (T.value b) (T.value c) (T.value d)) result }
{
    let (a, b) = lowest_terms(a, b);
    let (c, d) = lowest_terms(c, d);
    divisors::checked_lcm(a, b, c, d)
}
