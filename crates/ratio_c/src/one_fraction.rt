//! Calls on one fraction: lowest terms, negative, absolute value, floor, ceiling, truncation, rounding to a whole number, powers, and the
//! fraction in a type of another width; and whether its denominator is positive.
ghost use Rattle.std.specs.Prelude.{◌≡◌, ◌<ℤ◌, pos, MatchOption, neg_ℤ, unsigned_abs};
ghost use Rattle.ratio_core.specs.Power.{ChecksBoth};
ghost use Rattle.ratio_c.specs.Calls.{IsCeilingAnswer, IsFloorAnswer, IsLowestAnswer, IsPowerAnswer, IsRoundAnswer, IsTruncationAnswer, IsAbsoluteAnswer, IsNegationAnswer, IsCastAnswer};

use crate::code::{DENOMINATOR_NOT_POSITIVE, DIVISION_BY_ZERO, ZERO_DENOMINATOR};
use crate::crossing::{Digest, OneFraction, Raised, Reply, checked, refused, whole};
use crate::each::Call;
use ratio_core::checked_new::checked_new;
use ratio_core::{pow, rounding};
use ratio_integer::{Integer, SignedInteger};
use std::marker::PhantomData;

/// The two numbers of a fraction, if its denominator is positive.
#[inline(always)]
pub fn positive<F: OneFraction>(x: &F) -> Option<(F::Inside, F::Inside)>
    ensures { MatchOption result
        (¬ (pos 0 <ℤ (F.fraction x.now).1))
        (λ r. (pos 0 <ℤ F.Inside.value r.1) × ((F.Inside.value r.0, F.Inside.value r.1) ≡ F.fraction x.now)) }
{
    let (n, d) = x.fraction();
    if F::Inside::ZERO < d {
        Some((n, d))
    } else {
        None
    }
}

/// The lowest terms of a fraction.
#[derive(Clone, Copy)]
pub struct LowestTerms;

impl<F: OneFraction, A: Reply<F::Inside>> Call<F, A> for LowestTerms {
    ghost gives = { λ _ x answer. IsLowestAnswer F.Inside.lo F.Inside.hi (F.fraction x) (A.said answer) };

    #[inline(always)]
    fn answer(&self, x: &F) -> A {
        let (n, d) = x.fraction();
        if d.is_zero() {
            refused(ZERO_DENOMINATOR)
        } else {
            checked(checked_new(n, d))
        }
    }
}

/// The floor of a fraction, over 1: 7/2 gives 3/1.
#[derive(Clone, Copy)]
pub struct Floor;

impl<F: OneFraction, A: Reply<F::Inside>> Call<F, A> for Floor {
    ghost gives = { λ _ x answer. IsFloorAnswer (F.fraction x) (A.said answer) };

    #[inline(always)]
    fn answer(&self, x: &F) -> A {
        match positive(x) {
            Some((n, d)) => whole(rounding::floor(n, d)),
            None => refused(DENOMINATOR_NOT_POSITIVE),
        }
    }
}

/// The ceiling of a fraction, over 1: 7/2 gives 4/1.
#[derive(Clone, Copy)]
pub struct Ceiling;

impl<F: OneFraction, A: Reply<F::Inside>> Call<F, A> for Ceiling {
    ghost gives = { λ _ x answer. IsCeilingAnswer (F.fraction x) (A.said answer) };

    #[inline(always)]
    fn answer(&self, x: &F) -> A {
        match positive(x) {
            Some((n, d)) => whole(rounding::ceil(n, d)),
            None => refused(DENOMINATOR_NOT_POSITIVE),
        }
    }
}

/// A fraction cut towards zero, over 1: -7/2 gives -3/1.
#[derive(Clone, Copy)]
pub struct Truncation;

impl<F: OneFraction, A: Reply<F::Inside>> Call<F, A> for Truncation {
    ghost gives = { λ _ x answer. IsTruncationAnswer (F.fraction x) (A.said answer) };

    #[inline(always)]
    fn answer(&self, x: &F) -> A {
        match positive(x) {
            Some((n, d)) => whole(rounding::trunc(n, d)),
            None => refused(DENOMINATOR_NOT_POSITIVE),
        }
    }
}

/// A fraction rounded, over 1: 7/2 gives 4/1.
#[derive(Clone, Copy)]
pub struct RoundingToWhole;

impl<F: OneFraction, A: Reply<F::Inside>> Call<F, A> for RoundingToWhole {
    ghost gives = { λ _ x answer. IsRoundAnswer (F.fraction x) (A.said answer) };

    #[inline(always)]
    fn answer(&self, x: &F) -> A {
        match positive(x) {
            Some((n, d)) => whole(rounding::round(n, d)),
            None => refused(DENOMINATOR_NOT_POSITIVE),
        }
    }
}

/// A power of a fraction.
#[derive(Clone, Copy)]
pub struct Raising;

impl<F: Raised, A: Reply<F::Inside>> Call<F, A> for Raising {
    ghost gives = { λ _ x answer. IsPowerAnswer F.Inside.lo F.Inside.hi (F.fraction x) (F.exponent x) (A.said answer) };

    #[inline(always)]
    fn answer(&self, x: &F) -> A {
        match positive(x) {
            Some(r) if r.0.is_zero() && x.exponent() < 0 => refused(DIVISION_BY_ZERO),
            Some((n, d)) => checked(pow::checked_pow(n, d, x.exponent())),
            None => refused(DENOMINATOR_NOT_POSITIVE),
        }
    }
}

/// The negative of a fraction: 2/4 gives -2/4. Only the least numerator has none.
#[derive(Clone, Copy)]
pub struct Negation;

impl<F: OneFraction, A: Reply<F::Inside>> Call<F, A> for Negation {
    ghost gives = { λ _ x answer. IsNegationAnswer F.Inside.lo F.Inside.hi (F.fraction x) (A.said answer) };

    #[inline(always)]
    fn answer(&self, x: &F) -> A {
        match positive(x) {
            Some((n, d)) => checked(negated(n, d)),
            None => refused(DENOMINATOR_NOT_POSITIVE),
        }
    }
}

/// The absolute value of a fraction: -2/4 gives 2/4. Only the least numerator has none.
#[derive(Clone, Copy)]
pub struct Absolute;

impl<F: OneFraction, A: Reply<F::Inside>> Call<F, A> for Absolute {
    ghost gives = { λ _ x answer. IsAbsoluteAnswer F.Inside.lo F.Inside.hi (F.fraction x) (A.said answer) };

    #[inline(always)]
    fn answer(&self, x: &F) -> A {
        match positive(x) {
            Some((n, d)) => checked(magnitude(n, d)),
            None => refused(DENOMINATOR_NOT_POSITIVE),
        }
    }
}

/// The negative of the first number, and the second one, or `None` if the negative does not fit.
#[inline(always)]
fn negated<T: Copy + SignedInteger>(n: T, d: T) -> Option<(T, T)>
    ensures { ChecksBoth (λ r. T.value r.0) (λ r. T.value r.1) T.lo T.hi (neg_ℤ (T.value n)) (T.value d) result }
{
    let _ = d.held();
    match n.try_negate() {
        Some(negative) => Some((negative, d)),
        None => None,
    }
}

/// The magnitude of the first number, and the second one, or `None` if the magnitude does not fit.
#[inline(always)]
fn magnitude<T: Copy + SignedInteger>(n: T, d: T) -> Option<(T, T)>
    ensures { ChecksBoth (λ r. T.value r.0) (λ r. T.value r.1) T.lo T.hi (pos (unsigned_abs (T.value n))) (T.value d) result }
{
    if n < T::ZERO {
        return negated(n, d);
    }
    let _ = n.held();
    let _ = d.held();
    Some((n, d))
}

/// The call that takes fractions to the type `T`: 2/4 stays 2/4.
#[derive(Drop)]
pub struct Casting<T> {
    marker: PhantomData<T>,
}

impl<T> Casting<T> {
    /// The call that takes fractions to the type `T`.
    #[inline(always)]
    pub fn new() -> Casting<T> {
        Casting {
            marker: PhantomData,
        }
    }
}

impl<F: OneFraction, T: Digest, A: Reply<T>> Call<F, A> for Casting<T> {
    ghost gives = { λ _ x answer. IsCastAnswer T.lo T.hi (F.fraction x) (A.said answer) };

    #[inline(always)]
    fn answer(&self, x: &F) -> A {
        match positive(x) {
            Some((n, d)) => checked(cast::<F::Inside, T>(n, d)),
            None => refused(DENOMINATOR_NOT_POSITIVE),
        }
    }
}

/// Both numbers over the type `U`, or `None` if one does not fit it.
#[inline(always)]
pub(crate) fn cast<T: Digest, U: Copy + Integer>(n: T, d: T) -> Option<(U, U)>
    ensures { ChecksBoth (λ r. U.value r.0) (λ r. U.value r.1) U.lo U.hi (T.value n) (T.value d) result }
{
    Some((U::from_i128(n.wide())?, U::from_i128(d.wide())?))
}
