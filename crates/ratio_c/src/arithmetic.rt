//! The sum, difference, product, quotient and remainder of a pair of fractions, and whether both denominators are positive.
ghost use Rattle.std.specs.Prelude.{◌≡◌, MatchOption};
ghost use Rattle.ratio_c.specs.Calls.{BothPositive, IsDifferenceAnswer, IsProductAnswer, IsQuotientAnswer, IsRemainderAnswer, IsSumAnswer};

use crate::code::{DENOMINATOR_NOT_POSITIVE, DIVISION_BY_ZERO};
use crate::crossing::{Reply, TwoFractions, checked, refused};
use crate::each::Call;
use ratio_core::{products, remainder, sums};
use ratio_integer::Integer;

/// The four numbers of a pair, if both denominators are positive.
#[inline(always)]
pub(crate) fn both<P: TwoFractions>(
    pair: &P,
) -> Option<(P::Inside, P::Inside, P::Inside, P::Inside)>
    ensures { MatchOption result
        (¬ (BothPositive (P.left pair.now) (P.right pair.now)))
        (λ x. BothPositive (P.Inside.value x.0, P.Inside.value x.1) (P.Inside.value x.2, P.Inside.value x.3)
        × ((P.Inside.value x.0, P.Inside.value x.1) ≡ P.left pair.now)
        × ((P.Inside.value x.2, P.Inside.value x.3) ≡ P.right pair.now)) }
{
    let (a, b) = pair.left();
    let (c, d) = pair.right();
    if P::Inside::ZERO < b && P::Inside::ZERO < d {
        Some((a, b, c, d))
    } else {
        None
    }
}

/// The sum of two fractions.
#[derive(Clone, Copy)]
pub struct Sum;

impl<P: TwoFractions, A: Reply<P::Inside>> Call<P, A> for Sum {
    ghost gives = { λ _ pair answer. IsSumAnswer P.Inside.lo P.Inside.hi (P.left pair) (P.right pair) (A.said answer) };

    #[inline(always)]
    fn answer(&self, pair: &P) -> A {
        match both(pair) {
            Some((a, b, c, d)) => checked(sums::unreduced_sums::checked_add(a, b, c, d)),
            None => refused(DENOMINATOR_NOT_POSITIVE),
        }
    }
}

/// The difference of two fractions.
#[derive(Clone, Copy)]
pub struct Difference;

impl<P: TwoFractions, A: Reply<P::Inside>> Call<P, A> for Difference {
    ghost gives = { λ _ pair answer. IsDifferenceAnswer P.Inside.lo P.Inside.hi (P.left pair) (P.right pair) (A.said answer) };

    #[inline(always)]
    fn answer(&self, pair: &P) -> A {
        match both(pair) {
            Some((a, b, c, d)) => checked(sums::unreduced_sums::checked_sub(a, b, c, d)),
            None => refused(DENOMINATOR_NOT_POSITIVE),
        }
    }
}

/// The product of two fractions.
#[derive(Clone, Copy)]
pub struct Product;

impl<P: TwoFractions, A: Reply<P::Inside>> Call<P, A> for Product {
    ghost gives = { λ _ pair answer. IsProductAnswer P.Inside.lo P.Inside.hi (P.left pair) (P.right pair) (A.said answer) };

    #[inline(always)]
    fn answer(&self, pair: &P) -> A {
        match both(pair) {
            Some((a, b, c, d)) => checked(products::checked_mul(a, b, c, d)),
            None => refused(DENOMINATOR_NOT_POSITIVE),
        }
    }
}

/// The quotient of two fractions.
#[derive(Clone, Copy)]
pub struct Quotient;

impl<P: TwoFractions, A: Reply<P::Inside>> Call<P, A> for Quotient {
    ghost gives = { λ _ pair answer. IsQuotientAnswer P.Inside.lo P.Inside.hi (P.left pair) (P.right pair) (A.said answer) };

    #[inline(always)]
    fn answer(&self, pair: &P) -> A {
        match both(pair) {
            Some(x) if x.2.is_zero() => refused(DIVISION_BY_ZERO),
            Some((a, b, c, d)) => checked(products::checked_div(a, b, c, d)),
            None => refused(DENOMINATOR_NOT_POSITIVE),
        }
    }
}

/// The remainder of a fraction by another one.
#[derive(Clone, Copy)]
pub struct Remainder;

impl<P: TwoFractions, A: Reply<P::Inside>> Call<P, A> for Remainder {
    ghost gives = { λ _ pair answer. IsRemainderAnswer P.Inside.EXACT_REMAINDERS P.Inside.lo P.Inside.hi (P.left pair) (P.right pair) (A.said answer) };

    #[inline(always)]
    fn answer(&self, pair: &P) -> A {
        match both(pair) {
            Some(x) if x.2.is_zero() => refused(DIVISION_BY_ZERO),
            Some((a, b, c, d)) => checked(remainder::unreduced_remainders::checked_rem(a, b, c, d)),
            None => refused(DENOMINATOR_NOT_POSITIVE),
        }
    }
}
