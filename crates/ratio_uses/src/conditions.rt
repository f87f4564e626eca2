//! Callers of `Ratio`: the sum of two shares and the product of rates, with what these require. They show what its calls require.
ghost use Rattle.std.specs.Prelude.{◌≡◌, ◌⊎◌, ◌≤ℤ◌, ◌<ℤ◌, pos, IfSome};
ghost use Rattle.num_rational.specs.Folds.{ArePositive, ChecksProductOf};
ghost use Rattle.num_rational.specs.Operators.{ChecksSum, numbers};
ghost use Rattle.num_rational.specs.Ratio.{denominator};

use num_rational::Rational64;

/// The sum of two shares, or `None` exactly where a denominator is not positive or the lowest terms of the sum do not fit.
pub fn together(left: &Rational64, right: &Rational64) -> Option<Rational64>
    ensures sum { pos 0 <ℤ denominator left.now → pos 0 <ℤ denominator right.now → ChecksSum (numbers left.now) (numbers right.now) result }
    ensures none { (denominator left.now ≤ℤ pos 0) ⊎ (denominator right.now ≤ℤ pos 0) → result ≡ None }
{
    if *left.denom() > 0 && *right.denom() > 0 {
        left.checked_add(right)
    } else {
        None
    }
}

/// The product of the rates, or `None` exactly where a product on the way does not fit. The clause `positive` is what a
/// checked call on the result requires.
pub fn chained(rates: &[Rational64]) -> Option<Rational64>
    requires { ArePositive numbers rates.now }
    ensures product { ChecksProductOf numbers rates.now result }
    ensures positive { IfSome result (λ product. pos 0 <ℤ denominator product) }
{
    let mut product = Rational64::one();
    for rate in rates {
        product = product.checked_mul(rate)?;
    }
    Some(product)
}
