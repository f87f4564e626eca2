//! Sums and differences of fractions in lowest terms: `Some` exactly if the lowest terms fit.
//!
//! The sum is formed over the least common denominator, and reduced by a short gcd, by Henrici's method (1956). Let `g` be the greatest common
//! divisor of the denominators. What the sum and the least common denominator have in common divides `g`. If `g` is 1, the sum is in lowest
//! terms: 5/6 for 1/2 + 1/3. For 1/6 + 3/10 they are 14 and 30, and `g` is 2. So 7 and 15 are the lowest terms. If a number does not fit
//! there, as 252 for 1/36 + 1/28 over `i8`, whole numbers and parts of 1 are added separately.
ghost use Rattle.std.specs.Prelude.{◌≡◌, ◌<ℤ◌, ◌-ℤ◌, ◌*ℤ◌, IfSome, pos, unsigned_abs, int_div};
ghost use Rattle.ratio_integer.specs.Arithmetic.{difference_of, sum_of};
ghost use Rattle.ratio_integer.specs.Division.{IsGcdOf, IsMultiple};
ghost use Rattle.ratio_integer.specs.Fraction.{ChecksLowest, IsLowestTerms};
ghost use Rattle.ratio_integer.specs.Range.{IsHeld};
ghost use Rattle.ratio_core.specs.Joined.{IsCutBy};

use crate::magnitudes::has_short_numbers;
use crate::sums::mixed::{mixed_difference, mixed_sum};
use ratio_integer::{Integer, both_held, lowest_terms};

/// The lowest terms of `a/b + c/d`, or `None` if they do not fit. It requires both fractions in lowest
/// terms. Over `i8`, 1/36 + 1/28 is 4/63.
pub fn checked_add<T: Integer>(a: T, b: T, c: T, d: T) -> Option<(T, T)>
    requires left { IsLowestTerms (T.value a) (T.value b) }
    requires right { IsLowestTerms (T.value c) (T.value d) }
    ensures { ChecksLowest (λ r. T.value r.0) (λ r. T.value r.1) T.lo T.hi
        (sum_of (T.value a) (T.value b) (T.value c) (T.value d)) result }
{
    if b == d
        && let Some(sum) = a.try_plus(c)
    {
        return Some(lowest_terms(sum, b));
    }
    let g = gcd_with(b, d);
    let for_right = divided(b, g);
    let for_left = divided(d, g);
    if let Some(left) = a.try_times(for_left)
        && let Some(right) = c.try_times(for_right)
        && let Some(sum) = left.try_plus(right)
        && let Some(common) = b.try_times(for_left)
    {
        return Some(divided_by(sum, common, g));
    }
    mixed_sum(a, b, c, d, g)
}

/// The lowest terms of `a/b - c/d`, or `None` if they do not fit. It requires both fractions in lowest
/// terms. Over `u8`, 255/2 - 253/2 is 1/1.
///
/// Neighbours, as 22/7 and 19/6, differ by 1 over the product of their denominators. For types of at most 64 bits, this costs no gcd.
pub fn checked_sub<T: Integer>(a: T, b: T, c: T, d: T) -> Option<(T, T)>
    requires left { IsLowestTerms (T.value a) (T.value b) }
    requires right { IsLowestTerms (T.value c) (T.value d) }
    ensures { ChecksLowest (λ r. T.value r.0) (λ r. T.value r.1) T.lo T.hi
        (difference_of (T.value a) (T.value b) (T.value c) (T.value d)) result }
{
    if b == d
        && let Some(difference) = a.try_minus(c)
    {
        return Some(lowest_terms(difference, b));
    }
    if let Some(numer) = one_apart(a, b, c, d) {
        return Some((numer, b.try_times(d)?));
    }
    let g = gcd_with(b, d);
    let for_right = divided(b, g);
    let for_left = divided(d, g);
    if let Some(minuend) = a.try_times(for_left)
        && let Some(subtrahend) = c.try_times(for_right)
        && let Some(difference) = minuend.try_minus(subtrahend)
        && let Some(common) = b.try_times(for_left)
    {
        return Some(divided_by(difference, common, g));
    }
    mixed_difference(a, b, c, d, g)
}

// 1 or -1, if it is `a * d - c * b`. Types of more than 64 bits do not look for it, since the products would cost too much there.
#[inline(always)]
fn one_apart<T: Integer>(a: T, b: T, c: T, d: T) -> Option<T>
    ensures one { IfSome result (λ t. unsigned_abs (T.value t) ≡ 1) }
    ensures held { IfSome result (λ t. IsHeld T.lo T.hi (T.value t)) }
    ensures difference { IfSome result (λ t. T.value t ≡ T.value a *ℤ T.value d -ℤ T.value c *ℤ T.value b) }
{
    if !has_short_numbers::<T>() {
        return None;
    }
    let left = a.to_i128()?.try_times(d.to_i128()?)?;
    let right = c.to_i128()?.try_times(b.to_i128()?)?;
    let difference = left.try_minus(right)?;
    if difference.unsigned_abs() != 1 {
        return None;
    }
    let numer = T::from_i128(difference)?;
    Some(numer)
}

// The gcd of `n` and `d`. If `d` is 1, as the denominator of a whole number is, nothing is computed.
#[inline(always)]
fn gcd_with<T: Integer>(n: T, d: T) -> T
    requires { pos 0 <ℤ T.value d }
    ensures { IsGcdOf (T.value n) (T.value d) (T.value result) }
{
    if d.is_one() {
        return d;
    }
    n.gcd(d)
}

// The quotient of a denominator and `g`. Most often `g` is 1, and nothing is divided.
#[inline(always)]
fn divided<T: Integer>(denom: T, g: T) -> T
    requires denom { pos 0 <ℤ T.value denom }
    requires positive { pos 0 <ℤ T.value g }
    ensures { T.value result ≡ int_div (T.value denom) (T.value g) }
{
    if g.is_one() {
        return denom;
    }
    denom.div_rem(g).0
}

// A number and a multiple of `g`, both divided by the gcd of the number and `g`.
fn divided_by<T: Integer>(n: T, m: T, g: T) -> (T, T)
    requires positive { pos 0 <ℤ T.value g }
    requires multiple { IsMultiple (T.value m) (T.value g) }
    ensures { IsCutBy T.lo T.hi (T.value n) (T.value m) (T.value g) (T.value result.0) (T.value result.1) }
{
    let shared = gcd_with(n, g);
    if shared.is_one() {
        both_held(n, m);
        return (n, m);
    }
    let (numer, _) = n.div_rem(shared);
    let (denom, _) = m.div_rem(shared);
    both_held(numer, denom);
    (numer, denom)
}
