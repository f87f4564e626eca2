//! The numbers of a fraction as totals take them, with a sign or as a sign and a magnitude, and back.
ghost use Rattle.std.specs.Prelude.{◌≡◌, ◌<◌, ◌^◌, ◌≤◌, pos, unsigned_abs, neg_ℤ, true};
ghost use Rattle.ratio_integer.specs.Fraction.{IsLowestTerms};
ghost use Rattle.ratio_integer.specs.Range.{Checks};
ghost use Rattle.ratio_slots.specs.Common.{whole_number};
ghost use Rattle.ratio_slots.specs.WideReads.{HasItsSign, wide_pair};
ghost use Rattle.num_rational.specs.Ratio.{ChecksRatio};
ghost use Rattle.num_rational.specs.Reduced.{ratio_in};
ghost use Rattle.ratio_totals.specs.Values.{pair_of};

use crate::short::Short;
use num_rational::Reduced;
use ratio_integer::Primitive;
use ratio_slots::WideFraction;

/// The numerator and the denominator.
pub(crate) fn parts<T: Short>(x: &Reduced<T>) -> (i128, u64)
    ensures pair { result ≡ pair_of x.now }
    ensures numer { unsigned_abs result.0 < 2 ^ 64 }
    ensures denom { 0 < result.1 }
{
    (wide(*x.numer()), size(*x.denom()))
}

/// The number without its sign.
pub(crate) fn size<T: Short>(t: T) -> u64
    ensures { result ≡ unsigned_abs (T.value t) }
{
    wide(t).unsigned_abs() as u64
}

/// The number as an `i128`.
pub(crate) fn wide<T: Short>(t: T) -> i128
    ensures number { result ≡ T.value t }
    ensures short { unsigned_abs (T.value t) < 2 ^ 64 }
{
    match t.to_i128() {
        Some(n) => n,
        None => unreachable!(),
    }
}

/// The fraction of two numbers in lowest terms, or `None` if one of them does not fit the type.
pub(crate) fn fraction<T: Short>(numer: i128, denom: u64) -> Option<Reduced<T>>
    requires lowest { IsLowestTerms numer (pos denom) }
    ensures { ChecksRatio (numer, pos denom) (ratio_in result) }
{
    let numer = T::from_i128(numer)?;
    let denom = T::from_u128(denom as u128)?;
    Reduced::checked_new(numer, denom)
}

/// The sign of the numerator, the numerator without it, and the denominator.
pub(crate) fn wide_parts<T: Primitive>(x: &Reduced<T>) -> WideFraction
    ensures pair { wide_pair result ≡ pair_of x.now }
    ensures denom { 0 < result.denom }
{
    wide_of(*x.numer(), *x.denom())
}

/// The fraction of two numbers, with the sign of the first one.
pub(crate) fn wide_of<T: Primitive>(numer: T, denom: T) -> WideFraction
    ensures numer { whole_number result.negative result.numer ≡ T.value numer }
    ensures size { result.numer ≡ unsigned_abs (T.value numer) }
    ensures denom { result.denom ≡ unsigned_abs (T.value denom) }
{
    let (negative, numer) = magnitude(numer);
    let (_, denom) = magnitude(denom);
    WideFraction {
        negative,
        numer,
        denom,
    }
}

/// Whether the number is below 0, and the number without its sign.
pub(crate) fn magnitude<T: Primitive>(t: T) -> (bool, u128)
    ensures number { whole_number result.0 result.1 ≡ T.value t }
    ensures size { result.1 ≡ unsigned_abs (T.value t) }
{
    match t.to_i128() {
        Some(n) => (n < 0, n.unsigned_abs()),
        None => match t.to_u128() {
            Some(n) => (false, n),
            None => unreachable!(),
        },
    }
}

/// The number of this sign and magnitude, or `None` if it does not fit the type.
pub(crate) fn signed<T: Primitive>(negative: bool, size: u128) -> Option<T>
    requires { negative ≡ true → 0 < size }
    ensures { Checks T.value T.lo T.hi (whole_number negative size) result }
{
    if !negative {
        return T::from_u128(size);
    }
    if size > 1 << 127 {
        return None;
    }
    T::from_i128(below_zero(size))
}

// The negative of a number of at most 2^127, which is not an `i128` itself.
fn below_zero(size: u128) -> i128
    requires some { 0 < size }
    requires few { size ≤ 2 ^ 127 }
    ensures { result ≡ neg_ℤ (pos size) }
{
    -((size - 1) as i128) - 1
}

/// The fraction of two numbers in lowest terms, or `None` if one of them does not fit the type.
pub(crate) fn wide_fraction<T: Primitive>(terms: WideFraction) -> Option<Reduced<T>>
    requires lowest { IsLowestTerms (wide_pair terms).0 (pos (wide_pair terms).1) }
    requires sign { HasItsSign terms }
    ensures { ChecksRatio ((wide_pair terms).0, pos (wide_pair terms).1) (ratio_in result) }
{
    let numer = signed(terms.negative, terms.numer)?;
    let denom = T::from_u128(terms.denom)?;
    Reduced::checked_new(numer, denom)
}
