//! The greatest common divisor and the least common multiple of two fractions in lowest terms.
//!
//! One fraction divides another if the quotient is a whole number: 1/12 divides 1/4 and 1/6. Both results come
//! from those of the numerators and of the denominators, and are in lowest terms as they come.
ghost use Rattle.std.specs.Prelude.{pos, unsigned_abs};
ghost use Rattle.ratio_integer.specs.Fraction.{IsLowestTerms};
ghost use Rattle.ratio_integer.specs.Range.{Checks};
ghost use Rattle.ratio_core.specs.Divisors.{ChecksGcd, ChecksPair, IsGcdOfFractions, IsLcmOfFractions};

use ratio_integer::Integer;

/// The greatest fraction that divides both: 1/12 for 1/4 and 1/6. It is never negative. For a fraction and 0 it
/// is the absolute value of the fraction.
///
/// The call returns `None` exactly if a number of the result does not fit the type. Over `i8`, for -128/1 and
/// 0/1 it is 128/1.
pub fn checked_gcd<T: Integer>(a: T, b: T, c: T, d: T) -> Option<(T, T)>
    requires left { IsLowestTerms (T.value a) (T.value b) }
    requires right { IsLowestTerms (T.value c) (T.value d) }
    ensures { ChecksPair (λ r. T.value r.0) (λ r. T.value r.1) T.lo T.hi
        (IsGcdOfFractions (T.value a) (T.value b) (T.value c) (T.value d)) result }
{
    let denom = b.try_lcm(d)?;
    let numer = try_gcd(a, c)?;
    let _ = numer.held();
    let _ = denom.held();
    Some((numer, denom))
}

/// The least fraction above 0 that both divide: 1/2 for 1/4 and 1/6. It is never negative. If one of the two
/// fractions is 0, it is 0/1.
///
/// The call returns `None` exactly if a number of the result does not fit the type. Over `i8`, for 127/2 and
/// 126/1 it is 16002/1.
pub fn checked_lcm<T: Integer>(a: T, b: T, c: T, d: T) -> Option<(T, T)>
    requires left { IsLowestTerms (T.value a) (T.value b) }
    requires right { IsLowestTerms (T.value c) (T.value d) }
    ensures { ChecksPair (λ r. T.value r.0) (λ r. T.value r.1) T.lo T.hi
        (IsLcmOfFractions (T.value a) (T.value b) (T.value c) (T.value d)) result }
{
    let numer = a.try_lcm(c)?;
    let _ = b.held();
    let denom = b.gcd(d);
    let _ = numer.held();
    let _ = denom.held();
    Some((numer, denom))
}

// The greatest common divisor of two numbers, or `None` if it does not fit the type.
fn try_gcd<T: Integer>(a: T, c: T) -> Option<T>
    ensures { ChecksGcd T.value T.lo T.hi (T.value a) (T.value c) result }
{
    if c.is_zero() || a == c {
        return magnitude(a);
    }
    if a.is_zero() {
        return magnitude(c);
    }
    Some(a.gcd(c))
}

// The distance of the number from 0, or `None` if it does not fit the type.
fn magnitude<T: Integer>(a: T) -> Option<T>
    ensures { Checks T.value T.lo T.hi (pos (unsigned_abs (T.value a))) result }
{
    let _ = a.held();
    if a < T::ZERO {
        T::ZERO.try_minus(a)
    } else {
        Some(a)
    }
}
