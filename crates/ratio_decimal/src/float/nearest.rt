//! The float nearest to a fraction: its leading digits, cut and rounded at the last one, and its bits.
ghost use Rattle.std.specs.Prelude.{◌≡◌, ◌+◌, ◌*◌, ◌/◌, ◌^◌, ◌<◌, ◌≤◌, ◌<ℤ◌, ℕ, IfSome, pos, unsigned_abs};
ghost use Rattle.std.specs.Float.{Format, binary32, binary64};
ghost use Rattle.std.specs.Float.Ieee.{low};
ghost use Rattle.core.specs.Dec2flt.Rounding.{IsCut, IsNearestBits, IsSignificand, scaled_bits};
ghost use Rattle.ratio_decimal.specs.Floats.{IsCutQuotient, nearest_float};

use crate::float::format::FloatType;
use crate::float::quotient::leading_digits;
use ratio_core::sign::is_below_zero;
use ratio_core::text::magnitude;
use ratio_integer::Primitive;

/// The float nearest to the fraction: 0.3333333333333333 for 1/3. If two are equally near, it is the one whose last
/// bit is 0: 9007199254740992 for 9007199254740993.
pub fn to_f64<T: Primitive>(numer: T, denom: T) -> f64
    requires { pos 0 <ℤ T.value denom }
    ensures { result ≡ nearest_float binary64 (T.value numer) (T.value denom) }
{
    nearest::<T, f64>(numer, denom)
}

/// The float of 32 bits nearest to the fraction: 0.33333334 for 1/3. It is infinite if the size of the fraction is at least 2^128-2^103.
pub fn to_f32<T: Primitive>(numer: T, denom: T) -> f32
    requires { pos 0 <ℤ T.value denom }
    ensures { result ≡ nearest_float binary32 (T.value numer) (T.value denom) }
{
    nearest::<T, f32>(numer, denom)
}

// If both numbers are floats, one division gives the result. The sign decides no branch, since a processor cannot guess it.
fn nearest<T: Primitive, F: FloatType>(numer: T, denom: T) -> F
    requires { pos 0 <ℤ T.value denom }
    ensures { F.value result ≡ nearest_float F.format (T.value numer) (T.value denom) }
{
    match (short::<T, F>(numer), short::<T, F>(denom)) {
        (Some(n), Some(d)) => F::quotient(n, d),
        _ => by_digits(numer, denom),
    }
}

// The number, if it has at most the digits of a float.
fn short<T: Primitive, F: FloatType>(t: T) -> Option<i64>
    ensures { IfSome result (λ n. (n ≡ T.value t) × (unsigned_abs n < 2 ^ F.DIGITS)) }
{
    let n = t.to_i128()?;
    let end = 1 << F::DIGITS;
    if -end < n && n < end {
        Some(n as i64)
    } else {
        None
    }
}

/// The float nearest to the fraction, without a division of floats.
pub(crate) fn by_digits<T: Primitive, F: FloatType>(numer: T, denom: T) -> F
    requires { pos 0 <ℤ T.value denom }
    ensures { F.value result ≡ nearest_float F.format (T.value numer) (T.value denom) }
{
    let bits = nearest_bits::<F>(magnitude(numer), magnitude(denom));
    F::of_bits(bits, is_below_zero(numer))
}

// The bits of the float nearest to n/d.
fn nearest_bits<F: FloatType>(n: u128, d: u128) -> u64
    requires { 0 < d }
    ensures { IsNearestBits F.format n d result }
{
    if n == 0 {
        return 0;
    }
    let (high_n, n_zeros) = moved_up(n);
    let (high_d, d_zeros) = moved_up(d);
    let (digits, is_more) = leading_digits(high_n, high_d);
    rounded::<F>(digits, is_more, n_zeros, d_zeros)
}

// The number with zeros behind it, so that it has 128 binary digits, and how many zeros these are.
fn moved_up(n: u128) -> (u128, u64)
    requires { 0 < n }
    ensures moved { result.0 ≡ n * 2 ^ result.1 }
    ensures full { 2 ^ 127 ≤ result.0 }
    ensures zeros { result.1 < 128 }
{
    let zeros = n.leading_zeros();
    (n << zeros, zeros as u64)
}

// The bits of the float nearest to n/d, from the leading digits of the quotient of n with `n_zeros` zeros behind it and
// d with `d_zeros`.
fn rounded<F: FloatType>(digits: u64, is_more: bool, n_zeros: u64, d_zeros: u64) -> u64
    requires full { 2 ^ 62 ≤ digits }
    requires zeros { (n_zeros < 128) × (d_zeros < 128) }
    ensures { (n d : ℕ) → 0 < d → IsCutQuotient (n * 2 ^ (n_zeros + 63)) (d * 2 ^ d_zeros) digits is_more
        → IsNearestBits F.format n d result }
{
    let (above, below) = (F::LEAST + d_zeros, n_zeros + 63);
    let length = 63 + (digits >> 63);
    // A float near 0 has fewer digits.
    let dropped = (length - F::DIGITS).max(below.saturating_sub(above));
    bits_of::<F>(
        kept_digits(digits, is_more, dropped),
        above + dropped - below,
    )
}

/// The digits without the last `dropped` ones, rounded to the nearest number. A tie goes to the even one.
pub(crate) fn kept_digits(digits: u64, is_more: bool, dropped: u64) -> u64
    requires { (0 < dropped) × (dropped < 64) }
    ensures nearest { (f : Format) (n d place : ℕ) → 0 < d → IsSignificand f (digits / 2 ^ dropped) place
        → IsCutQuotient (n * 2 ^ low f * 2 ^ dropped) (d * 2 ^ place) digits is_more → IsNearestBits f n d (scaled_bits f result place) }
    ensures small { result ≤ digits / 2 ^ dropped + 1 }
{
    let (kept, rest, half) = cut(digits, dropped);
    let is_up = if rest == half {
        is_more || kept % 2 == 1
    } else {
        half < rest
    };
    kept + is_up as u64
}

// The digits that are kept, those that are dropped, and half the weight of the last digit that is kept.
fn cut(digits: u64, dropped: u64) -> (u64, u64, u64)
    requires { (0 < dropped) × (dropped < 64) }
    ensures { IsCut digits dropped result.0 result.1 result.2 }
{
    (
        digits >> dropped,
        digits % (1 << dropped),
        1 << (dropped - 1),
    )
}

/// The bits of so many times 2^place times the least float above 0, or those of infinity.
pub(crate) fn bits_of<F: FloatType>(digits: u64, place: u64) -> u64
    requires digits { digits ≤ 2 ^ 53 }
    requires place { place < 2 ^ 11 }
    ensures { result ≡ scaled_bits F.format digits place }
{
    ((place << (F::DIGITS - 1)) + digits).min(F::INFINITY)
}
