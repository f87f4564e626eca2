//! The simplest fraction that rounds to a float, from the float's parts and the gap around it.
ghost use Rattle.std.specs.Prelude.{◌≡◌, ◌+◌, ◌*◌, ◌%◌, ◌^◌, ◌<◌, ◌≤◌, ◌↔◌, IfSome, IsTrue};
ghost use Rattle.std.specs.Float.{binary32, binary64};
ghost use Rattle.std.specs.Float.Ieee.{hid};
ghost use Rattle.core.specs.Dec2flt.Rounding.{IsSignificand};
ghost use Rattle.ratio_integer.specs.Fraction.{IsLowestTerms};
ghost use Rattle.ratio_decimal.specs.Rationalize.{ChecksRationalized};
ghost use Rattle.ratio_decimal.specs.Rationalizing.{IsGap};

use crate::float::exact::scaled_by_powers;
use crate::float::format::FloatType;
use crate::float::gap::simplest_inside;
use ratio_integer::Primitive;

/// The simplest fraction that rounds to the float: 1/10 for 0.1, and 1/3 for 0.3333333333333333. A whole float
/// gives itself. For any other one it is the simplest fraction strictly between the two points that are halfway
/// to its neighbours. It is in lowest terms. Both 0.0 and -0.0 give 0/1. The call returns `None` exactly if the float is infinite or no
/// number, or if that fraction does not fit the type.
pub fn rationalize<T: Primitive>(x: f64) -> Option<(T, T)>
    ensures rational { ChecksRationalized T.value T.lo T.hi binary64 x result }
    ensures lowest { IfSome result (λ r. IsLowestTerms (T.value r.0) (T.value r.1)) }
{
    rationalized::<T, f64>(x)
}

/// The simplest fraction that rounds to a float of 32 bits, whose neighbours are further away: 1/3 for 0.33333334.
pub fn rationalize32<T: Primitive>(x: f32) -> Option<(T, T)>
    ensures rational { ChecksRationalized T.value T.lo T.hi binary32 x result }
    ensures lowest { IfSome result (λ r. IsLowestTerms (T.value r.0) (T.value r.1)) }
{
    rationalized::<T, f32>(x)
}

fn rationalized<T: Primitive, F: FloatType>(x: F) -> Option<(T, T)>
    ensures rational { ChecksRationalized T.value T.lo T.hi F.format (F.value x) result }
    ensures lowest { IfSome result (λ r. IsLowestTerms (T.value r.0) (T.value r.1)) }
{
    if x.is_no_number() {
        return None;
    }
    let bits = x.bits();
    let is_negative = F::SIGN <= bits;
    let size = bits % F::SIGN;
    if F::INFINITY <= size {
        return None;
    }
    let (digits, place) = parts::<F>(size);
    if is_whole::<F>(digits, place) {
        return scaled_by_powers(is_negative, digits, place, F::LEAST);
    }
    let (low, high) = gap::<F>(digits, place);
    simplest_inside(is_negative, low, high, F::LEAST - place + 2)
}

// The digits of a finite float with these bits, and their place: the float is the digits times 2^place times the
// least float above 0.
fn parts<F: FloatType>(size: u64) -> (u64, u64)
    ensures bits { size ≡ result.1 * hid F.format + result.0 }
    ensures significand { IsSignificand F.format result.0 result.1 }
{
    let leading = 1 << (F::DIGITS - 1);
    if size < leading {
        (size, 0)
    } else {
        (leading + size % leading, size / leading - 1)
    }
}

// Whether the float of these digits is a whole number.
fn is_whole<F: FloatType>(digits: u64, place: u64) -> bool
    requires { place < 2 ^ 11 }
    ensures { IsTrue result ↔ (digits * 2 ^ place % 2 ^ F.LEAST ≡ 0) }
{
    digits == 0 || F::LEAST <= place + digits.trailing_zeros() as u64
}

// The ends of the gap around the float of these digits, in quarters of its last place.
fn gap<F: FloatType>(digits: u64, place: u64) -> (u64, u64)
    requires some { 0 < digits }
    requires short { digits < 2 ^ 53 }
    ensures { IsGap F.format digits place result.0 result.1 }
{
    let high = 4 * digits + 2;
    if 0 < place && digits == 1 << (F::DIGITS - 1) {
        (high - 3, high)
    } else {
        (high - 4, high)
    }
}
