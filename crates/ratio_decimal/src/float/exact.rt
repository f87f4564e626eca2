//! The fraction with exactly the value of a float, and numbers with a sign times powers of 2.
ghost use Rattle.std.specs.Prelude.{◌≡◌, ◌≢◌, ◌*◌, ◌^◌, ◌<◌, ◌≤◌, pos};
ghost use Rattle.ratio_integer.specs.Fraction.{ChecksLowest};
ghost use Rattle.ratio_integer.specs.Range.{Checks};
ghost use Rattle.ratio_decimal.specs.Floats.{fraction_of_float};
ghost use Rattle.ratio_core.specs.Signs.{with_sign};

use ratio_integer::Integer;

/// The bit of the sign, above eleven bits of the exponent.
const SIGN: u64 = 0x8000_0000_0000_0000;

/// The weight of the leading digit, which is not among the 52 bits that a float keeps.
const LEADING: u64 = 0x10_0000_0000_0000;

/// The lowest terms of exactly the value of the float: 3/4 for 0.75, and 3602879701896397/36028797018963968
/// for 0.1. Both 0.0 and -0.0 give 0/1. The call returns `None` exactly if the float is infinite or no
/// number, or if its lowest terms do not fit the type.
pub fn from_float<T: Integer>(x: f64) -> Option<(T, T)>
    ensures { ChecksLowest (λ r. T.value r.0) (λ r. T.value r.1) T.lo T.hi (fraction_of_float x) result }
{
    if x.is_nan() {
        return None;
    }
    let bits = x.to_bits();
    let is_negative = SIGN <= bits;
    let exponent = bits % SIGN / LEADING;
    let digits = bits % LEADING;
    if exponent == 0x7ff {
        return None;
    }
    if exponent == 0 {
        return scaled_by_powers(is_negative, digits, 0, 1074);
    }
    scaled_by_powers(is_negative, LEADING + digits, exponent - 1, 1074)
}

/// The lowest terms of `whole * 2^up / 2^down`, negated if `is_negative`, or `None` if they do not fit the type.
pub(crate) fn scaled_by_powers<T: Integer>(
    is_negative: bool,
    whole: u64,
    up: u64,
    down: u64,
) -> Option<(T, T)>
    requires up { up < 2 ^ 32 }
    requires down { down < 2 ^ 32 }
    ensures { ChecksLowest (λ r. T.value r.0) (λ r. T.value r.1) T.lo T.hi
        (with_sign is_negative (whole * 2 ^ up), pos (2 ^ down)) result }
{
    if whole == 0 {
        return Some((T::ZERO, T::ONE));
    }
    let zeros = whole.trailing_zeros();
    let odd = whole >> zeros;
    let twos = up + zeros as u64;
    let numer = doubled(is_negative, odd, twos.saturating_sub(down))?;
    let denom = doubled(false, 1, down.saturating_sub(twos))?;
    Some((numer, denom))
}

/// `size * 2^times`, negated if `is_negative`, or `None` if it does not fit the type.
fn doubled<T: Integer>(is_negative: bool, size: u64, times: u64) -> Option<T>
    ensures { Checks T.value T.lo T.hi (with_sign is_negative (size * 2 ^ times)) result }
{
    let mut number = T::from_i128(signed(is_negative, size))?;
    for done in 0..times {
        number = number.try_plus(number)?;
    }
    let _ = number.held();
    Some(number)
}

/// The number, negated if `is_negative`.
pub(crate) fn signed(is_negative: bool, size: u64) -> i128
    ensures { result ≡ with_sign is_negative size }
{
    let number = size as i128;
    if is_negative { -number } else { number }
}
