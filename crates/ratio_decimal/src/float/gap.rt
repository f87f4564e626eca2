//! The simplest fraction between two ends over one denominator, such as those halfway to a float's neighbours.
ghost use Rattle.std.specs.Prelude.{◌≡◌, ◌+◌, ◌*◌, ◌^◌, ◌<◌, ◌≤◌};
ghost use Rattle.ratio_decimal.specs.Rationalizing.{ChecksFirstOver, ChecksInside, ChecksSize};

use crate::float::exact::signed;
use ratio_approximation::simplest::simplest_between;
use ratio_integer::Primitive;

/// The simplest fraction strictly between `low` and `high` over 2^`down`, or the same below 0. `None` exactly if
/// its numbers do not fit the type.
pub(crate) fn simplest_inside<T: Primitive>(
    is_negative: bool,
    low: u64,
    high: u64,
    down: u64,
) -> Option<(T, T)>
    requires low { 0 < low }
    requires room { low + 2 ≤ high }
    requires short { high < 2 ^ 56 }
    ensures { ChecksInside T.value T.lo T.hi is_negative low high (2 ^ down) result }
{
    let (numer, denom) = simplest_size(low, high, down)?;
    let signed_numer = T::from_i128(signed(is_negative, numer as u64))?;
    Some((signed_numer, T::from_u128(denom)?))
}

// The simplest fraction between the ends. Small ends need a power of two that has more than 128 digits. The numerator is 1 there.
fn simplest_size(low: u64, high: u64, down: u64) -> Option<(u128, u128)>
    requires low { 0 < low }
    requires room { low + 2 ≤ high }
    requires short { high < 2 ^ 56 }
    ensures { ChecksSize low high (2 ^ down) result }
{
    if down < 64 {
        return over_short(low, high, 1 << down);
    }
    if down < 128 {
        return over_long(low, high, 1 << down);
    }
    let denom = first_over(high, down)?;
    Some((1, denom))
}

// The search over a number of 64 digits takes less time.
fn over_short(low: u64, high: u64, denom: u64) -> Option<(u128, u128)>
    requires room { low + 2 ≤ high }
    requires denom { 0 < denom }
    ensures { ChecksSize low high denom result }
{
    let (numer, denom) = simplest_between::<u64>(low, denom, high, denom)?;
    Some((numer as u128, denom as u128))
}

// Over a number of up to 128 digits, the search is for the reciprocal of the result, which is `whole` or more. What it has above
// `whole` is found with numbers of 64 digits, which takes less time. If `whole + 1` is below the reciprocal of the low end, it is the result's.
fn over_long(low: u64, high: u64, power: u128) -> Option<(u128, u128)>
    requires low { 0 < low }
    requires room { low + 2 ≤ high }
    requires short { high < 2 ^ 56 }
    requires power { 0 < power }
    ensures { ChecksSize low high power result }
{
    let whole = power / high as u128;
    let high_rest = power - whole * high as u128;
    let low_rest = power - whole * low as u128;
    if (low as u128) < low_rest {
        return Some((1, whole + 1));
    }
    let (more, numer) = simplest_between::<u64>(high_rest as u64, high, low_rest as u64, low)?;
    Some((numer as u128, whole * numer as u128 + more as u128))
}

/// 2^127.
const START: u128 = 0x8000_0000_0000_0000_0000_0000_0000_0000;

// The least number whose product with `high` is above 2^`down`, by long division. `None` if it does not fit.
fn first_over(high: u64, down: u64) -> Option<u128>
    requires high { (0 < high) × (high < 2 ^ 56) }
    requires down { 128 ≤ down }
    ensures { ChecksFirstOver (2 ^ down) high result }
{
    if 192 <= down {
        return None;
    }
    let divisor = high as u128;
    let more = down - 127;
    let whole = (START / divisor).checked_mul(1 << more)?;
    let last = ((START % divisor) << more) / divisor;
    whole.checked_add(last)?.checked_add(1)
}
