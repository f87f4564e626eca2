//! The lowest terms of a decimal whose parts are cut, or of its 100th part, after its point has moved: from one number of 64 bits, if the
//! decimal is short.
//!
//! The digits of a short decimal are a number of 64 bits over a power of 10. What divides both is a product of twos and fives, and there
//! are at most 19 of each. So they are taken out by divisions by 2 and by 5, which the compiler turns into products.
ghost use Rattle.std.specs.Prelude.{◌*◌, ◌^◌, ◌<◌, ◌++◌, ◌≡◌, ◌≤◌, IfSome, length, pos};
ghost use Rattle.std.specs.Str.Parse.{AllDigits, digits_value_after};
ghost use Rattle.ratio_integer.specs.Fraction.{IsLowestTermsOf};
ghost use Rattle.ratio_core.specs.Reading.{digits_sum};
ghost use Rattle.ratio_decimal.specs.DecimalCuts.{ChecksTerms, ChecksZero, IsWithout};
ghost use Rattle.ratio_decimal.specs.DecimalReading.{tens_above, tens_below};

use crate::reading::cut::{digit_at, number_after, with_zeros};
use crate::reading::terms::{NOTHING, Terms, digits_before, whole_before, zeros_before};

/// The lowest terms of the digits before and behind a point, times 10 to an exponent, which is negated if `down`. `None` if
/// one of them is 2^128 or more.
pub(crate) fn lowest(whole: &[u8], part: &[u8], down: bool, exponent: &[u8]) -> Option<Terms>
    requires whole { AllDigits 10 whole.now }
    requires part { AllDigits 10 part.now }
    requires exponent { AllDigits 10 exponent.now }
    ensures { ChecksTerms (digits_sum 10 (whole.now ++ part.now) * tens_above down (digits_sum 10 exponent.now))
        (10 ^ length part.now * tens_below down (digits_sum 10 exponent.now)) result }
{
    match number_after(0, exponent) {
        None => only_zero(whole, part),
        Some(tens) => {
            if let Some(terms) = short_lowest(whole, part, down, tens) {
                return Some(terms);
            }
            if down {
                point_moved_left(whole, part, tens)
            } else {
                point_moved_right(whole, part, tens)
            }
        }
    }
}

/// The lowest terms of the decimal by 100, for a percentage: the exponent is 2 lower.
pub(crate) fn lowest_hundredth(
    whole: &[u8],
    part: &[u8],
    down: bool,
    exponent: &[u8],
) -> Option<Terms>
    requires whole { AllDigits 10 whole.now }
    requires part { AllDigits 10 part.now }
    requires exponent { AllDigits 10 exponent.now }
    ensures { ChecksTerms (digits_sum 10 (whole.now ++ part.now) * tens_above down (digits_sum 10 exponent.now))
        (100 * (10 ^ length part.now * tens_below down (digits_sum 10 exponent.now))) result }
{
    match number_after(0, exponent) {
        None => only_zero(whole, part),
        Some(tens) => {
            if down {
                match tens.checked_add(2) {
                    None => only_zero(whole, part),
                    Some(more) => point_moved_left(whole, part, more),
                }
            } else if tens < 2 {
                point_moved_left(whole, part, 2 - tens)
            } else {
                point_moved_right(whole, part, tens - 2)
            }
        }
    }
}

// The lowest terms of the digits for an exponent of 2^128 or more. No number but 0 has one that fits.
fn only_zero(whole: &[u8], part: &[u8]) -> Option<Terms>
    requires whole { AllDigits 10 whole.now }
    requires part { AllDigits 10 part.now }
    ensures value { ChecksZero (digits_sum 10 (whole.now ++ part.now)) result }
    ensures short { length whole.now < 2 ^ 64 }
    ensures brief { length part.now < 2 ^ 64 }
{
    let first = number_after(0, whole)?;
    let all = number_after(first, part)?;
    if all == 0 { Some(NOTHING) } else { None }
}

// The lowest terms of the digits, times 10 to `tens`.
fn point_moved_right(whole: &[u8], part: &[u8], tens: u128) -> Option<Terms>
    requires whole { AllDigits 10 whole.now }
    requires part { AllDigits 10 part.now }
    ensures { ChecksTerms (digits_sum 10 (whole.now ++ part.now) * 10 ^ tens) (10 ^ length part.now) result }
{
    let first = number_after(0, whole)?;
    if tens < part.len() as u128 {
        let (moved, rest) = part.split_at(tens as usize);
        let number = number_after(first, moved)?;
        let behind = digits_before(rest, NOTHING)?;
        whole_before(number, behind)
    } else {
        let all = number_after(first, part)?;
        let numer = with_zeros(all, tens - part.len() as u128)?;
        Some(Terms { numer, denom: 1 })
    }
}

// The lowest terms of the digits, over 10 to `tens`.
fn point_moved_left(whole: &[u8], part: &[u8], tens: u128) -> Option<Terms>
    requires whole { AllDigits 10 whole.now }
    requires part { AllDigits 10 part.now }
    ensures { ChecksTerms (digits_sum 10 (whole.now ++ part.now)) (10 ^ length part.now * 10 ^ tens) result }
{
    let behind = digits_before(part, NOTHING)?;
    if tens < whole.len() as u128 {
        let (rest, moved) = whole.split_at(whole.len() - tens as usize);
        let number = number_after(0, rest)?;
        let more = digits_before(moved, behind)?;
        whole_before(number, more)
    } else {
        let all = digits_before(whole, behind)?;
        zeros_before(tens - whole.len() as u128, all)
    }
}

// The lowest terms of the digits before and behind a point, times 10 to `tens`, or over it if `down`. `None` says nothing about the
// digits: their number may not fit 64 bits, or the moved point may have more than 19 digits behind it, or zeros before it.
fn short_lowest(whole: &[u8], part: &[u8], down: bool, tens: u128) -> Option<Terms>
    requires whole { AllDigits 10 whole.now }
    requires part { AllDigits 10 part.now }
    ensures { IfSome result (λ r. IsLowestTermsOf (pos (digits_sum 10 (whole.now ++ part.now) * tens_above down tens))
        (pos (10 ^ length part.now * tens_below down tens)) (pos r.numer) (pos r.denom)) }
{
    let places = places_behind(part.len(), down, tens)?;
    let first = short_number(0, whole)?;
    let number = short_number(first, part)?;
    Some(short_terms(number, places))
}

// How many digits are behind a point that is moved by `tens`. `None` says nothing: there may be more than 19, or zeros before it.
fn places_behind(places: usize, down: bool, tens: u128) -> Option<u32>
    ensures few { IfSome result (λ k. k ≤ 19) }
    ensures power { IfSome result (λ k. 10 ^ places * tens_below down tens ≡ 10 ^ k * tens_above down tens) }
{
    if places > 19 || tens > 19 {
        return None;
    }
    let before = places as u32;
    let moved = tens as u32;
    if down {
        if before + moved > 19 {
            None
        } else {
            Some(before + moved)
        }
    } else if moved > before {
        None
    } else {
        Some(before - moved)
    }
}

// The number of the digits, after those of `first`. `None` says nothing about the digits.
fn short_number(first: u64, digits: &[u8]) -> Option<u64>
    requires { AllDigits 10 digits.now }
    ensures { IfSome result (λ n. n ≡ digits_value_after 10 first digits.now) }
{
    let mut number = first;
    let mut at = 0;
    'digits: while at < digits.len() {
        number = number
            .checked_mul(10)?
            .checked_add(digit_at(digits, at) as u64)?;
        at += 1;
    }
    Some(number)
}

// The lowest terms of a number over a power of 10.
fn short_terms(number: u64, places: u32) -> Terms
    requires { places ≤ 19 }
    ensures { IsLowestTermsOf (pos number) (pos (10 ^ places)) (pos result.numer) (pos result.denom) }
{
    let (odd, twos) = without(2, number, places);
    let (numer, fives) = without(5, odd, places);
    Terms {
        numer: numer as u128,
        denom: (2u64.pow(twos) * 5u64.pow(fives)) as u128,
    }
}

// The number without its factors `prime`, of which at most `most` are taken out, and how many more could be.
#[inline(always)]
fn without(prime: u64, number: u64, most: u32) -> (u64, u32)
    requires { 2 ≤ prime }
    ensures { IsWithout prime number most result.0 result.1 }
{
    let mut rest = number;
    let mut left = most;
    'factors: while left > 0 && rest % prime == 0 {
        rest /= prime;
        left -= 1;
    }
    (rest, left)
}
