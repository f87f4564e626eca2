//! Writing a fraction to a formatter with more places than `decimal` has: its sign, the digits before and in the last places, and fill.
//!
//! A denominator of 128 bits is below 2 * 10^39. So no fraction is less than half of 1/10^39 below a whole number, and
//! a carry passes at most 38 nines. All but the last 39 digits are written before the fraction is rounded.
ghost use Rattle.std.specs.Prelude.{◌≡◌, ◌*◌, ◌+◌, ◌^◌, ◌<◌, ◌≤◌, ◌<ℤ◌, ◌∷◌, ◌++◌, [], Bool, IfOk, OnOk, decimal, drop, encode_utf8, int_lt, length, pos, unsigned_abs, IsAscii, if◌then◌else◌};
ghost use Rattle.std.specs.Fmt.{HasWrittenStyled, IsFlush, WritesStyledOnOk, before_digits, fill_after_digits, formatter_spec, number_padding, padded_integral, padding_before, sign_text_with, spec_sign_plus, spec_zero_pad};
ghost use Rattle.core.specs.List.{repeat};
ghost use Rattle.ratio_decimal.specs.Decimal.{point, unsigned_places};
ghost use Rattle.ratio_integer.specs.LastDigits.{last_digits};
ghost use Rattle.ratio_decimal.specs.Precision.{half_even};

use crate::rounding_rule::{Rounding, rounded};
use ratio_core::sign::is_below_zero;
use ratio_core::sums::multiple_over;
use ratio_core::text::{BaseTenText, magnitude, put_digits};
use ratio_integer::{Primitive, both_held};
use std::fmt;
use std::fmt::{Alignment, Formatter, Write};

// 10^38
const POWER: u128 = 100_000_000_000_000_000_000_000_000_000_000_000_000;

/// Writes the fraction with so many places, at least 39, a half to the even digit. A width, a fill, a plus and zeros
/// work as for an integer: 1/3 has 102 bytes with 100 places. This is promised for a call that returns `Ok`, with a
/// formatter that indents nothing (`IsFlush`).
pub fn write_places<T: Primitive, W: Write>(
    numer: T,
    denom: T,
    places: usize,
    f: &mut Formatter<W>,
) -> fmt::Result
    requires positive { pos 0 <ℤ T.value denom }
    requires many { 39 ≤ places }
    ensures { WritesStyledOnOk W.write_str_gives f.old result (padded_integral (formatter_spec f.old)
        (int_lt (T.value numer) (pos 0)) [] (unsigned_places places
        (half_even (unsigned_abs (T.value numer) * 10 ^ places) (unsigned_abs (T.value denom))))) f.new }
{
    both_held(numer, denom);
    write_long(
        magnitude(numer),
        magnitude(denom),
        is_below_zero(numer),
        places,
        f,
    )
}

// Writes n/d, after a minus if `below`.
fn write_long<W: Write>(
    n: u128,
    d: u128,
    below: bool,
    places: usize,
    f: &mut Formatter<W>,
) -> fmt::Result
    requires positive { 0 < d }
    requires many { 39 ≤ places }
    ensures { WritesStyledOnOk W.write_str_gives f.old result (padded_integral (formatter_spec f.old)
        below [] (unsigned_places places (half_even (n * 10 ^ places) d))) f.new }
{
    let fill = f.fill();
    let whole = before_places(n / d);
    let whole = whole.as_str();
    let after = write_front(below, whole.len(), places, f)?;
    f.write_str(whole)?;
    write_digits(n % d, d, places, f)?;
    write_times(fill, after, f)
}

// A number, and the point behind it.
fn before_places(n: u128) -> BaseTenText
    ensures { result ≡ decimal n ++ point ∷ [] }
{
    let mut text = BaseTenText::empty();
    text.start = put_before_places(n, &mut text.bytes);
    text
}

// Writes them at the end of the buffer, and returns where they start.
fn put_before_places(n: u128, buf: &mut [u8]) -> usize
    requires { length buf.old ≡ 81 }
    ensures written { drop result buf.new ≡ decimal n ++ point ∷ [] }
    ensures ascii { IsAscii (drop result buf.new) }
    ensures inside { result ≤ 81 }
{
    buf[80] = b'.';
    put_digits(n, buf, 80)
}

// Writes the digits of rest/d behind the point.
fn write_digits<W: Write>(rest: u128, d: u128, places: usize, f: &mut Formatter<W>) -> fmt::Result
    requires rest { rest < d }
    requires many { 39 ≤ places }
    ensures { WritesStyledOnOk W.write_str_gives f.old result
        (last_digits places (half_even (rest * 10 ^ places) d)) f.new }
{
    let mut part = rest;
    let mut left = places;
    'digits: while left > 39 {
        let (digit, next) = multiple_over(part, 10, d);
        f.write_char((b'0' + digit as u8) as char)?;
        part = next;
        left -= 1;
    }
    f.write_str(last_places(part, d).as_str())
}

// The last 39 of them, rounded.
fn last_places(rest: u128, d: u128) -> BaseTenText
    requires { rest < d }
    ensures { result ≡ last_digits 39 (half_even (rest * 10 ^ 39) d) }
{
    let mut text = BaseTenText::empty();
    text.start = put_last_places(rest, d, &mut text.bytes);
    text
}

// Writes them at the end of the buffer, and returns where they start. The last 38 are written after a 1, which keeps
// their leading zeros. The first one overwrites it.
fn put_last_places(rest: u128, d: u128, buf: &mut [u8]) -> usize
    requires rest { rest < d }
    requires room { length buf.old ≡ 81 }
    ensures written { drop result buf.new ≡ last_digits 39 (half_even (rest * 10 ^ 39) d) }
    ensures ascii { IsAscii (drop result buf.new) }
    ensures inside { result ≤ 81 }
{
    let (digit, part) = rounded_places(rest, d);
    let start = put_digits(POWER + part, buf, 81);
    buf[start] = b'0' + digit as u8;
    start
}

// The first of them, with the carry of the others, and the other 38 as a number.
fn rounded_places(rest: u128, d: u128) -> (u128, u128)
    requires { rest < d }
    ensures digit { result.0 < 10 }
    ensures part { result.1 < 10 ^ 38 }
    ensures rounded { half_even (rest * 10 ^ 39) d ≡ result.0 * 10 ^ 38 + result.1 }
{
    let (digit, next) = multiple_over(rest, 10, d);
    let (carry, part) = rounded(next, d, POWER, Rounding::HalfEven);
    (digit + carry, part)
}

// Writes what stands before a number of so many bytes, and returns how often the fill stands after it.
fn write_front<W: Write>(
    below: bool,
    whole: usize,
    places: usize,
    f: &mut Formatter<W>,
) -> Result<usize, fmt::Error>
    ensures after { IfOk result
        (λ after. after ≡ fill_after_digits (formatter_spec f.old) below [] (whole + places)) }
    ensures styled { OnOk result (IsFlush f.old → HasWrittenStyled W.write_str_gives f.old
        (before_digits (formatter_spec f.old) below [] (whole + places)) f.new) }
{
    let sign = sign_of(below, f.sign_plus());
    let padding = room_left(f, whole, places, sign.len());
    let fill = f.fill();
    let (before, zeros) = sides(padding, f);
    write_times(fill, before, f)?;
    f.write_str(sign)?;
    write_times('0', zeros, f)?;
    Ok(padding.saturating_sub(before).saturating_sub(zeros))
}

// A minus below 0, and else a plus if it is asked for.
fn sign_of(below: bool, plus: bool) -> &'static str
    ensures { result.now ≡ sign_text_with plus below }
{
    if below {
        "-"
    } else if plus {
        "+"
    } else {
        ""
    }
}

// How far the number is short of the width.
fn room_left<W: Write>(f: &Formatter<W>, whole: usize, places: usize, sign: usize) -> usize
    ensures { (below : Bool) → sign ≡ length (sign_text_with (spec_sign_plus (formatter_spec f.now)) below)
        → result ≡ number_padding (formatter_spec f.now) below [] (whole + places) }
{
    f.width()
        .unwrap_or(0)
        .saturating_sub(whole)
        .saturating_sub(places)
        .saturating_sub(sign)
}

// How much fill and how many zeros stand before the number.
fn sides<W: Write>(padding: usize, f: &Formatter<W>) -> (usize, usize)
    ensures fill { result.0 ≡ (if spec_zero_pad (formatter_spec f.now) then 0
        else padding_before (formatter_spec f.now) padding 3) }
    ensures zeros { result.1 ≡ (if spec_zero_pad (formatter_spec f.now) then padding else 0) }
{
    if f.sign_aware_zero_pad() {
        (0, padding)
    } else {
        (fill_before(padding, f), 0)
    }
}

// How much of the padding stands before the number. A number stands to the right.
fn fill_before<W: Write>(padding: usize, f: &Formatter<W>) -> usize
    ensures { result ≡ padding_before (formatter_spec f.now) padding 3 }
{
    match f.align() {
        Some(Alignment::Left) => 0,
        Some(Alignment::Center) => padding / 2,
        Some(Alignment::Right) => padding,
        None => padding,
    }
}

// Writes a character so often.
fn write_times<W: Write>(c: char, times: usize, f: &mut Formatter<W>) -> fmt::Result
    ensures { WritesStyledOnOk W.write_str_gives f.old result (repeat times (encode_utf8 c)) f.new }
{
    'times: for _ in 0..times {
        f.write_char(c)?;
    }
    Ok(())
}
