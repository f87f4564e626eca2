//! Printing a fraction as a text, from the last byte to the first: the forms, their prefixes, the array `FixedText`, decimal digits, and
//! the `magnitude` of a number.
//!
//! `numeral` prints numbers in base 2, 8 and 16, and `reading` reads texts.
ghost use Rattle.std.specs.Prelude.{◌≡◌, ◌≢◌, ◌+◌, ◌≤◌, ◌≤ℤ◌, ◌<ℤ◌, ◌++◌, ◌/◌, ◌%◌, ◌^◌, ◌<◌, ◌∷◌, [], decimal, drop, false, IsAscii, length, List, pos, slice_set, unsigned_abs, ℕ};
ghost use Rattle.std.specs.Fmt.{signed_decimal};
ghost use Rattle.ratio_core.specs.declared.text.Form.TheVariants.{Decimal};
ghost use Rattle.ratio_core.specs.Printing.{base_of, base_ten_room, number_text, prefix_of, ReadsBack, shown_prefix, text_of};
ghost use Rattle.ratio_core.specs.Reading.{IsFractionText, IsSlashedText};

mod numeral;
mod reading;

use crate::text::numeral::{put_numeral, twos_complement};
use itoa::write_digits;
use ratio_integer::{Primitive, both_held};
pub use reading::{from_str, from_str_radix, leading_fields};
use std::marker::Model;

/// How the numbers of a fraction are printed.
#[derive(Clone, Copy, PartialEq, Debug)]
pub enum Form {
    /// Decimal digits, after a minus for a number below 0.
    Decimal,
    /// The two's complement in base 2, in the width of the type: `11111111` for -1 over `i8`. Its prefix is `0b`.
    Binary,
    /// The two's complement in base 8: `377` for -1 over `i8`. Its prefix is `0o`.
    Octal,
    /// The two's complement in base 16, with the digits `a` to `f`: `ff` for -1 over `i8`. Its prefix is `0x`.
    LowerHex,
    /// The two's complement in base 16, with the digits `A` to `F`: `FF` for -1 over `i8`. Its prefix is `0x`, too.
    UpperHex,
}

/// The text of a fraction, of at most `ROOM` bytes. Contracts see its bytes.
#[derive(Drop)]
pub struct FixedText<const ROOM: usize> {
    // The text ends where the array does.
    pub bytes: [u8; ROOM],
    pub start: usize,
}

/// The text of a fraction in base 10, of at most 81 bytes: a slash, and two numbers of 39 digits with a minus each.
pub type BaseTenText = FixedText<81>;

/// The text of a fraction as a decimal. The longest one has 129 bytes: that of (2^128-1)/2^127, with 127 places. The array
/// has one byte more, for a minus.
pub type DecimalText = FixedText<130>;

/// The text of a fraction, of at most 261 bytes: a slash, and two numbers of 128 digits with a prefix each.
pub type RatioText = FixedText<261>;

impl<const ROOM: usize> Model for FixedText<ROOM> {
    ghost Value = { List ℕ };

    ghost view = { λ t. drop t.start t.bytes };

    ghost invariant = { λ t. (t.start ≤ ROOM) × IsAscii (drop t.start t.bytes) };
}

impl<const ROOM: usize> FixedText<ROOM> {
    /// The empty text.
    #[inline(always)]
    pub fn empty() -> FixedText<ROOM>
        ensures { result ≡ [] }
    {
        FixedText {
            bytes: [0; ROOM],
            start: ROOM,
        }
    }

    /// The text.
    pub fn as_str(&self) -> &str
        ensures { result.now ≡ self.now }
    {
        let all = &self.bytes[..];
        unsafe { str::from_utf8_unchecked(&all[self.start..]) }
    }
}

/// The text of a fraction's two numbers, not reduced: the numerator and, unless the denominator is 1, a slash and
/// the denominator. With `alternate`, each number has the prefix of its base: `0x2/0x4`. Decimal has no prefix.
///
/// A text in base 10 with a positive denominator reads back as the fraction's lowest terms. A text in another
/// base does so, read in that base, if it has a slash, no prefix, and no number below 0.
pub fn text<T: Primitive>(numer: T, denom: T, form: Form, alternate: bool) -> RatioText
    ensures bytes { result ≡ text_of T.BITS form alternate (T.value numer) (T.value denom) }
    ensures reads_back { form ≡ Decimal → pos 0 <ℤ T.value denom
        → ReadsBack T.lo T.hi (IsFractionText T.lo T.hi result) (T.value numer) (T.value denom) }
    ensures reads_back_in_base { alternate ≡ false
        → pos 0 ≤ℤ T.value numer → pos 0 <ℤ T.value denom → T.value denom ≢ pos 1
        → ReadsBack T.lo T.hi (IsSlashedText T.lo T.hi (base_of form) result)
        (T.value numer) (T.value denom) }
{
    both_held(numer, denom);
    let mut text = RatioText::empty();
    put_text(numer, denom, form, alternate, &mut text);
    text
}

/// Writes that text over the one in `text`, so that no array is moved.
pub fn put_text<T: Primitive>(numer: T, denom: T, form: Form, alternate: bool, text: &mut RatioText)
    ensures { text.new ≡ text_of T.BITS form alternate (T.value numer) (T.value denom) }
{
    both_held(numer, denom);
    text.start = put_fraction(numer, denom, form, alternate, &mut text.bytes);
}

/// The text in base 10, in an array of 81 bytes, which takes less time to make.
pub fn base_ten_text<T: Primitive>(numer: T, denom: T) -> BaseTenText
    ensures bytes { result ≡ text_of T.BITS Decimal false (T.value numer) (T.value denom) }
    ensures short { length result ≤ base_ten_room T.lo T.hi }
    ensures reads_back { pos 0 <ℤ T.value denom
        → ReadsBack T.lo T.hi (IsFractionText T.lo T.hi result) (T.value numer) (T.value denom) }
{
    both_held(numer, denom);
    let mut text = BaseTenText::empty();
    put_base_ten_text(numer, denom, &mut text);
    text
}

/// Writes the text in base 10 over the one in `text`.
pub fn put_base_ten_text<T: Primitive>(numer: T, denom: T, text: &mut BaseTenText)
    ensures { text.new ≡ text_of T.BITS Decimal false (T.value numer) (T.value denom) }
{
    both_held(numer, denom);
    text.start = put_base_ten_fraction(numer, denom, &mut text.bytes);
}

// Writes the fraction at the end of the buffer, and returns where it starts.
fn put_fraction<T: Primitive>(
    numer: T,
    denom: T,
    form: Form,
    alternate: bool,
    buf: &mut [u8],
) -> usize
    requires { length buf.old ≡ 261 }
    ensures written { drop result buf.new
        ≡ text_of T.BITS form alternate (T.value numer) (T.value denom) }
    ensures inside { result ≤ 261 }
{
    if denom.is_one() {
        return put_prefixed(numer, form, alternate, buf, 261);
    }
    let slash = put_prefixed(denom, form, alternate, buf, 261) - 1;
    buf[slash] = b'/';
    put_prefixed(numer, form, alternate, buf, slash)
}

// Writes the number so that it ends at `end`, after its prefix if `alternate` is set, and returns where it starts.
fn put_prefixed<T: Primitive>(
    t: T,
    form: Form,
    alternate: bool,
    buf: &mut [u8],
    end: usize,
) -> usize
    requires room { 130 ≤ end }
    requires inside { end ≤ length buf.old }
    ensures written { drop result buf.new
        ≡ shown_prefix form alternate ++ (number_text T.BITS form (T.value t) ++ drop end buf.old) }
    ensures start { end ≤ result + 130 }
    ensures before { result ≤ end }
{
    let start = put_number(t, form, buf, end);
    if alternate {
        put_prefix(form, buf, start)
    } else {
        start
    }
}

// Writes the prefix of the form so that it ends at `end`, and returns where it starts. A decimal has none.
fn put_prefix(form: Form, buf: &mut [u8], end: usize) -> usize
    requires room { 2 ≤ end }
    requires inside { end ≤ length buf.old }
    ensures written { drop result buf.new ≡ prefix_of form ++ drop end buf.old }
    ensures start { end ≤ result + 2 }
    ensures before { result ≤ end }
{
    let letter = match form {
        Form::Decimal => return end,
        Form::Binary => b'b',
        Form::Octal => b'o',
        Form::LowerHex => b'x',
        Form::UpperHex => b'x',
    };
    buf[end - 1] = letter;
    buf[end - 2] = b'0';
    end - 2
}

// Writes the number without a prefix so that it ends at `end`, and returns where it starts.
fn put_number<T: Primitive>(t: T, form: Form, buf: &mut [u8], end: usize) -> usize
    requires room { 128 ≤ end }
    requires inside { end ≤ length buf.old }
    ensures written { drop result buf.new ≡ number_text T.BITS form (T.value t) ++ drop end buf.old }
    ensures start { end ≤ result + 128 }
    ensures before { result ≤ end }
{
    match form {
        Form::Decimal => put_decimal(t, buf, end),
        Form::Binary => put_numeral(twos_complement(t), 2, false, buf, end),
        Form::Octal => put_numeral(twos_complement(t), 8, false, buf, end),
        Form::LowerHex => put_numeral(twos_complement(t), 16, false, buf, end),
        Form::UpperHex => put_numeral(twos_complement(t), 16, true, buf, end),
    }
}

// Writes the fraction in decimal at the end of the buffer, and returns where it starts.
fn put_base_ten_fraction<T: Primitive>(numer: T, denom: T, buf: &mut [u8]) -> usize
    requires { length buf.old ≡ 81 }
    ensures written { drop result buf.new
        ≡ text_of T.BITS Decimal false (T.value numer) (T.value denom) }
    ensures inside { result ≤ 81 }
{
    if denom.is_one() {
        return put_decimal(numer, buf, 81);
    }
    let slash = put_decimal(denom, buf, 81) - 1;
    buf[slash] = b'/';
    put_decimal(numer, buf, slash)
}

// Writes the number in decimal so that it ends at `end`, and returns where it starts.
fn put_decimal<T: Primitive>(t: T, buf: &mut [u8], end: usize) -> usize
    requires room { 40 ≤ end }
    requires inside { end ≤ length buf.old }
    ensures written { drop result buf.new ≡ signed_decimal (T.value t) ++ drop end buf.old }
    ensures start { end ≤ result + 40 }
    ensures before { result ≤ end }
{
    let start = put_digits(magnitude(t), buf, end);
    if t < T::ZERO {
        buf[start - 1] = b'-';
        return start - 1;
    }
    start
}

/// The distance of the number from 0.
pub fn magnitude<T: Primitive>(t: T) -> u128
    ensures { result ≡ unsigned_abs (T.value t) }
{
    match t.to_u128() {
        Some(n) => n,
        None => t.to_i128().unwrap().unsigned_abs(),
    }
}

// 10^19 and 10^18: a group has 19 digits, and 18 of them are written after a 1.
const GROUP: u64 = 10_000_000_000_000_000_000;

const ONE_BEFORE: u64 = 1_000_000_000_000_000_000;

// The quotient of 2^127 by 10^19.
const RECIPROCAL: u128 = 17_014_118_346_046_923_173;

/// Writes the decimal digits so that they end at `end`, and returns where they start. A number above 64 bits
/// is written in groups of 19 digits: the last digit, and the 18 before it after a 1, which keeps their
/// leading zeros. The digits before the group then overwrite the 1.
pub fn put_digits(n: u128, buf: &mut [u8], end: usize) -> usize
    requires room { 39 ≤ end }
    requires inside { end ≤ length buf.old }
    ensures written { drop result buf.new ≡ decimal n ++ drop end buf.old }
    ensures start { end ≤ result + 39 }
    ensures before { result ≤ end }
{
    let mut left = n;
    let mut at = end;
    'groups: while left > u64::MAX as u128 {
        let high = groups(left);
        let low = (left - high * GROUP as u128) as u64;
        buf[at - 1] = b'0' + (low % 10) as u8;
        let _ = put_word(ONE_BEFORE + low / 10, buf, at - 1);
        left = high;
        at -= 19;
    }
    put_word(left as u64, buf, at)
}

// The quotient by 10^19, without a division in 128 bits. The upper half gives a guess that is at most 4 too
// low. An eighth of what is then left fits 64 bits.
#[inline(always)]
fn groups(n: u128) -> u128
    ensures { result ≡ n / 10 ^ 19 }
{
    let guess = n / (1 << 64) * RECIPROCAL / (1 << 63);
    let left = n - guess * GROUP as u128;
    guess + ((left / 8) as u64 / (GROUP / 8)) as u128
}

/// Writes a number of 64 bits as `put_digits` does, with divisions of 64 bits. The bounds are tested once for four digits.
pub fn put_word(n: u64, buf: &mut [u8], end: usize) -> usize
    requires room { length (decimal n) ≤ end }
    requires inside { end ≤ length buf.old }
    ensures start { result + length (decimal n) ≡ end }
    ensures written { drop result buf.new ≡ decimal n ++ drop end buf.old }
{
    let mut left = n;
    let mut at = end;
    'fours: while left >= 10_000 {
        at -= 4;
        put_four(left % 10_000, &mut buf[at..at + 4]);
        left /= 10_000;
    }
    write_digits(left, buf, at)
}

// Writes four digits, with leading zeros.
#[inline(always)]
fn put_four(n: u64, place: &mut [u8])
    requires small { n < 10000 }
    requires room { length place.old ≡ 4 }
    ensures { place.new
        ≡ (48 + n / 1000) ∷ (48 + n / 100 % 10) ∷ (48 + n / 10 % 10) ∷ (48 + n % 10) ∷ [] }
{
    put_two_digits(n % 100, place, 2);
    put_two_digits(n / 100, place, 0);
}

static TWO_DIGITS: [u8; 200] =
    *b"00010203040506070809101112131415161718192021222324252627282930313233343536373839404142434445464748495051525354555657585960616263646566676869707172737475767778798081828384858687888990919293949596979899";

// Writes two digits at a place, with a leading zero.
#[inline(always)]
fn put_two_digits(n: u64, place: &mut [u8], at: usize)
    requires small { n < 100 }
    requires room { at + 2 ≤ length place.old }
    ensures { place.new ≡ slice_set (slice_set place.old at (48 + n / 10)) (at + 1) (48 + n % 10) }
{
    let from = n as usize * 2;
    let (tens, ones) = (TWO_DIGITS[from], TWO_DIGITS[from + 1]);
    place[at] = tens;
    place[at + 1] = ones;
}
