//! Rows of fractions printed under the options of a pair of braces, and into texts that are there, from outside.
use crate::asserting::{all_hold, reads};
use crate::ratios::forms::raw;
use num_rational::{BaseTenText, Form, Ratio, RatioText, Reduced, Reduced64};
use ratio_integer::Primitive;
use std::fmt;
use std::fmt::{Binary, Display, Formatter, InlineText, LowerHex, Octal, UpperHex, Write};
use std::process::Abort;

/// A fraction that is printed in a form, under the options of its pair of braces.
#[derive(Drop)]
pub(crate) struct Shown<X: Copy + Display + Binary + Octal + LowerHex + UpperHex> {
    pub fraction: X,
    pub form: Form,
}

impl<X: Copy + Display + Binary + Octal + LowerHex + UpperHex> Display for Shown<X> {
    fn fmt<W: Write>(&self, f: &mut Formatter<W>) -> fmt::Result {
        match self.form {
            Form::Decimal => Display::fmt(&self.fraction, f),
            Form::Binary => Binary::fmt(&self.fraction, f),
            Form::Octal => Octal::fmt(&self.fraction, f),
            Form::LowerHex => LowerHex::fmt(&self.fraction, f),
            Form::UpperHex => UpperHex::fmt(&self.fraction, f),
        }
    }
}

/// `numer/denom` in this form, and 0/1 if the denominator is 0.
pub(crate) fn shown_as<T: Primitive>(numer: T, denom: T, form: Form) -> Shown<Ratio<T>> {
    let fraction = raw(numer, denom).unwrap_or(Ratio::zero());
    Shown { fraction, form }
}

// A row of printed fractions.
type Line = InlineText<120>;

// The first form in which -7/12 over `i8` is printed otherwise: plain, with a sign, with a prefix,
// in a width, or with zeros.
fn first_misprinted<X>(fraction: X) -> Option<usize>
where
    X: Copy + Drop + Display + Binary + Octal + LowerHex + UpperHex,
{
    let rows = [
        (Form::Decimal, "-7/12|-7/12|-7/12|    -7/12|-00000007/12"),
        (
            Form::Binary,
            "11111001/1100|+11111001/1100|0b11111001/0b1100|11111001/1100|0b11111001/0b1100",
        ),
        (
            Form::Octal,
            "371/14|+371/14|0o371/0o14|   371/14|0o00371/0o14",
        ),
        (Form::LowerHex, "f9/c|+f9/c|0xf9/0xc|     f9/c|0x0000f9/0xc"),
        (Form::UpperHex, "F9/C|+F9/C|0xF9/0xC|     F9/C|0x0000F9/0xC"),
    ];
    for (i, &(form, want)) in rows.iter().enumerate() {
        let shown = Shown { fraction, form };
        let line = Line::of(format_args!("{shown}|{shown:+}|{shown:#}|{shown:>9}|{shown:#012}"));
        if line.as_str() != want {
            return Some(i);
        }
    }
    None
}

#[test]
fn each_form_is_printed(rt: HostRuntime) {
    all_hold(&rt, "forms", first_misprinted(Ratio::new_raw(-7i8, 12)));
    let x = Reduced::checked_new(-14i8, 24).unwrap_or(Reduced::zero());
    all_hold(&rt, "lowest terms", first_misprinted(x));
}

fn eleven_tenths(form: Form) -> Shown<Reduced64> {
    let fraction = Reduced64::checked_new(22, 20).unwrap_or(Reduced::zero());
    Shown { fraction, form }
}

#[test]
fn lowest_terms_are_printed(rt: HostRuntime) {
    let (binary, octal) = (eleven_tenths(Form::Binary), eleven_tenths(Form::Octal));
    let (lower, upper) = (eleven_tenths(Form::LowerHex), eleven_tenths(Form::UpperHex));
    let decimal = eleven_tenths(Form::Decimal);
    let row = Line::of(format_args!("{decimal:>6} {binary} {octal:#} {lower} {upper}"));
    reads(&rt, row.as_str(), " 11/10 1011/1010 0o13/0o12 b/a B/A");
}

fn signs(rt: &impl Abort) {
    let two = shown_as(2i64, 1, Form::Decimal);
    let minus_two = shown_as(-2i64, 1, Form::Decimal);
    let half = shown_as(1i64, 2, Form::Binary);
    let row = Line::of(format_args!("{two:+} {minus_two:+} {half} {half:+}"));
    reads(rt, row.as_str(), "+2 -2 1/10 +1/10");
}

fn prefixes(rt: &impl Abort) {
    let binary = shown_as(-1i8, 2, Form::Binary);
    let octal = shown_as(-1i8, 2, Form::Octal);
    let upper = shown_as(-1i8, 2, Form::UpperHex);
    let row = Line::of(format_args!("{binary:#} {octal:#} {upper:#}"));
    reads(rt, row.as_str(), "0b11111111/0b10 0o377/0o2 0xFF/0x2");
}

fn letters(rt: &impl Abort) {
    let fifteenth = shown_as(1i64, 15, Form::UpperHex);
    let lower = shown_as(-1i8, 2, Form::LowerHex);
    let row = Line::of(format_args!("{fifteenth} {lower} {lower:+}"));
    reads(rt, row.as_str(), "1/F ff/2 +ff/2");
}

#[test]
fn signs_and_prefixes(rt: HostRuntime) {
    signs(&rt);
    prefixes(&rt);
    letters(&rt);
    let decimal = shown_as(1i8, -2, Form::Decimal);
    let binary = shown_as(1i8, -2, Form::Binary);
    let row = Line::of(format_args!("{decimal} {binary}"));
    reads(&rt, row.as_str(), "1/-2 1/11111110");
}

fn decimal_widths(rt: &impl Abort) {
    let half = shown_as(1i64, 2, Form::Decimal);
    let minus_one = shown_as(-1i8, 1, Form::Decimal);
    let row = Line::of(format_args!("{half:<6}|{half:>8}|{half:*^7}|{minus_one:05}"));
    reads(rt, row.as_str(), "1/2   |     1/2|**1/2**|-0001");
}

fn prefixed_widths(rt: &impl Abort) {
    let half = shown_as(1i64, 2, Form::Binary);
    let eighth = shown_as(1i64, 8, Form::Octal);
    let row = Line::of(format_args!("{half:010} {half:#010} {eighth:#010}"));
    reads(rt, row.as_str(), "0000001/10 0b001/0b10 0o001/0o10");
}

#[test]
fn widths(rt: HostRuntime) {
    decimal_widths(&rt);
    prefixed_widths(&rt);
    let long = shown_as(u128::MAX, u128::MAX, Form::Binary)
        .fraction
        .text(Form::Binary, true);
    assert!(rt; long.as_str().len() == 261);
}

// The calls that write into a text that is there.
#[test]
fn texts_in_place(rt: HostRuntime) {
    let half = Ratio::new_raw(-2i64, 4);
    reads(&rt, half.base_ten_text().as_str(), "-2/4");
    let mut decimal = BaseTenText::empty();
    half.put_base_ten_text(&mut decimal);
    reads(&rt, decimal.as_str(), "-2/4");
    Ratio::from_integer(7i64).put_base_ten_text(&mut decimal);
    reads(&rt, decimal.as_str(), "7");
    let mut text = RatioText::empty();
    half.put_text(Form::LowerHex, true, &mut text);
    reads(&rt, text.as_str(), "0xfffffffffffffffe/0x4");
}

#[test]
fn texts_of_lowest_terms_in_place(rt: HostRuntime) {
    let half = Reduced64::checked_new(-2, 4).unwrap_or(Reduced::zero());
    reads(&rt, half.base_ten_text().as_str(), "-1/2");
    let mut decimal = BaseTenText::empty();
    half.put_base_ten_text(&mut decimal);
    reads(&rt, decimal.as_str(), "-1/2");
    let mut text = RatioText::empty();
    half.put_text(Form::LowerHex, true, &mut text);
    reads(&rt, text.as_str(), "0xffffffffffffffff/0x2");
}
