//! Rows of fractions printed with a precision, from outside.
use crate::asserting::reads;
use num_rational::Reduced;
use ratio_integer::Primitive;
use std::fmt::InlineText;

// Room for a row.
type Line = InlineText<240>;

// The fraction, and 0 if its lowest terms do not fit.
fn reduced<T: Primitive>(numer: T, denom: T) -> Reduced<T> {
    Reduced::checked_new(numer, denom).unwrap_or(Reduced::zero())
}

#[test]
fn few_places(rt: HostRuntime) {
    let x = reduced(7i64, 2);
    let row = Line::of(format_args!("{x:.2}|{x:8.3}|{x:+.0}|{x:08.2}|{x}|{x:6}"));
    reads(&rt, row.as_str(), "3.50|   3.500|+4|00003.50|7/2|   7/2");
}

#[test]
fn below_zero(rt: HostRuntime) {
    let x = reduced(-5i8, 2);
    let row = Line::of(format_args!("{x:.0}|{x:+08.1}|{x:*<8.1}|{x:^9.1}|{x:é>7.2}"));
    reads(&rt, row.as_str(), "-2|-00002.5|-2.5****|  -2.5   |éé-2.50");
    let x = reduced(-1i64, 1000);
    let row = Line::of(format_args!("{x:.2}|{x:+.2}|{x:.3}|{x:06.0}"));
    reads(&rt, row.as_str(), "0.00|+0.00|-0.001|000000");
}

#[test]
fn many_places(rt: HostRuntime) {
    let third = reduced(1i64, 3);
    let row = Line::of(format_args!("{third:.100}"));
    reads(
        &rt,
        row.as_str(),
        "0.3333333333333333333333333333333333333333333333333333333333333333333333333333333333333333333333333333",
    );
    let x = reduced(-1i16, 128);
    let row = Line::of(format_args!("{x:.38}|{x:.39}|{x:+.39}"));
    reads(
        &rt,
        row.as_str(),
        "-0.00781250000000000000000000000000000000|-0.007812500000000000000000000000000000000|-0.007812500000000000000000000000000000000",
    );
    let x = reduced(i128::MIN, i128::MAX);
    let row = Line::of(format_args!("{x:.45}"));
    reads(
        &rt,
        row.as_str(),
        "-1.000000000000000000000000000000000000005877472",
    );
}

// This fraction is 1/10 less 1/30000000000000000000000000000000000000010, so its digits begin with 0.0 and 39 nines.
#[test]
fn nines(rt: HostRuntime) {
    let x = reduced(
        30_000_000_000_000_000_000_000_000_000_000_000_000u128,
        300_000_000_000_000_000_000_000_000_000_000_000_001,
    );
    let row = Line::of(format_args!("{x:.38}|{x:.39}|{x:.40}|{x:.41}"));
    reads(
        &rt,
        row.as_str(),
        "0.10000000000000000000000000000000000000|0.100000000000000000000000000000000000000|0.0999999999999999999999999999999999999997|0.09999999999999999999999999999999999999967",
    );
}

#[test]
fn many_places_in_a_width(rt: HostRuntime) {
    let x = reduced(5i64, 2);
    let row = Line::of(format_args!("{x:45.39}|{x:<45.39}|{x:*^45.39}|{x:045.39}"));
    reads(
        &rt,
        row.as_str(),
        "    2.500000000000000000000000000000000000000|2.500000000000000000000000000000000000000    |**2.500000000000000000000000000000000000000**|00002.500000000000000000000000000000000000000",
    );
    let x = reduced(-5i64, 2);
    let row = Line::of(format_args!("{x:+045.39}|{x:é^45.40}|{x:3.39}"));
    reads(
        &rt,
        row.as_str(),
        "-0002.500000000000000000000000000000000000000|é-2.5000000000000000000000000000000000000000é|-2.500000000000000000000000000000000000000",
    );
}
