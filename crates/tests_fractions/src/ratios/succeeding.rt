//! That formatting returns `Ok`, which no contract says: for each fraction over `i8` in each base, and under many precisions.
use crate::asserting::{all_hold, reads};
use crate::ratios::texts::shown_as;
use num_rational::{Form, Reduced};
use ratio_decimal::write_places;
use std::fmt::{Display, Formatter, InlineText};

// Whether printing the value returns `Ok`.
fn is_printed<D: Display + Drop>(value: D) -> bool {
    Formatter::new(InlineText::<1100>::new())
        .write(value)
        .is_ok()
}

// The fields of a row: all numerators over `i8`, each with all denominators.
fn fields(row: usize) -> (i8, i8) {
    let place = (row % 65_536) as i32;
    ((place / 256 - 128) as i8, (place % 256 - 128) as i8)
}

// The first row for which it does not. A row with the denominator 0 prints 0/1.
fn first_refused(form: Form) -> Option<usize> {
    for row in 0..65_536usize {
        let (numer, denom) = fields(row);
        if !is_printed(shown_as(numer, denom, form)) {
            return Some(row);
        }
    }
    None
}

#[test]
fn each_fraction_of_i8(rt: HostRuntime) {
    all_hold(&rt, "binary", first_refused(Form::Binary));
    all_hold(&rt, "octal", first_refused(Form::Octal));
    all_hold(&rt, "hexadecimal", first_refused(Form::LowerHex));
    all_hold(&rt, "capital letters", first_refused(Form::UpperHex));
    all_hold(&rt, "decimal", first_refused(Form::Decimal));
}

// Whether it is `Ok` with few, many and very many places.
fn are_printed(x: Reduced<i8>) -> bool {
    is_printed(format_args!("{x:.0}"))
        && is_printed(format_args!("{x:.1}"))
        && is_printed(format_args!("{x:.20}"))
        && is_printed(format_args!("{x:.299}"))
        && is_printed(format_args!("{x:.300}"))
        && is_printed(format_args!("{x:.301}"))
        && is_printed(format_args!("{x:.400}"))
        && is_printed(format_args!("{x:.1000}"))
}

// The first of every 997th row for which it is not.
fn first_refused_places() -> Option<usize> {
    for row in 0..65_536usize {
        let (numer, denom) = fields(row);
        if row % 997 == 0
            && let Some(x) = Reduced::checked_new(numer, denom)
            && !are_printed(x)
        {
            return Some(row);
        }
    }
    None
}

#[test]
fn precisions(rt: HostRuntime) {
    all_hold(&rt, "precisions", first_refused_places());
}

#[test]
fn a_long_decimal(rt: HostRuntime) {
    let mut f = Formatter::new(InlineText::<60>::new());
    assert!(rt; write_places(-1i64, 3, 40, &mut f).is_ok());
    reads(
        &rt,
        f.into_inner().as_str(),
        "-0.3333333333333333333333333333333333333333",
    );
}
