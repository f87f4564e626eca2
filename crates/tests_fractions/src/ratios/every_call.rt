//! Calls of `Ratio` that no row asks, each once at a concrete type, and a refusal in a width.
use crate::asserting::each_holds;
use crate::ratios::forms::{answers, has};
use num_rational::{Constants, Ratio, RatioErrorKind, Rational, Rational32, Rational64};
use std::fmt::InlineText;
use std::test::Fail;

#[test]
fn construction_and_access(rt: HostRuntime) -> Result<(), Fail> {
    let half = Rational64::new_raw(1, 2);
    let pair: (i64, i64) = half.into();
    let word: isize = -2;
    let facts = [
        (*half.numer(), *half.denom()) == (1, 2),
        has(half.clone()?, (1, 2)),
        pair == (1, 2),
        has(Rational::new_raw(word, 1), (word, 1)),
        has(Rational32::new_raw(1, -2), (1, -2)),
        has(Rational32::from_integer(7), (7, 1)),
        has(Rational32::from(7), (7, 1)),
        has(Rational64::new_raw(355, 113).nearest(100), (311, 99)),
    ];
    each_holds(&rt, &facts);
    Ok(())
}

#[test]
fn constants(rt: HostRuntime) {
    let facts = [
        has(Rational64::ZERO, (0, 1)),
        has(Rational64::ONE, (1, 1)),
        has(Rational64::zero(), (0, 1)),
        has(Rational64::one(), (1, 1)),
        has(Rational64::default(), (0, 1)),
    ];
    each_holds(&rt, &facts);
    let mut x = Rational64::new_raw(123, 456);
    each_holds(&rt, &[!x.is_zero(), !x.is_one(), !x.is_integer()]);
    x.set_zero();
    each_holds(&rt, &[x.is_zero(), x.is_integer()]);
    x.set_one();
    each_holds(&rt, &[x.is_one(), x.is_integer()]);
}

#[test]
fn whole_numbers(rt: HostRuntime) {
    let wide = i64::MAX as i128;
    let large = u64::MAX as u128;
    let facts = [
        answers(Rational64::from_i64(i64::MIN), Some((i64::MIN, 1))),
        answers(Rational64::from_i128(wide), Some((i64::MAX, 1))),
        answers(Rational64::from_i128(wide + 1), None),
        answers(Rational64::from_u64(u64::MAX), None),
        answers(Ratio::<u64>::from_u64(u64::MAX), Some((u64::MAX, 1))),
        answers(Ratio::<u64>::from_u128(large + 1), None),
        answers(Ratio::<u8>::from_i64(-1), None),
    ];
    each_holds(&rt, &facts);
}

#[test]
fn fields_alone_are_tested(rt: HostRuntime) {
    let (two, one, zero) = (
        Ratio::new_raw(4i8, 2),
        Ratio::new_raw(2i8, 2),
        Ratio::new_raw(0i8, -3),
    );
    let is_zero = [two.is_zero(), one.is_zero(), zero.is_zero()];
    let is_one = [two.is_one(), one.is_one(), zero.is_one()];
    let is_integer = [two.is_integer(), one.is_integer(), zero.is_integer()];
    let facts = [
        is_zero == [false, false, true],
        is_one == [false, true, false],
        is_integer == [false; 3],
        has(zero, (0, -3)),
    ];
    each_holds(&rt, &facts);
}

#[test]
fn refusals_are_numbered(rt: HostRuntime) {
    let facts = [
        RatioErrorKind::ParseError as u8 == 1,
        RatioErrorKind::ZeroDenominator as u8 == 2,
    ];
    each_holds(&rt, &facts);
}

// Whether the text is refused, and the refusal is printed as `want`.
fn refusal_reads(text: &str, want: &str) -> bool {
    match Ratio::<i8>::from_str(text) {
        Ok(_) => false,
        Err(refusal) => InlineText::<60>::of(format_args!("{refusal}|{refusal:>25}")).as_str()
            == want,
    }
}

#[test]
fn refusals_are_printed(rt: HostRuntime) {
    let facts = [
        refusal_reads("1/x", "failed to parse integer|  failed to parse integer"),
        refusal_reads("1/0", "zero value denominator|   zero value denominator"),
    ];
    each_holds(&rt, &facts);
}
