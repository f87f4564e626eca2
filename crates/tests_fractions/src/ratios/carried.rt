//! The values of the Rust crate's own tests, with the names that they have there: construction, access and comparison.
use crate::asserting::each_holds;
use crate::ratios::forms::{self, fraction, has, raw};
use crate::ratios::texts::shown_as;
use crate::written::Written;
use num_rational::{Constants, Form, Ratio, Rational32, Rational64};
use ratio_integer::Integer;
use std::cmp::Ordering;
use std::fmt::InlineText;

// The lowest terms by `new`, if `checked_new` returns them.
fn new<T: Integer>(n: T, d: T) -> Ratio<T> {
    match Ratio::checked_new(n, d) {
        Some(_) => Ratio::new(n, d),
        None => Ratio::zero(),
    }
}

// 0, 1, 2, 1/2, 3/2 and -1/2, each made by another call, and their fields.
fn six() -> [(Rational64, i64, i64); 6] {
    [
        (Rational64::zero(), 0, 1),
        (Rational64::one(), 1, 1),
        (Rational64::from_integer(2), 2, 1),
        (new(1, 2), 1, 2),
        (new(3, 2), 3, 2),
        (new(-1, 2), -1, 2),
    ]
}

#[test]
fn test_numer(rt: HostRuntime) {
    for (x, numer, _) in six() {
        assert!(rt; *x.numer() == numer);
    }
}

#[test]
fn test_denom(rt: HostRuntime) {
    for (x, _, denom) in six() {
        assert!(rt; *x.denom() == denom);
    }
}

#[test]
fn test_is_integer(rt: HostRuntime) {
    for (x, _, denom) in six() {
        assert!(rt; x.is_integer() == (denom == 1));
    }
}

// Whether the fraction equals all of these.
fn equals(x: Rational64, others: &[Rational64]) -> bool {
    for other in others {
        if x != *other {
            return false;
        }
    }
    true
}

#[test]
fn test_test_constants(rt: HostRuntime) {
    let [zero, one, two, half, three_halves, minus_half] = six();
    let facts = [
        equals(zero.0, &[Ratio::ZERO, Ratio::from(0), new(0, 1)]),
        equals(one.0, &[Ratio::ONE, Ratio::from(1), new(1, 1)]),
        equals(two.0, &[Ratio::from(2), new(2, 1)]),
        equals(half.0, &[Ratio::new_raw(2, 4)]),
        equals(three_halves.0, &[Ratio::new_raw(6, 4)]),
        equals(minus_half.0, &[Ratio::new_raw(1, -2)]),
    ];
    each_holds(&rt, &facts);
}

#[test]
fn test_new_reduce(rt: HostRuntime) {
    let facts = [
        has(new(2i32, 2), (1, 1)),
        has(new(0, i32::MIN), (0, 1)),
        has(new(i32::MIN, i32::MIN), (1, 1)),
    ];
    each_holds(&rt, &facts);
}

// Whether the second is above the first, by `!=`, `<` and `>`.
fn is_below(low: Rational64, high: Rational64) -> bool {
    low != high && high != low && low < high && !(high < low) && high > low && !(low > high)
}

// The same by `<=` and `>=`.
fn is_at_most(low: Rational64, high: Rational64) -> bool {
    low <= high && !(high <= low) && high >= low && !(low >= high)
}

// Whether `==`, `<=` and `>=` are true of the fraction and itself.
fn is_itself(x: Rational64) -> bool {
    x == x && x <= x && x >= x
}

#[test]
fn test_cmp(rt: HostRuntime) {
    let zero = Rational64::zero();
    let one = Rational64::one();
    let facts = [
        is_itself(zero),
        is_itself(one),
        Rational64::new_raw(0, 2) == zero,
        is_below(zero, one),
        is_at_most(zero, one),
        zero.cmp(&one) == Ordering::Less,
        one.cmp(&zero) == Ordering::Greater,
    ];
    each_holds(&rt, &facts);
}

// The pair that a fraction with these fields becomes.
fn fields_of(numer: i64, denom: i64) -> (i64, i64) {
    match raw(numer, denom) {
        Some(x) => x.into(),
        None => (numer, denom),
    }
}

#[test]
fn test_into_pair(rt: HostRuntime) {
    let facts = [
        fields_of(0, 1) == (0, 1),
        fields_of(-2, 1) == (-2, 1),
        fields_of(1, -2) == (1, -2),
    ];
    each_holds(&rt, &facts);
}

// The fraction of a pair, if `checked_new` returns it.
fn from_pair(pair: (i64, i64)) -> Rational64 {
    match Ratio::checked_new(pair.0, pair.1) {
        Some(_) => Ratio::from_pair(pair),
        None => Ratio::zero(),
    }
}

#[test]
fn test_from_pair(rt: HostRuntime) {
    let facts = [
        has(from_pair((0, 1)), (0, 1)),
        has(from_pair((1, 1)), (1, 1)),
        has(from_pair((-2, 1)), (-2, 1)),
        has(from_pair((1, -2)), (-1, 2)),
    ];
    each_holds(&rt, &facts);
}

#[test]
fn test_num_zero(rt: HostRuntime) {
    assert!(rt; Rational64::zero().is_zero());
    let mut x = fraction((123, 456));
    assert!(rt; !x.is_zero());
    let sum = forms::sum(x, Rational64::zero());
    each_holds(&rt, &[sum == Some((41, 152)), x == Ratio::new_raw(41, 152)]);
    x.set_zero();
    assert!(rt; x.is_zero());
}

#[test]
fn test_num_one(rt: HostRuntime) {
    assert!(rt; Rational64::one().is_one());
    let mut x = fraction((123, 456));
    assert!(rt; !x.is_one());
    let product = forms::product(x, Rational64::one());
    each_holds(
        &rt,
        &[product == Some((41, 152)), x == Ratio::new_raw(41, 152)],
    );
    x.set_one();
    assert!(rt; x.is_one());
}

// Whether both feed a hasher the same.
fn write_alike(x: &Rational64, y: &Rational64) -> bool {
    Written::of(x).as_slice() == Written::of(y).as_slice()
}

#[test]
fn test_hash(rt: HostRuntime) {
    let zero = Rational64::zero();
    let facts = [
        !write_alike(&zero, &Ratio::one()),
        !write_alike(&zero, &new(3, 2)),
        write_alike(&Ratio::new_raw(4, 2), &Ratio::new_raw(6, 3)),
    ];
    each_holds(&rt, &facts);
    let (x, y) = (
        Ratio::new_raw(123456789, 1000),
        Ratio::new_raw(617283945, 5000),
    );
    assert!(rt; write_alike(&x, &y));
}

// The lowest terms by `reduced`, if `checked_new` of the fields returns them.
fn reduced<T: Integer>(n: T, d: T) -> Option<(T, T)> {
    match Ratio::checked_new(n, d) {
        Some(_) => Some(Ratio::new_raw(n, d).reduced().into_raw()),
        None => None,
    }
}

#[test]
fn test_const(rt: HostRuntime) {
    let x = Rational32::new_raw(123, 456);
    let facts = [
        *x.numer() == 123,
        *x.denom() == 456,
        reduced(*x.numer(), *x.denom()) == Some((41, 152)),
    ];
    each_holds(&rt, &facts);
}

// Whether the base, and 1 over it, are printed as these texts in the form of that base.
fn shows_base(base: i64, form: Form, padded: &str, prefixed: &str) -> bool {
    let whole = shown_as(base, 1, form);
    let part = shown_as(1, base, form);
    InlineText::<40>::of(format_args!("{whole} {part}")).as_str() == "10 1/10"
        && InlineText::<40>::of(format_args!("{part:010}")).as_str() == padded
        && InlineText::<40>::of(format_args!("{part:#010}")).as_str() == prefixed
}

#[test]
fn test_show(rt: HostRuntime) {
    let two = shown_as(2i64, 1, Form::Decimal);
    let half = shown_as(1i64, 2, Form::Decimal);
    let minus_half = shown_as(-1i64, 2, Form::Decimal);
    let zero = shown_as(0i64, 1, Form::Decimal);
    let minus_two = shown_as(-2i64, 1, Form::Decimal);
    let row = InlineText::<40>::of(format_args!("{two} {half} {minus_half} {zero} {minus_two}"));
    let facts = [
        row.as_str() == "2 1/2 -1/2 0 -2",
        shows_base(2, Form::Binary, "0000001/10", "0b001/0b10"),
        shows_base(8, Form::Octal, "0000001/10", "0o001/0o10"),
        shows_base(16, Form::LowerHex, "0000001/10", "0x001/0x10"),
        shows_base(16, Form::UpperHex, "0000001/10", "0x001/0x10"),
    ];
    each_holds(&rt, &facts);
    let fifteen = shown_as(15i64, 1, Form::LowerHex);
    let none = shown_as(0i64, 1, Form::LowerHex);
    let row = InlineText::<40>::of(format_args!("{fifteen} {none}"));
    assert!(rt; row.as_str() == "f 0");
}

// Whether the fraction is printed as this text, and the text is read as the fraction.
fn is_text_of(text: &str, fraction: Rational64) -> bool {
    let is_printed = fraction.text(Form::Decimal, false).as_str() == text;
    let is_read = match Rational64::from_str(text) {
        Ok(read) => read == fraction,
        Err(_) => false,
    };
    is_printed && is_read
}

#[test]
fn test_to_from_str(rt: HostRuntime) {
    let facts = [
        is_text_of("1", new(1, 1)),
        is_text_of("0", new(0, 1)),
        is_text_of("1/2", new(1, 2)),
        is_text_of("3/2", new(3, 2)),
        is_text_of("2", new(2, 1)),
        is_text_of("-1/2", new(-1, 2)),
    ];
    each_holds(&rt, &facts);
}

fn refuses(text: &str) -> bool {
    Rational64::from_str(text).is_err()
}

#[test]
fn test_from_str_fail(rt: HostRuntime) {
    let facts = [
        refuses("0 /1"),
        refuses("abc"),
        refuses(""),
        refuses("1/"),
        refuses("--1/2"),
        refuses("3/2/1"),
        refuses("1/0"),
    ];
    each_holds(&rt, &facts);
}
