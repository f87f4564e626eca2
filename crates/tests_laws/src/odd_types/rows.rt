//! Rows of the checked calls over the three types. Their answers come from outside.
use crate::odd_types::calls::{Call, called};
use crate::odd_types::fractions::{answers, fraction};
use crate::odd_types::plain::Plain;
use num_rational::Ratio;
use ratio_integer::{Integer, SignedInteger};
use ratio_odd::{Nat2, Sym5, Two3};
use std::cmp::Ordering;
use tests_fractions::written::Written;

/// A row: a fraction, a call, another fraction, and the fields of the result.
type Row = (i8, i8, Call, i8, i8, Option<(i8, i8)>);

fn holds<T: Integer>((n, d, call, m, e, wanted): Row) -> bool {
    match called::<T>(Plain { n, d }, call, Plain { n: m, d: e }) {
        Some(answer) => answers(answer, wanted.map(|(n, d)| Plain { n, d })),
        None => false,
    }
}

#[test]
fn checked_calls(rt: HostRuntime) {
    for row in [
        (2, 1, Call::Add, 1, 2, None),
        (2, 1, Call::Mul, 1, 2, Some((1, 1))),
        (1, 2, Call::Sub, 1, 1, None),
    ] {
        assert!(rt; holds::<Nat2>(row));
    }
    for row in [
        (5, 3, Call::Mul, 3, 5, Some((1, 1))),
        (2, 1, Call::Div, -1, 2, Some((-4, 1))),
    ] {
        assert!(rt; holds::<Sym5>(row));
    }
    for row in [
        (-3, 2, Call::Div, -1, 1, None),
        (-3, 1, Call::Div, -3, 1, Some((1, 1))),
        (1, 2, Call::Add, 1, 2, Some((1, 1))),
    ] {
        assert!(rt; holds::<Two3>(row));
    }
}

/// The order of two fractions of `Two3`, if it has both.
fn stands(x: Plain, y: Plain) -> Option<Ordering> {
    Some(fraction::<Two3>(x)?.cmp(&fraction::<Two3>(y)?))
}

/// Whether the fraction of `Two3` has these codes, each as a byte.
fn has_codes(x: Plain, codes: &[u8]) -> bool {
    match fraction::<Two3>(x) {
        Some(fraction) => Written::of(&fraction).as_slice() == codes,
        None => false,
    }
}

#[test]
fn the_least_number_below(rt: HostRuntime) {
    assert!(rt; stands(Plain { n: -3, d: -1 }, Plain { n: 2, d: 1 }) == Some(Ordering::Greater));
    assert!(rt; has_codes(Plain { n: -1, d: -3 }, &[0, 253, 253, 0]));
    if let (Some(two), Some(least)) = (Two3::from_i128(2), Two3::from_i128(-3)) {
        assert!(rt; Ratio::checked_new(two, least).is_none());
    } else {
        assert!(rt; false);
    }
}

#[test]
fn ends_of_sym5(rt: HostRuntime) {
    assert!(rt; Sym5::from_i128(6).is_none());
    assert!(rt; Sym5::MAX.try_plus(Sym5::ONE).is_none());
    assert!(rt; Sym5::MIN.try_minus(Sym5::ONE).is_none());
    assert!(rt; Sym5::MIN.try_negate() == Some(Sym5::MAX));
    assert!(rt; Sym5::ZERO.gcd(Sym5::MIN) == Sym5::MAX);
}
