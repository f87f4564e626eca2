//! Rows of the signs, and of the order at the ends of a type, from outside.
use crate::asserting::{all_hold, each_holds};
use crate::ratios::forms::positive;
use num_rational::Ratio;
use ratio_integer::{Integer, SignedInteger};
use std::cmp::Ordering;
use std::process::Abort;

// The fields of the negative of n/d by each form, and of its absolute value; its sign; whether it is
// above 0 and below 0.
type Signs<T> = ((T, T), (T, T), T, bool, bool);

fn signs<T: SignedInteger>(n: T, d: T) -> Option<Signs<T>> {
    if d.is_zero() {
        return None;
    }
    let _ = n.try_negate()?;
    let x = Ratio::new_raw(n, d);
    let negated = x.neg().into_raw();
    if (-x).into_raw() != negated || (-&x).into_raw() != negated {
        return None;
    }
    let (sign, _) = x.signum().into_raw();
    Some((
        negated,
        x.abs().into_raw(),
        sign,
        x.is_positive(),
        x.is_negative(),
    ))
}

// The same numbers of `i64`.
fn long(fields: (i8, i8)) -> (i64, i64) {
    (fields.0 as i64, fields.1 as i64)
}

fn long_signs(want: Signs<i8>) -> Signs<i64> {
    (long(want.0), long(want.1), want.2 as i64, want.3, want.4)
}

// Whether n/d has these signs over `i8` and over `i64`.
fn holds(row: &(i8, i8, Signs<i8>)) -> bool {
    let &(n, d, want) = row;
    signs(n, d) == Some(want) && signs(n as i64, d as i64) == Some(long_signs(want))
}

fn signs_hold(rt: &impl Abort, rows: &[(i8, i8, Signs<i8>)]) {
    let first_wrong = rows.iter().position(|row| !holds(row));
    all_hold(rt, "signs", first_wrong);
}

#[test]
fn test_neg(rt: HostRuntime) {
    signs_hold(
        &rt,
        &[
            (0, 1, ((0, 1), (0, 1), 0, false, false)),
            (1, 2, ((-1, 2), (1, 2), 1, true, false)),
            (-1, 1, ((1, 1), (1, 1), -1, false, true)),
        ],
    );
}

#[test]
fn test_signed(rt: HostRuntime) {
    signs_hold(
        &rt,
        &[
            (-1, 2, ((1, 2), (1, 2), -1, false, true)),
            (1, -2, ((-1, -2), (-1, -2), -1, false, true)),
            (-1, -2, ((1, -2), (-1, -2), 1, true, false)),
            (0, -2, ((0, -2), (0, -2), 0, false, false)),
        ],
    );
    let least = Ratio::new_raw(-128i8, -1);
    let facts = [
        least.signum().into_raw() == (1, 1),
        least.abs().into_raw() == (-128, -1),
        positive_difference((3, 2), (1, 2)) == Some((1, 1)),
        positive_difference((1, 2), (3, 2)) == Some((0, 1)),
        positive_difference((1, 2), (2, 4)) == Some((0, 1)),
        positive_difference((i64::MIN, 1), (i64::MAX, 1)) == Some((0, 1)),
        positive_difference((i64::MAX, 1), (i64::MIN, 1)).is_none(),
    ];
    each_holds(&rt, &facts);
}

// The difference that is not below 0, if the checked call returns it or the first is not above.
fn positive_difference(left: (i64, i64), right: (i64, i64)) -> Option<(i64, i64)> {
    let x = positive(left.0, left.1)?;
    let y = positive(right.0, right.1)?;
    if x.cmp(&y) != Ordering::Greater {
        return Some(x.abs_sub(&y).into_raw());
    }
    match x.checked_sub(&y) {
        Some(_) => Some(x.abs_sub(&y).into_raw()),
        None => None,
    }
}

fn negated(x: Ratio<i8>) -> Option<Ratio<i8>> {
    if i8::MIN < *x.numer() {
        Some(x.neg())
    } else {
        None
    }
}

fn reciprocal(x: Ratio<i8>) -> Option<Ratio<i8>> {
    if 0 < *x.denom() && 0 < *x.numer() {
        Some(x.recip())
    } else {
        None
    }
}

// The order of the two, if their reciprocals, their negatives and the negatives of their reciprocals
// agree with it.
fn order(a: (i8, i8), b: (i8, i8)) -> Option<Ordering> {
    let (x, y) = (Ratio::checked_new(a.0, a.1)?, Ratio::checked_new(b.0, b.1)?);
    let (x_turned, y_turned) = (reciprocal(x)?, reciprocal(y)?);
    let order = x.cmp(&y);
    let same = y_turned.cmp(&x_turned) == order
        && negated(y)?.cmp(&negated(x)?) == order
        && negated(x_turned)?.cmp(&negated(y_turned)?) == order
        && negated(x)? < x;
    if same { Some(order) } else { None }
}

// Whether each two fractions of an ascending list compare as their places do.
fn is_ascending(rows: &[(i8, i8)]) -> bool {
    for (i, &a) in rows.iter().enumerate() {
        for (k, &b) in rows.iter().enumerate() {
            if order(a, b) != Some(i.cmp(&k)) {
                return false;
            }
        }
    }
    true
}

#[test]
fn test_cmp_overflow(rt: HostRuntime) {
    let large = Ratio::from_integer(128u8);
    assert!(rt; large.recip() < large);
    let ascending = [
        (125i8, 127i8),
        (63, 64),
        (124, 125),
        (125, 126),
        (126, 127),
        (127, 126),
    ];
    assert!(rt; is_ascending(&ascending));
}
