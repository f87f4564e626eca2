//! Rows of reciprocals and powers, from outside.
use crate::asserting::{all_hold, each_holds};
use crate::ratios::forms::positive;
use num_rational::{Exponent, Ratio, Reduced};
use num_traits::Inv;
use ratio_integer::Integer;
use std::process::Abort;

// n/d to the e, by the checked call and by the one that requires that it returns `Some`.
fn power<T: Integer, E: Exponent>(n: T, d: T, e: E) -> Option<(T, T)> {
    let x = positive(n, d)?;
    match x.checked_pow_with(e) {
        Some(_) => Some(x.pow_with(e).into_raw()),
        None => None,
    }
}

// The same for an `i32`.
fn small_power<T: Integer>(n: T, d: T, e: i32) -> Option<(T, T)> {
    let x = positive(n, d)?;
    match x.checked_pow(e) {
        Some(_) => Some(x.pow(e).into_raw()),
        None => None,
    }
}

// Whether the lowest terms of n/d to the e are these, or both are `None`.
fn lowest_power<T: Integer>(n: T, d: T, e: i32, want: Option<(T, T)>) -> bool {
    let answer = match Reduced::checked_new(n, d) {
        Some(x) => x.checked_pow(e),
        None => None,
    };
    match (answer, want) {
        (Some(power), Some((a, b))) => Reduced::checked_new(a, b) == Some(power),
        (None, None) => true,
        _ => false,
    }
}

// A row: n, d, e and the fields of n/d to the e.
type Row<T> = (T, T, i32, Option<(T, T)>);

// Whether every call returns the row's power.
fn holds<T: Integer>(row: &Row<T>) -> bool {
    let &(n, d, e, want) = row;
    small_power(n, d, e) == want && power(n, d, &e) == want && lowest_power(n, d, e, want)
}

fn rows_hold<T: Integer>(rt: &impl Abort, rows: &[Row<T>]) {
    let first_wrong = rows.iter().position(|row| !holds(row));
    all_hold(rt, "powers", first_wrong);
}

#[test]
fn test_pow(rt: HostRuntime) {
    rows_hold(
        &rt,
        &[
            (1i64, 2, 2, Some((1, 4))),
            (1, 2, -2, Some((4, 1))),
            (1, 1, 1, Some((1, 1))),
            (1, 1, i32::MAX, Some((1, 1))),
            (1, 1, i32::MIN, Some((1, 1))),
            (-1, 2, 2, Some((1, 4))),
            (-1, 2, 3, Some((-1, 8))),
            (3, 2, 0, Some((1, 1))),
            (3, 2, -1, Some((2, 3))),
            (3, 2, 3, Some((27, 8))),
            // Not reduced.
            (2, 4, 2, Some((4, 16))),
            (2, 4, -1, Some((4, 2))),
            (0, 1, 0, Some((1, 1))),
            (0, 1, -1, None),
            // 3 to the 39 is below 2 to the 63, and 3 to the 40 is not.
            (3, 2, 39, Some((4052555153018976267, 549755813888))),
            (3, 2, 40, None),
        ],
    );
    rows_hold(
        &rt,
        &[
            (-2i8, 1, 7, Some((-128, 1))),
            (-2, 1, -7, None),
            (-128, 1, -1, None),
            (-128, 1, 1, Some((-128, 1))),
            (-2, 1, -3, Some((-1, 8))),
        ],
    );
}

// For a negative exponent a `Reduced` moves the sign before it forms the powers, and a `Ratio` after.
#[test]
fn lowest_powers_fit(rt: HostRuntime) {
    let facts = [
        small_power(-1i8, 2, -7).is_none(),
        lowest_power(-1i8, 2, -7, Some((-128, 1))),
        lowest_power(-1i8, 2, 7, None),
        lowest_power(-1i8, 2, -8, None),
        lowest_power(0i8, 1, -1, None),
        lowest_power(0i8, 1, 0, Some((1, 1))),
        lowest_power(-128i8, 1, 1, Some((-128, 1))),
        lowest_power(-128i8, 1, -1, None),
        lowest_power(-127i8, 2, -1, Some((-2, 127))),
        lowest_power(1i8, 2, -2, Some((4, 1))),
        lowest_power(-1i64, 2, -63, Some((i64::MIN, 1))),
    ];
    each_holds(&rt, &facts);
}

fn power_holds<E: Exponent>(x: (i64, i64), e: E, want: Option<(i64, i64)>) -> bool {
    power(x.0, x.1, e) == want
}

#[test]
fn every_exponent(rt: HostRuntime) {
    let facts = [
        power_holds((1, 1), u128::MAX, Some((1, 1))),
        power_holds((-1, 1), i128::MIN, Some((1, 1))),
        power_holds((-1, 1), u128::MAX, Some((-1, 1))),
        power_holds((0, 1), u128::MAX, Some((0, 1))),
        power_holds((2, 1), u128::MAX, None),
        power_holds((3, 2), &3u8, Some((27, 8))),
        power_holds((3, 2), -3i8, Some((8, 27))),
        power_holds((3, 2), 3u16, Some((27, 8))),
        power_holds((3, 2), &-3i16, Some((8, 27))),
        power_holds((3, 2), 3u32, Some((27, 8))),
        power_holds((3, 2), 3u64, Some((27, 8))),
        power_holds((3, 2), -3i64, Some((8, 27))),
        power_holds((3, 2), 3usize, Some((27, 8))),
        power_holds((3, 2), -3isize, Some((8, 27))),
    ];
    each_holds(&rt, &facts);
}

// The magnitudes of the least values, and whether these are below 0.
#[test]
fn magnitudes(rt: HostRuntime) {
    each_holds(
        &rt,
        &[i32::MIN.magnitude() == 2147483648, i32::MIN.is_below_zero()],
    );
    assert!(rt;
        i8::MIN.magnitude() == 128
            && i128::MIN.magnitude() == 170141183460469231731687303715884105728
    );
    each_holds(&rt, &[!0u8.is_below_zero(), !(&7i64).is_below_zero()]);
}

// The reciprocal of n/d by each call, and n/d times it.
fn reciprocal(n: i64, d: i64) -> Option<((i64, i64), (i64, i64))> {
    if 0 < d && n != 0 && n != i64::MIN {
        let x = Ratio::new_raw(n, d);
        let turned = x.recip();
        let same = turned.into_raw();
        if x.inv().into_raw() != same
            || Inv::inv(x).into_raw() != same
            || Inv::inv(&x).into_raw() != same
        {
            return None;
        }
        if 0 < *turned.denom() {
            return Some((same, x.checked_mul(&turned)?.into_raw()));
        }
    }
    None
}

// Whether this is the reciprocal of n/d, and n/d times it is 1.
fn has_reciprocal(n: i64, d: i64, want: (i64, i64)) -> bool {
    reciprocal(n, d) == Some((want, (1, 1)))
}

#[test]
fn test_recip(rt: HostRuntime) {
    let facts = [
        has_reciprocal(1, 1, (1, 1)),
        has_reciprocal(2, 1, (1, 2)),
        has_reciprocal(1, 2, (2, 1)),
        has_reciprocal(3, 2, (2, 3)),
        has_reciprocal(-1, 2, (-2, 1)),
        has_reciprocal(-2, 3, (-3, 2)),
    ];
    each_holds(&rt, &facts);
}
