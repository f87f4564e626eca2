//! Rows of the rounding calls and of fractions as machine integers, from outside.
use crate::asserting::{all_hold, each_holds};
use crate::ratios::forms::positive;
use num_rational::{Ratio, Reduced};
use ratio_integer::Integer;
use std::process::Abort;

// A row: n, d and the ceiling, the floor, the rounded value and the truncation of n/d.
type Row<T> = (T, T, (T, T, T, T));

// These four of the lowest terms of n/d, each over 1.
fn near<T: Integer>(n: T, d: T) -> Option<(T, T, T, T)> {
    let (n, d) = Ratio::checked_new(n, d)?.into_raw();
    let x = positive(n, d)?;
    Some((
        *x.ceil().numer(),
        *x.floor().numer(),
        *x.round().numer(),
        *x.trunc().numer(),
    ))
}

// The same four of a `Reduced`.
fn near_lowest<T: Integer>(n: T, d: T) -> Option<(T, T, T, T)> {
    let x = Reduced::checked_new(n, d)?;
    Some((
        *x.ceil().numer(),
        *x.floor().numer(),
        *x.round().numer(),
        *x.trunc().numer(),
    ))
}

// Whether both types round as the row says.
fn holds<T: Integer>(row: &Row<T>) -> bool {
    let &(n, d, want) = row;
    near(n, d) == Some(want) && near_lowest(n, d) == Some(want)
}

fn rows_hold<T: Integer>(rt: &impl Abort, rows: &[Row<T>]) {
    let first_wrong = rows.iter().position(|row| !holds(row));
    all_hold(rt, "rounding", first_wrong);
}

#[test]
fn test_round(rt: HostRuntime) {
    rows_hold(
        &rt,
        &[
            (1i64, 3, (1, 0, 0, 0)),
            (-1, 3, (0, -1, 0, 0)),
            (2, 3, (1, 0, 1, 0)),
            (-2, 3, (0, -1, -1, 0)),
            (1, 2, (1, 0, 1, 0)),
            (-1, 2, (0, -1, -1, 0)),
            (5, 2, (3, 2, 3, 2)),
            (1, 1, (1, 1, 1, 1)),
            (i64::MIN, 1, (i64::MIN, i64::MIN, i64::MIN, i64::MIN)),
        ],
    );
    let (min, max) = (i32::MIN, i32::MAX);
    rows_hold(
        &rt,
        &[
            (max, max - 1, (2, 1, 1, 1)),
            (min + 2, min + 1, (1, 0, 1, 0)),
            (max - 1, max, (1, 0, 1, 0)),
            (min + 1, min + 2, (2, 1, 1, 1)),
            (min + 2, max, (0, -1, -1, 0)),
            (max, min + 2, (-1, -2, -1, -1)),
            (1, min + 1, (0, -1, 0, 0)),
            (1, max, (1, 0, 0, 0)),
        ],
    );
}

#[test]
fn rounding_at_the_ends(rt: HostRuntime) {
    rows_hold(
        &rt,
        &[
            (-127i8, 2, (-63, -64, -64, -63)),
            (-128, 1, (-128, -128, -128, -128)),
            (-128, 127, (-1, -2, -1, -1)),
            (127, 1, (127, 127, 127, 127)),
            (127, 2, (64, 63, 64, 63)),
        ],
    );
    rows_hold(
        &rt,
        &[(255u8, 2, (128, 127, 128, 127)), (0, 255, (0, 0, 0, 0))],
    );
}

// The fields of the fractional part of n/d, not reduced, and the whole part.
fn parts<T: Integer>(n: T, d: T) -> Option<((T, T), T)> {
    let x = positive(n, d)?;
    Some((x.fract().into_raw(), x.to_integer()))
}

// Whether n/d and its lowest terms have the two parts that the row says.
fn has_parts<T: Integer>(row: &(T, T, ((T, T), T))) -> bool {
    let &(n, d, want) = row;
    let (part, whole) = want;
    match Reduced::checked_new(n, d) {
        Some(x) => {
            parts(n, d) == Some(want)
                && Reduced::checked_new(part.0, part.1) == Some(x.fract())
                && x.to_integer() == whole
        }
        None => false,
    }
}

fn parts_hold<T: Integer>(rt: &impl Abort, rows: &[(T, T, ((T, T), T))]) {
    let first_wrong = rows.iter().position(|row| !has_parts(row));
    all_hold(rt, "parts", first_wrong);
}

#[test]
fn test_fract(rt: HostRuntime) {
    parts_hold(
        &rt,
        &[
            (1i64, 1, ((0, 1), 1)),
            (-1, 2, ((-1, 2), 0)),
            (1, 2, ((1, 2), 0)),
            (3, 2, ((1, 2), 1)),
            // The denominator is kept.
            (4, 2, ((0, 2), 2)),
        ],
    );
    parts_hold(&rt, &[(-127i8, 2, ((-1, 2), -63))]);
}

#[test]
fn test_to_integer(rt: HostRuntime) {
    parts_hold(
        &rt,
        &[
            (0i64, 1, ((0, 1), 0)),
            (1, 1, ((0, 1), 1)),
            (2, 1, ((0, 1), 2)),
            (1, 2, ((1, 2), 0)),
            (3, 2, ((1, 2), 1)),
            (-1, 2, ((-1, 2), 0)),
        ],
    );
}

// The truncation of n/d as each of the four machine integers.
type Machine = (Option<i64>, Option<i128>, Option<u64>, Option<u128>);

fn machine<T: Integer>(n: T, d: T) -> Option<Machine> {
    let x = positive(n, d)?;
    Some((x.to_i64(), x.to_i128(), x.to_u64(), x.to_u128()))
}

fn lowest_machine<T: Integer>(n: T, d: T) -> Option<Machine> {
    let x = Reduced::checked_new(n, d)?;
    Some((x.to_i64(), x.to_i128(), x.to_u64(), x.to_u128()))
}

fn machine_holds<T: Integer>(n: T, d: T, want: Machine) -> bool {
    machine(n, d) == Some(want) && lowest_machine(n, d) == Some(want)
}

#[test]
fn test_ratio_to_i64(rt: HostRuntime) {
    let facts = [
        machine_holds(-31i64, 8, (Some(-3), Some(-3), None, None)),
        machine_holds(70i64, 14, (Some(5), Some(5), Some(5), Some(5))),
        machine_holds(-1i64, 2, (Some(0), Some(0), Some(0), Some(0))),
    ];
    each_holds(&rt, &facts);
    let most = 18446744073709551615u128;
    assert!(rt;
        machine_holds(
            u64::MAX,
            1,
            (None, Some(most as i128), Some(u64::MAX), Some(most))
        )
    );
}

#[test]
fn test_ratio_to_i128(rt: HostRuntime) {
    let (signed, unsigned) = (Some(1180591620717411303424), Some(1180591620717411303424));
    assert!(rt;
        machine_holds(
            151115727451828646838272i128,
            128,
            (None, signed, None, unsigned)
        )
    );
}
