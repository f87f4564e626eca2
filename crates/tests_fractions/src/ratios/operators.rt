//! Rows of the five operators, by every form of each. They are the values of the Rust crate's own tests, with the names that
//! they have there, and rows at the ends of a range.
ghost use Rattle.std.specs.Prelude.{◌<ℤ◌, pos};
ghost use Rattle.num_rational.specs.Ratio.{denominator};

use crate::asserting::{all_hold, each_holds};
use crate::ratios::forms::{self, fraction};
use num_rational::{Operand, Ratio, Reduced, ReducedOperand};
use ratio_integer::{Integer, Primitive};
use std::process::Abort;

fn answer<T: Integer, O: Operand<T> + Copy>(x: Ratio<T>, symbol: u8, o: O) -> Option<(T, T)>
    requires left { pos 0 <ℤ denominator x }
    requires right { pos 0 <ℤ (O.two_numbers o).1 }
{
    match symbol {
        b'+' => forms::sum(x, o),
        b'-' => forms::difference(x, o),
        b'*' => forms::product(x, o),
        b'/' => forms::quotient(x, o),
        _ => forms::remainder(x, o),
    }
}

// The same for a fraction in lowest terms.
fn lowest_answer<T: Integer, O: ReducedOperand<T>>(
    x: Reduced<T>,
    symbol: u8,
    o: O,
) -> Option<Reduced<T>> {
    match symbol {
        b'+' => x.checked_add(o),
        b'-' => x.checked_sub(o),
        b'*' => x.checked_mul(o),
        b'/' => x.checked_div(o),
        _ => x.checked_rem(o),
    }
}

// Whether the lowest terms of the left side give this result.
fn lowest_holds<T: Integer, O: ReducedOperand<T> + Copy>(
    left: (T, T),
    symbol: u8,
    o: O,
    want: Option<(T, T)>,
) -> bool {
    match Reduced::checked_new(left.0, left.1) {
        Some(x) => lowest_answer(x, symbol, o).map(Reduced::into_raw) == want,
        None => false,
    }
}

// Whether the lowest terms of both sides do.
fn both_lowest_hold<T: Integer>(
    left: (T, T),
    symbol: u8,
    right: (T, T),
    want: Option<(T, T)>,
) -> bool {
    match Reduced::checked_new(right.0, right.1) {
        Some(y) => lowest_holds(left, symbol, y, want) && lowest_holds(left, symbol, &y, want),
        None => false,
    }
}

// Whether every form gives this result. The right operand is a value or a reference.
fn holds<T: Integer>(left: (T, T), symbol: u8, right: (T, T), want: Option<(T, T)>) -> bool {
    let (x, y) = (fraction(left), fraction(right));
    answer(x, symbol, y) == want
        && answer(x, symbol, &y) == want
        && both_lowest_hold(left, symbol, right, want)
}

// Whether `Ratio` refuses the sum of these fields, and `Reduced` returns it.
fn is_sum_of_lowest_terms<T: Integer>(left: (T, T), right: (T, T), want: (T, T)) -> bool {
    let (x, y) = (fraction(left), fraction(right));
    answer(x, b'+', y).is_none() && both_lowest_hold(left, b'+', right, Some(want))
}

// Whether every form gives this result with a whole number on the right.
fn holds_with<T: Integer>(left: (T, T), symbol: u8, c: T, want: Option<(T, T)>) -> bool {
    let x = fraction(left);
    answer(x, symbol, c) == want
        && answer(x, symbol, &c) == want
        && lowest_holds(left, symbol, c, want)
        && lowest_holds(left, symbol, &c, want)
}

// A row: a, b, a symbol, c, d, and the expected result for a/b and c/d.
type Row<T> = (T, T, u8, T, T, Option<(T, T)>);

fn row_holds<T: Integer>(row: &Row<T>) -> bool {
    let &(a, b, symbol, c, d, want) = row;
    holds((a, b), symbol, (c, d), want)
}

fn rows_hold<T: Integer>(rt: &impl Abort, rows: &[Row<T>]) {
    let first_wrong = rows.iter().position(|row| !row_holds(row));
    all_hold(rt, "operators", first_wrong);
}

#[test]
fn test_add(rt: HostRuntime) {
    rows_hold(
        &rt,
        &[
            (1i64, 1, b'+', 1, 2, Some((3, 2))),
            (1, 1, b'+', 1, 1, Some((2, 1))),
            (1, 2, b'+', 3, 2, Some((2, 1))),
            (1, 2, b'+', -1, 2, Some((0, 1))),
        ],
    );
    assert!(rt; holds_with((1i64, 2), b'+', 1, Some((3, 2))));
}

#[test]
fn test_sub(rt: HostRuntime) {
    rows_hold(
        &rt,
        &[
            (1i64, 1, b'-', 1, 2, Some((1, 2))),
            (3, 2, b'-', 1, 2, Some((1, 1))),
            (1, 1, b'-', -1, 2, Some((3, 2))),
        ],
    );
    assert!(rt; holds_with((1i64, 2), b'-', 1, Some((-1, 2))));
}

#[test]
fn test_mul(rt: HostRuntime) {
    rows_hold(
        &rt,
        &[
            (1i64, 1, b'*', 1, 2, Some((1, 2))),
            (3, 2, b'*', 1, 2, Some((3, 4))),
            (-1, 2, b'*', 1, 2, Some((-1, 4))),
        ],
    );
    assert!(rt; holds_with((1i64, 2), b'*', 2, Some((1, 1))));
}

#[test]
fn test_div(rt: HostRuntime) {
    rows_hold(
        &rt,
        &[
            (1i64, 1, b'/', 1, 2, Some((2, 1))),
            (3, 2, b'/', 1, 2, Some((3, 1))),
            (1, 1, b'/', -1, 2, Some((-2, 1))),
        ],
    );
    assert!(rt; holds_with((1i64, 1), b'/', 2, Some((1, 2))));
}

#[test]
fn test_rem(rt: HostRuntime) {
    rows_hold(
        &rt,
        &[
            (3i64, 2, b'%', 1, 1, Some((1, 2))),
            (3, 2, b'%', 1, 2, Some((0, 1))),
            (5, 2, b'%', 3, 2, Some((1, 1))),
            (2, 1, b'%', -1, 2, Some((0, 1))),
            (1, 2, b'%', 2, 1, Some((1, 2))),
            (-7, 2, b'%', 1, 1, Some((-1, 2))),
        ],
    );
    assert!(rt; holds_with((3i64, 2), b'%', 1, Some((1, 2))));
}

// The greatest number of a type.
fn most<T: Primitive>() -> u128 {
    T::MAX.to_u128().unwrap_or(0)
}

// The number as one of a type that it fits.
fn number<T: Primitive>(n: u128) -> T {
    T::from_u128(n).unwrap_or(T::ZERO)
}

// 1 over about half of M, and two thirds of that.
fn halves<T: Primitive>() -> ((T, T), (T, T)) {
    let half = most::<T>() / 4;
    ((T::ONE, number(half * 2)), (T::ONE, number(half * 3)))
}

// The number after three times a sixth of M.
fn about_half<T: Primitive>() -> T {
    number(most::<T>() / 6 * 3 + 1)
}

// Whether the rows of products and of quotients near M hold.
fn multiples_hold<T: Primitive>(symbol: u8) -> bool {
    let (x, want) = halves::<T>();
    let (c, two, three) = (about_half::<T>(), number(2), number(3));
    if symbol == b'*' {
        holds(x, b'*', (two, three), Some(want))
            && holds_with((c, three), b'*', three, Some((c, T::ONE)))
    } else {
        holds(x, b'/', (three, two), Some(want))
            && holds_with((three, c), b'/', three, Some((T::ONE, c)))
    }
}

// Whether the rows of an operator near the greatest number M hold. There, plain products of the
// fields do not fit.
fn near_the_greatest<T: Primitive>(symbol: u8) -> bool {
    let x = (T::ONE, T::MAX);
    match symbol {
        b'+' => holds(x, b'+', x, Some((number(2), T::MAX))),
        b'-' => holds(x, b'-', x, Some((T::ZERO, T::ONE))),
        b'%' => {
            let y = (T::ONE, number(most::<T>() / 2 * 2));
            holds((T::ONE, number(2)), b'%', y, Some((T::ZERO, T::ONE)))
        }
        _ => multiples_hold::<T>(symbol),
    }
}

// Whether they hold at each of the twelve types.
fn at_each_type(symbol: u8) -> [bool; 12] {
    [
        near_the_greatest::<i8>(symbol),
        near_the_greatest::<u8>(symbol),
        near_the_greatest::<i16>(symbol),
        near_the_greatest::<u16>(symbol),
        near_the_greatest::<i32>(symbol),
        near_the_greatest::<u32>(symbol),
        near_the_greatest::<i64>(symbol),
        near_the_greatest::<u64>(symbol),
        near_the_greatest::<isize>(symbol),
        near_the_greatest::<usize>(symbol),
        near_the_greatest::<i128>(symbol),
        near_the_greatest::<u128>(symbol),
    ]
}

#[test]
fn test_add_overflow(rt: HostRuntime) {
    each_holds(&rt, &at_each_type(b'+'));
}

#[test]
fn test_sub_overflow(rt: HostRuntime) {
    each_holds(&rt, &at_each_type(b'-'));
}

#[test]
fn test_mul_overflow(rt: HostRuntime) {
    each_holds(&rt, &at_each_type(b'*'));
}

#[test]
fn test_div_overflow(rt: HostRuntime) {
    each_holds(&rt, &at_each_type(b'/'));
}

#[test]
fn test_rem_overflow(rt: HostRuntime) {
    each_holds(&rt, &at_each_type(b'%'));
}

#[test]
fn test_zero(rt: HostRuntime) {
    rows_hold(
        &rt,
        &[
            (0i64, 1, b'+', 0, 1, Some((0, 1))),
            (0, 1, b'*', 0, 1, Some((0, 1))),
            (0, 1, b'*', 1, 1, Some((0, 1))),
            (0, 1, b'/', -1, 2, Some((0, 1))),
            (0, 1, b'-', 0, 1, Some((0, 1))),
        ],
    );
}

#[test]
fn test_checked_failures(rt: HostRuntime) {
    rows_hold(
        &rt,
        &[
            (128u8, 1, b'+', 128, 1, None),
            (1, 128, b'-', 128, 1, None),
            (128, 1, b'*', 128, 1, None),
            (1, 128, b'/', 128, 1, None),
        ],
    );
    assert!(rt; holds((1i64, 1), b'/', (0, 1), None));
}

fn whole(n: i64) -> Option<(i64, i64)> {
    Some((n, 1))
}

// The sum, the difference, the product and the quotient of two whole numbers.
fn four_hold(rt: &impl Abort, a: i64, c: i64, want: [Option<(i64, i64)>; 4]) {
    let [sum, difference, product, quotient] = want;
    rows_hold(
        rt,
        &[
            (a, 1, b'+', c, 1, sum),
            (a, 1, b'-', c, 1, difference),
            (a, 1, b'*', c, 1, product),
            (a, 1, b'/', c, 1, quotient),
        ],
    );
}

#[test]
fn test_checked_zeros(rt: HostRuntime) {
    four_hold(&rt, 0, 0, [whole(0), whole(0), whole(0), None]);
}

#[test]
fn test_checked_min(rt: HostRuntime) {
    let least = i64::MIN;
    let (same, next) = (whole(least), whole(least + 1));
    four_hold(&rt, least, least, [None, whole(0), None, whole(1)]);
    four_hold(&rt, 0, least, [same, None, whole(0), whole(0)]);
    four_hold(&rt, 1, least, [next, None, same, None]);
    four_hold(&rt, least, 0, [same, same, whole(0), None]);
    four_hold(&rt, least, 1, [next, None, same, same]);
}

#[test]
fn test_checked_max(rt: HostRuntime) {
    let most = i64::MAX;
    let (same, turned) = (whole(most), Some((1, most)));
    four_hold(&rt, most, most, [None, whole(0), None, whole(1)]);
    four_hold(&rt, 0, most, [same, whole(-most), whole(0), whole(0)]);
    four_hold(&rt, 1, most, [None, whole(1 - most), same, turned]);
    four_hold(&rt, most, 0, [same, same, whole(0), None]);
    four_hold(&rt, most, 1, [None, whole(most - 1), same, same]);
}

#[test]
fn test_checked_min_max(rt: HostRuntime) {
    let (least, most) = (i64::MIN, i64::MAX);
    let quotient = Some((least, most));
    four_hold(&rt, least, most, [whole(-1), None, None, quotient]);
    four_hold(&rt, most, least, [whole(-1), None, None, None]);
}

#[test]
fn where_8_bits_end(rt: HostRuntime) {
    rows_hold(
        &rt,
        &[
            (64i8, 1, b'/', -1, 2, Some((-128, 1))),
            (100, 100, b'*', 7, 7, Some((1, 1))),
            (-128, 1, b'/', -128, 1, Some((1, 1))),
            (-128, 1, b'%', -1, 1, Some((0, 1))),
            (0, 1, b'/', -128, 3, Some((0, 1))),
            (127, 2, b'*', 2, 127, Some((1, 1))),
            (127, 2, b'*', 127, 1, None),
            (-128, 3, b'*', 3, 1, Some((-128, 1))),
            (-128, 1, b'/', -1, 1, None),
            (1, 1, b'/', -128, 127, None),
            (-127, 2, b'%', 1, 1, Some((-1, 2))),
        ],
    );
    rows_hold(&rt, &[(1u8, 2, b'-', 1, 1, None), (1, 1, b'%', 0, 3, None)]);
    let facts = [
        holds_with((-128i8, 1), b'/', -1, None),
        holds_with((127i8, 1), b'+', 1, None),
        is_sum_of_lowest_terms((255u8, 2), (255, 2), (255, 1)),
    ];
    each_holds(&rt, &facts);
}

#[test]
fn where_32_bits_end(rt: HostRuntime) {
    let half = (4294967295u32, 2);
    assert!(rt; is_sum_of_lowest_terms(half, half, (4294967295, 1)));
    let (most, b, d) = (2147483647i32, 11862016, 11993088);
    rows_hold(
        &rt,
        &[
            (most, 2, b'+', most, 2, Some((most, 1))),
            (1, b, b'+', 1, d, Some((91, 542687232))),
            (1, b, b'-', 1, d, Some((1, 1085374464))),
            (1, 2147483647, b'+', 1, 2147483646, None),
        ],
    );
}

#[test]
fn where_64_bits_end(rt: HostRuntime) {
    let (least, most) = (i64::MIN, i64::MAX);
    let facts = [
        holds((least, most), b'+', (least, most), None),
        holds((1, 1), b'/', (least, 1), None),
    ];
    each_holds(&rt, &facts);
}
