//! The main promise at concrete types: rows from outside.
use crate::asserting::all_hold;
use crate::ratios::forms::{answers, raw};
use crate::recorder::Codes;
use num_rational::{HeadlineResult, Ratio, Steps, headline};
use ratio_integer::Integer;
use std::cmp::Ordering;

// What two fractions give, and whether their codes are the same. The two lists are empty. A caller with a type of known size
// makes them.
fn shown<T: Integer>(
    x: &Ratio<T>,
    y: &Ratio<T>,
    mut left: Codes<T>,
    mut right: Codes<T>,
) -> (HeadlineResult<T>, bool) {
    let (mut compared, mut hashed) = (Steps::new(), Steps::new());
    let told = headline(
        x,
        y,
        &mut left,
        &mut right,
        &mut compared,
        &mut hashed,
        &mut Steps::new(),
    );
    (told, left.as_slice() == right.as_slice())
}

// A row: the fields of two fractions, and their order, their product and their quotient.
type Row<T> = ((T, T), (T, T), Ordering, Option<(T, T)>, Option<(T, T)>);

fn holds<T: Integer>(row: &Row<T>, left: Codes<T>, right: Codes<T>) -> bool {
    let &((n, d), (m, e), order, product, quotient) = row;
    match (raw(n, d), raw(m, e)) {
        (Some(x), Some(y)) => {
            let (told, alike) = shown(&x, &y, left, right);
            told.order == order
                && [told.equal, alike] == [order.is_eq(); 2]
                && answers(told.product, product)
                && answers(told.quotient, quotient)
        }
        _ => false,
    }
}

#[test]
fn the_headline_over_machine_types(rt: HostRuntime) {
    let (least, most) = (i64::MIN, i64::MAX);
    let row = ((100i8, 3), (3, 100), Ordering::Greater, Some((1, 1)), None);
    assert!(rt; holds(&row, Codes::new(), Codes::new()));
    let rows = [
        ((2, 4), (1, 2), Ordering::Equal, Some((1, 4)), Some((1, 1))),
        ((1, -2), (3, -2), Ordering::Greater, None, None),
        ((least, -1), (most, 1), Ordering::Greater, None, None),
        ((most, 2), (most, 3), Ordering::Greater, None, Some((3, 2))),
        ((0, 5), (0, 7), Ordering::Equal, Some((0, 1)), None),
    ];
    let first_wrong = rows
        .iter()
        .position(|row| !holds(row, Codes::new(), Codes::new()));
    all_hold(&rt, "rows", first_wrong);
}
