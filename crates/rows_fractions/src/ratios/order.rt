//! The order of two fractions, by every call and operator that compares.
use crate::ratios::raw;
use num_rational::{Ratio, Reduced, Steps};
use ratio_integer::Integer;
use rows::answer::Answer;
use rows::notation::two_fractions;
use std::cmp::Ordering;

/// Makes the calls.
pub fn answer<T: Integer>(words: &str) -> Option<Answer<T>> {
    let (left, right) = two_fractions::<T>(words)?;
    let (x, y) = (raw(left)?, raw(right)?);
    let order = x.cmp(&y);
    Some(if is_order(x, y, order) && is_order_of_lowest(&x, &y, order) {
        Answer::Order(order)
    } else {
        Answer::FormsDiffer
    })
}

// Whether the other calls of `Ratio` agree.
fn is_order<T: Integer>(x: Ratio<T>, y: Ratio<T>, order: Ordering) -> bool {
    y.cmp(&x) == order.reverse()
        && x.cmp_counted(&y, &mut Steps::new()) == order
        && say(&x, &y, order)
        && x == x
}

// Whether those of `Reduced` agree, if the lowest terms fit.
fn is_order_of_lowest<T: Integer>(x: &Ratio<T>, y: &Ratio<T>, order: Ordering) -> bool {
    match (Reduced::from_ratio(x), Reduced::from_ratio(y)) {
        (Some(x), Some(y)) => x.cmp(&y) == order && say(&x, &y, order),
        _ => true,
    }
}

// Whether `partial_cmp` and the operators agree.
fn say<X: PartialOrd>(x: &X, y: &X, order: Ordering) -> bool {
    let said = [x == y, x != y, x < y, x <= y, x > y, x >= y];
    let (eq, ne, lt) = (order.is_eq(), order.is_ne(), order.is_lt());
    x.partial_cmp(y) == Some(order)
        && said == [eq, ne, lt, order.is_le(), order.is_gt(), order.is_ge()]
}
