//! The laws of `Reduced` and `Ratio`, called once over `i64` each, with fractions for which they say something.
use num_rational::{Ratio, Reduced, Reduced64};
use ratio_laws::{
    divisors, folds, many_products, nearest, neutral, order, powers, reading, reduced, remainder,
    rounding, signs, splits, told_apart, undoing, values,
};

fn fraction(numer: i64, denom: i64) -> Reduced64 {
    Reduced::checked_new(numer, denom).unwrap_or(Reduced::zero())
}

#[test]
fn calls_undo_one_another(_rt: HostRuntime) {
    let (x, y) = (fraction(-7, 2), fraction(2, 3));
    undoing::sums(&x, &y);
    undoing::products(&x, &y);
    undoing::itself(&x);
    undoing::negatives(&x, &y);
    undoing::reciprocals(&x, &y);
}

#[test]
fn zero_and_one(_rt: HostRuntime) {
    let x = fraction(i64::MIN, 3);
    neutral::zeros(&x);
    neutral::ones(&x);
    neutral::powers(&x);
}

#[test]
fn signs_of_results(_rt: HostRuntime) {
    let (x, y) = (fraction(-7, 2), fraction(2, 3));
    signs::negatives(&x);
    signs::absolutes(&x, &y);
    signs::parts(&x);
    signs::products(&x, &y);
}

#[test]
fn order_of_results(_rt: HostRuntime) {
    let (x, y, z) = (fraction(-7, 2), fraction(2, 3), fraction(-1, 5));
    order::sums(&x, &y, &z);
    order::products(&x, &y, &z);
    order::products(&y, &x, &y);
    order::negatives(&x, &y);
}

#[test]
fn parts_of_equals(_rt: HostRuntime) {
    splits::equal_shares(100, &[fraction(1, 3); 3], &[33, 34, 33]);
    splits::equal_shares(
        -5,
        &[fraction(1, 4), fraction(1, 2), fraction(1, 4)],
        &[-1, -3, -1],
    );
    splits::equal_weights(100i64, &[1, 1, 1], &[33, 34, 33]);
}

#[test]
fn splits_of_one_amount(_rt: HostRuntime) {
    splits::marks_of_one(100, &[fraction(1, 3); 3]);
    splits::one_split(100, &[fraction(1, 3); 3], &[33, 34, 33], &[33, 34, 33]);
}

#[test]
fn powers_of_powers(_rt: HostRuntime) {
    let (x, y) = (fraction(-7, 2), fraction(2, 3));
    powers::exponents(&x);
    powers::products(&x, &y);
    powers::reciprocals(&x);
}

#[test]
fn lists_in_parts(_rt: HostRuntime) {
    let first = [fraction(1, 2), fraction(1, 3)];
    let second = [fraction(1, 6), fraction(-2, 1)];
    folds::sums(&fraction(5, 6), &first, &second);
    folds::products(&fraction(1, 6), &first, &second);
    let turned = [fraction(1, 3), fraction(1, 2)];
    folds::sums(&fraction(5, 6), &first, &turned);
    folds::products(&fraction(1, 6), &first, &turned);
}

#[test]
fn many_products(_rt: HostRuntime) {
    let first = [
        fraction(i64::MAX, 2),
        fraction(100, 3),
        fraction(2, i64::MAX),
    ];
    let turned = [
        fraction(100, 3),
        fraction(2, i64::MAX),
        fraction(i64::MAX, 2),
    ];
    let divisors = [fraction(5, 3), fraction(20, 1)];
    let others = [fraction(20, 1), fraction(5, 3)];
    many_products::products(&fraction(100, 3), &first, &turned);
    many_products::quotients(&Reduced::one(), &first, &divisors, &turned, &others);
}

#[test]
fn nearest_fractions(_rt: HostRuntime) {
    nearest::bounds(&fraction(355, 113));
}

#[test]
fn equal_fractions(_rt: HostRuntime) {
    let (x, y) = (Ratio::new_raw(2i64, 4), Ratio::new_raw(-6i64, 9));
    let (u, v) = (Ratio::new_raw(1i64, 2), Ratio::new_raw(-2i64, 3));
    values::products(&x, &y, &u, &v);
    values::sums(&x, &y, &u, &v);
    values::nearest(&y, &v);
}

#[test]
fn whole_numbers_near(_rt: HostRuntime) {
    let (x, y) = (fraction(-7, 2), fraction(2, 3));
    rounding::orders(&x, &y);
    rounding::distances(&x);
    rounding::distances(&fraction(i64::MIN, 1));
    rounding::sums(&x, &fraction(9, 1));
    rounding::negatives(&x);
    remainder::parts(&x, &y);
}

#[test]
fn divisors_and_multiples(_rt: HostRuntime) {
    let (x, y) = (fraction(1, 4), fraction(-1, 6));
    divisors::greatest(&x, &y);
    divisors::least(&x, &y);
    divisors::products(&x, &y);
}

#[test]
fn texts_read_back(_rt: HostRuntime) {
    reading::base_ten(&fraction(i64::MIN, 3));
    reading::in_base(&fraction(15, 16));
    reading::in_base(&fraction(-1, 2));
    reading::exact_decimal(&fraction(99, 8));
    reading::rounded_decimal(&fraction(2, 3));
}

#[test]
fn sums_products_and_parts(_rt: HostRuntime) {
    let (x, y) = (fraction(-7, 2), fraction(i64::MAX, 3));
    let z = Reduced64::one();
    reduced::sums(&x, &y, &z);
    reduced::products(&x, &y, &z);
    reduced::powers(&x);
    reduced::parts(&x);
    reduced::continued_fractions(&x);
    reduced::orders(&x, &y);
    reduced::hashes(&x, &y);
    told_apart::told_apart();
}
