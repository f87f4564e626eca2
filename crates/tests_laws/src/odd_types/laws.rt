//! The laws of `Reduced`, called once over the numbers from -5 to 5 each.
use crate::odd_types::fractions;
use crate::odd_types::plain::Plain;
use num_rational::{Ratio, Reduced};
use ratio_integer::Integer;
use ratio_laws::{
    folds, nearest, neutral, order, powers, remainder, rounding, signs, undoing, values,
};
use ratio_odd::Sym5;

fn fraction(numer: i128, denom: i128) -> Reduced<Sym5> {
    match (Sym5::from_i128(numer), Sym5::from_i128(denom)) {
        (Some(n), Some(d)) => Reduced::checked_new(n, d).unwrap_or(Reduced::zero()),
        _ => Reduced::zero(),
    }
}

// A fraction that is not reduced.
fn unreduced(n: i8, d: i8) -> Ratio<Sym5> {
    fractions::fraction(Plain { n, d }).unwrap_or(Ratio::zero())
}

#[test]
fn laws_over_eleven_numbers(_rt: HostRuntime) {
    let (x, y) = (fraction(-5, 2), fraction(1, 2));
    undoing::sums(&x, &y);
    undoing::products(&x, &y);
    undoing::itself(&x);
    undoing::negatives(&x, &y);
    undoing::reciprocals(&x, &y);
    neutral::zeros(&x);
    neutral::ones(&x);
    neutral::powers(&x);
    signs::negatives(&x);
    signs::absolutes(&x, &y);
    signs::parts(&x);
    signs::products(&x, &y);
    order::sums(&x, &y, &y);
    order::products(&y, &fraction(1, 1), &x);
    order::negatives(&x, &y);
    powers::exponents(&y);
    powers::products(&x, &y);
    powers::reciprocals(&x);
    nearest::bounds(&fraction(3, 5));
    rounding::orders(&x, &y);
    rounding::distances(&x);
    rounding::sums(&x, &fraction(3, 1));
    rounding::negatives(&x);
    remainder::parts(&x, &y);
}

#[test]
fn lists_over_eleven_numbers(_rt: HostRuntime) {
    let first = [fraction(1, 2)];
    let second = [fraction(-5, 2), fraction(1, 2)];
    folds::sums(&fraction(1, 2), &first, &second);
    folds::products(&fraction(1, 2), &first, &second);
}

#[test]
fn equal_fractions_over_eleven_numbers(_rt: HostRuntime) {
    let (x, y) = (unreduced(2, 4), unreduced(-4, 2));
    let (u, v) = (unreduced(1, 2), unreduced(-2, 1));
    values::products(&x, &y, &u, &v);
    values::sums(&x, &y, &u, &v);
    values::nearest(&x, &u);
}
