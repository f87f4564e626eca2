//! The laws of fractions of any size, called once each, with a long fraction.
use num_rational::{Reduced, Reduced64};
use ratio_big::BigFraction;
use ratio_laws::big_fraction::{field, order, powers, rounding, signs, texts};
use std::test::Fail;

fn fraction(numer: i64, denom: i64) -> BigFraction {
    BigFraction::from_reduced(Reduced::checked_new(numer, denom).unwrap_or(Reduced64::zero()))
}

#[test]
fn each_law_is_called(rt: HostRuntime) -> Result<(), Fail> {
    // 2^64/3
    let x = BigFraction::from_digits(rt.alloc(), false, &[0, 1], &[3])?.ok_or("not 0")?;
    let (y, z) = (fraction(-7, 2), fraction(5, 1));
    field::sums(&x, &y, &z);
    field::differences(&x, &y);
    field::products(&x, &y, &z);
    field::quotients(&x, &y);
    order::orders(&x, &y);
    order::hashes(&x, &y);
    order::sums(&x, &y, &z);
    order::products(&x, &y, &z);
    order::negatives(&x, &y);
    powers::exponents(&x);
    powers::products(&x, &y);
    signs::negatives(&x, &y);
    signs::absolutes(&x, &y);
    texts::texts(&x);
    rounding::floors(&x, &z);
    rounding::remainders(&x, &y);
    Ok(())
}
