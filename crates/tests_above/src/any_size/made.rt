//! Fractions for the tests, and what their numbers must be.

use num_rational::Reduced64;
use ratio_big::BigFraction;
use std::process::Abort;

/// The fraction `numer/denom`, which is short.
pub fn short(rt: &impl Abort, numer: i64, denom: i64) -> BigFraction {
    BigFraction::from_reduced(Reduced64::checked_new(numer, denom).expect(rt, "the fraction fits"))
}

/// The fraction is short, and has these two numbers.
pub fn is_short(rt: &impl Abort, x: &BigFraction, numer: i64, denom: i64) {
    let x = x.to_reduced().expect(rt, "the fraction is short");
    assert_eq!(rt; *x.numer(), numer);
    assert_eq!(rt; *x.denom(), denom);
}
