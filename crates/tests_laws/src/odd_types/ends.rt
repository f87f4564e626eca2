//! Codes and whole numbers at the ends of the signed primitive types.
use crate::odd_types::fractions::raw;
use num_rational::Ratio;
use ratio_integer::SignedInteger;
use std::hash::Hash;
use tests_fractions::written::Written;

/// Whether `n/d` feeds a hasher these codes, and no others.
fn has_codes<T: SignedInteger>(n: T, d: T, codes: &[T]) -> bool {
    let mut wanted = Written::new();
    for code in codes {
        code.hash(&mut wanted);
    }
    match raw(n, d) {
        Some(x) => Written::of(&x).as_slice() == wanted.as_slice(),
        None => false,
    }
}

/// Whether the floor of the least number and the ceiling of the greatest one are these
/// numbers, and 0 over the least number is 0/1.
fn are_whole<T: SignedInteger>() -> bool {
    let zero = match Ratio::checked_new(T::ZERO, T::MIN) {
        Some(zero) => zero.into_raw() == (T::ZERO, T::ONE),
        None => false,
    };
    zero && Ratio::from_integer(T::MIN).floor().into_raw() == (T::MIN, T::ONE)
        && Ratio::from_integer(T::MAX).ceil().into_raw() == (T::MAX, T::ONE)
}

/// Whether all rows hold over `T`. The codes are those of `MIN/-1` and of 1.
fn hold<T: SignedInteger>(minus_one: T, above_max: &[T], one: &[T]) -> bool {
    has_codes(T::MIN, minus_one, above_max) && has_codes(T::MIN, T::MIN, one) && are_whole::<T>()
}

#[test]
fn signed_primitives(rt: HostRuntime) {
    assert!(rt; hold(-1, &[i8::MIN, i8::MIN, 0], &[1, 0]));
    assert!(rt; hold(-1, &[i16::MIN, i16::MIN, 0], &[1, 0]));
    assert!(rt; hold(-1, &[i32::MIN, i32::MIN, 0], &[1, 0]));
    assert!(rt; hold(-1, &[i64::MIN, i64::MIN, 0], &[1, 0]));
    assert!(rt; hold(-1, &[i128::MIN, i128::MIN, 0], &[1, 0]));
    assert!(rt; hold(-1, &[isize::MIN, isize::MIN, 0], &[1, 0]));
}
