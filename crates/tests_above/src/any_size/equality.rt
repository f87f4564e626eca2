//! Equality and hashes. Equal values are equal however they were made.

use crate::any_size::made::short;
use num_rational::Reduced64;
use ratio_big::BigFraction;
use std::hash::{DefaultHasher, Hash, Hasher};
use std::test::Fail;

/// The hash of a value.
fn hash_of<T: Hash>(x: &T) -> u64 {
    let mut hasher = DefaultHasher::new();
    x.hash(&mut hasher);
    hasher.finish()
}

/// 2^63 - 1 plus 1 is long, and less 1 it is short again.
#[test]
fn there_and_back(rt: HostRuntime) -> Result<(), Fail> {
    let alloc = rt.alloc();
    let one = BigFraction::one();
    let most = BigFraction::from_integer(9223372036854775807);
    let more = most.add(alloc, &one)?;
    assert!(rt; more != most);
    assert!(rt; most != more);
    let back = more.subtract(alloc, &one)?;
    assert!(rt; back == most);
    assert_eq!(rt; hash_of(&back), hash_of(&most));
    assert!(rt; back.add(alloc, &one)? == more);
    assert_eq!(rt; hash_of(&back.add(alloc, &one)?), hash_of(&more));
    Ok(())
}

/// A short fraction feeds a hasher as its `Reduced64` does.
#[test]
fn short_hashes(rt: HostRuntime) -> Result<(), Fail> {
    let x = Reduced64::checked_new(-6, 4).ok_or("it fits")?;
    assert_eq!(rt; hash_of(&short(&rt, -3, 2)), hash_of(&x));
    assert!(rt; short(&rt, -3, 2) == BigFraction::from_reduced(x));
    assert!(rt; short(&rt, 3, 2) != BigFraction::from_reduced(x));
    Ok(())
}

/// Leading zeros and common factors make no difference: 2^64/3.
#[test]
fn long_hashes(rt: HostRuntime) -> Result<(), Fail> {
    let alloc = rt.alloc();
    let x = BigFraction::from_digits(alloc, false, &[0, 1], &[3])?.ok_or("not 0")?;
    let y = BigFraction::from_digits(alloc, false, &[0, 5, 0, 0], &[15, 0])?.ok_or("not 0")?;
    assert!(rt; x == y);
    assert_eq!(rt; hash_of(&x), hash_of(&y));
    let negative = x.negate(alloc)?;
    assert!(rt; x != negative);
    assert!(rt; hash_of(&x) != hash_of(&negative));
    let other = BigFraction::from_digits(alloc, false, &[0, 1], &[5])?.ok_or("not 0")?;
    assert!(rt; x != other);
    assert!(rt; hash_of(&x) != hash_of(&other));
    assert!(rt; x != x.reciprocal(alloc)?.ok_or("not 0")?);
    assert!(rt; x != short(&rt, 1, 3));
    Ok(())
}
