//! Numbers of 128 bits, as chains of rates make them.
use crate::digest::Digest;
use crate::made::Made;
use num_rational::{Reduced, Rounding, split};
use std::alloc::{AllocError, Global};
use std::cmp::Ordering;

/// So many times: remainders, rounded products, sums, comparisons and splits.
pub(crate) fn run(alloc: Global, made: &mut Made, count: u32) -> Result<u64, AllocError> {
    let mut digest = Digest::new();
    for _ in 0..count {
        for bits in [30, 60, 64, 100, 124] {
            for _ in 0..1000 {
                combine(made, &mut digest, bits);
            }
        }
        for _ in 0..40 {
            split_shares(alloc, made, &mut digest)?;
        }
    }
    Ok(digest.value())
}

// A number of so many bits, at most 124, from 0 on.
fn number(made: &mut Made, bits: u32) -> i128 {
    let high = (made.any() >> 4) as i128;
    let low = made.any() as i128;
    (high * (1 << 64) + low) >> (124 - bits.min(124))
}

fn fraction(made: &mut Made, bits: u32) -> Reduced<i128> {
    let numer = number(made, bits);
    let denom = number(made, bits);
    let signed = if made.below(4) == 0 {
        numer.wrapping_neg()
    } else {
        numer
    };
    Reduced::checked_new(signed, denom).unwrap_or(Reduced::zero())
}

fn combine(made: &mut Made, digest: &mut Digest, bits: u32) {
    let x = fraction(made, bits);
    let y = fraction(made, bits);
    digest.add_any_wide(&x.checked_rem(&y));
    match x.checked_mul_round(&y, Rounding::HalfEven) {
        Some(n) => digest.add_wide(n),
        None => digest.add(7),
    }
    digest.add_any_wide(&x.checked_add(&y));
    digest.add_any_wide(&x.checked_mul(&y));
    digest.add(match x.cmp(&y) {
        Ordering::Less => 1,
        Ordering::Equal => 2,
        Ordering::Greater => 3,
    });
}

// A great amount by shares over the sum of their weights.
fn split_shares(alloc: Global, made: &mut Made, digest: &mut Digest) -> Result<(), AllocError> {
    let mut weights = Vec::new(alloc);
    let mut total = 0i128;
    for _ in 0..made.below(30) + 2 {
        let weight = (made.any() >> 8) as i128;
        total = total.wrapping_add(weight);
        weights.push(weight)?;
    }
    let mut shares = Vec::new(alloc);
    for weight in &weights {
        shares.push(Reduced::checked_new(*weight, total).unwrap_or(Reduced::zero()))?;
    }
    let mut parts = vec![in alloc; 0i128; shares.len()]?;
    let amount = number(made, 120);
    let outcome = split(amount, shares.as_slice(), parts.as_mut_slice());
    match outcome {
        Ok(()) => digest.add(1),
        Err(why) => digest.add_refusal(why as u64),
    }
    for part in &parts {
        digest.add_wide(*part);
    }
    Ok(())
}
