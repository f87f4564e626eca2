//! Fractions are sorted, searched and grouped.
use crate::digest::Digest;
use crate::made::{Made, fraction};
use num_rational::{Reduced, Reduced64};
use std::alloc::{AllocError, Global};
use std::hash::{DefaultHasher, Hash, Hasher};

/// So many times: a list of each kind, sorted, searched and hashed.
pub(crate) fn run(
    alloc: Global,
    made: &mut Made,
    count: u32,
    items: u32,
) -> Result<u64, AllocError> {
    let mut digest = Digest::new();
    for _ in 0..count {
        for kind in 0..6 {
            let mut list = made_list(alloc, made, kind, items)?;
            list.sort()?;
            add_groups(&mut digest, list.as_slice());
            search(made, &mut digest, list.as_slice(), kind);
            hash(&mut digest, list.as_slice());
        }
    }
    Ok(digest.value())
}

// Prices, tunings, fields of half the width, of the whole width, positions in a list, and neighbours of the whole width.
fn made_item(made: &mut Made, kind: u64, near: &Reduced64) -> Reduced64 {
    match kind {
        0 => fraction(made.below(100_000) as i64, made.one_of(&[1, 3, 12, 100])),
        1 => fraction(made.below(1000) as i64 + 1, made.below(1000) as i64 + 1),
        2 => fraction(made.any_length(31), made.any_length(31)),
        3 => {
            let numer = made.of_length(62);
            fraction(made.signed(numer), made.of_length(62))
        }
        4 => {
            let low = fraction(made.below(1_000_000) as i64, 1_000_003);
            let high = fraction(made.below(1_000_000) as i64, 999_983);
            Reduced::simplest_between(&low, &high).unwrap_or(low)
        }
        _ => fraction(
            near.numer().wrapping_add(made.below(1000) as i64),
            near.denom().wrapping_add(made.below(1000) as i64),
        ),
    }
}

fn made_list(
    alloc: Global,
    made: &mut Made,
    kind: u64,
    items: u32,
) -> Result<Vec<Reduced64>, AllocError> {
    let near = fraction(made.of_length(62), made.of_length(62));
    let mut list = Vec::new(alloc);
    for _ in 0..items {
        list.push(made_item(made, kind, &near))?;
    }
    Ok(list)
}

// Each different fraction, and how often it comes.
fn add_groups(digest: &mut Digest, list: &[Reduced64]) {
    let mut last = Reduced::zero();
    let mut times = 0u64;
    for item in list {
        if *item != last {
            digest.add(times);
            digest.add_fraction(item);
            last = *item;
            times = 0;
        }
        times = times.wrapping_add(1);
    }
    digest.add(times);
}

fn search(made: &mut Made, digest: &mut Digest, list: &[Reduced64], kind: u64) {
    let near = list.first().copied().unwrap_or(Reduced::zero());
    for _ in 0..list.len() / 4 {
        let wanted = made_item(made, kind, &near);
        match list.binary_search(&wanted) {
            Ok(place) => digest.add(place as u64),
            Err(place) => digest.add(place as u64 ^ 1),
        }
    }
}

// The hash of each fourth fraction, as it is and over other numbers.
fn hash(digest: &mut Digest, list: &[Reduced64]) {
    for (i, item) in list.iter().enumerate() {
        if i % 4 == 0 {
            let mut hasher = DefaultHasher::new();
            item.hash(&mut hasher);
            digest.add(hasher.finish());
            let mut hasher = DefaultHasher::new();
            item.to_ratio().hash(&mut hasher);
            digest.add(hasher.finish());
        }
    }
}
