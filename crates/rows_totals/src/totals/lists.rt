//! Lists, as a row writes them: digits `[7*64]`, slots `[1/36,0/0]` and fractions `[1/2*3,1/1..9]`.
use super::numbers::{fraction, number};
use num_rational::Reduced;
use ratio_integer::Integer;
use ratio_slots::Slot;
use std::alloc::Global;

/// The fields of each fraction in a list: `1/2*3` stands for 1/2 three times, and `1/2..4` for 1/2, 1/3 and 1/4.
pub fn fields<T: Integer>(alloc: Global, word: &str) -> Option<Vec<(T, T)>> {
    let mut all = Vec::new(alloc);
    let items = word.strip_prefix('[')?.strip_suffix(']')?;
    if !items.is_empty() {
        for item in items.split(',') {
            push_fields(&mut all, item)?;
        }
    }
    Some(all)
}

/// The fields that one item of a list stands for.
pub fn push_fields<T: Integer>(all: &mut Vec<(T, T)>, item: &str) -> Option<()> {
    if let Some((first, last)) = item.split_once("..") {
        return push_range(all, first, last.parse().ok()?);
    }
    let (item, times) = item.split_once('*').unwrap_or((item, "1"));
    let pair = fraction(item)?;
    for _ in 0..times.parse::<usize>().ok()? {
        all.push(pair).ok()?;
    }
    Some(())
}

// The fraction, and those over the next denominators up to the last one.
fn push_range<T: Integer>(all: &mut Vec<(T, T)>, first: &str, last: u64) -> Option<()> {
    let (numer, first) = first.split_once('/')?;
    let numer = number(numer)?;
    for denom in first.parse::<u64>().ok()?..=last {
        all.push((numer, T::from_u128(denom as u128)?)).ok()?;
    }
    Some(())
}

/// The fractions of a list.
pub fn fractions<T: Integer>(alloc: Global, word: &str) -> Option<Vec<Reduced<T>>> {
    let mut all = Vec::new(alloc);
    for pair in fields(alloc, word)?.iter() {
        all.push(Reduced::checked_new(pair.0, pair.1)?).ok()?;
    }
    Some(all)
}

/// The fraction that a word writes.
pub fn one_fraction<T: Integer>(word: &str) -> Option<Reduced<T>> {
    let (numer, denom) = fraction(word)?;
    Reduced::checked_new(numer, denom)
}

/// Digits, such as those of a room.
pub fn digits(alloc: Global, word: &str) -> Option<Vec<u64>> {
    let mut all = Vec::new(alloc);
    for pair in fields::<u64>(alloc, word)?.iter() {
        all.push(pair.0).ok()?;
    }
    Some(all)
}

/// The slots of a list, or as many empty ones as the word says.
pub fn slots(alloc: Global, word: &str) -> Option<Vec<Slot>> {
    if let Ok(count) = word.parse::<usize>() {
        return filled(alloc, Slot::EMPTY, count);
    }
    let mut all = Vec::new(alloc);
    for pair in fields::<i128>(alloc, word)?.iter() {
        all.push(Slot::new(u64::try_from(pair.1).ok()?, pair.0))
            .ok()?;
    }
    Some(all)
}

/// The bytes of `x*400`, a buffer that was used before, or `0*400`.
pub fn bytes(alloc: Global, word: &str) -> Option<Vec<u8>> {
    let (fill, count) = word.split_once('*')?;
    let fill = if fill == "x" { b'x' } else { 0 };
    filled(alloc, fill, count.parse::<usize>().ok()?)
}

/// A list that has the same item everywhere.
pub fn filled<T: Copy>(alloc: Global, item: T, count: usize) -> Option<Vec<T>> {
    let mut all = Vec::new(alloc);
    for _ in 0..count {
        all.push(item).ok()?;
    }
    Some(all)
}
