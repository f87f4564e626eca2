//! What calls of totals return, as rows write it.
use num_rational::Reduced;
use ratio_integer::Integer;
use ratio_slots::WideFraction;
use rows::answer::{of_number, of_reduced};
use std::alloc::Global;
use std::cmp::Ordering;
use std::fmt;
use std::fmt::Display;

/// The value, as it is displayed.
pub fn written<A: Display + Drop>(alloc: Global, value: A) -> Option<String> {
    format!(in alloc; "{value}").ok()
}

/// The text of a refusal.
pub fn refused<E: Display + Drop>(alloc: Global, why: E) -> Option<String> {
    format!(in alloc; "refused: {why}").ok()
}

/// `ok`, or the refusal.
pub fn done<E: Display + Drop>(alloc: Global, outcome: Result<(), E>) -> Option<String> {
    match outcome {
        Ok(()) => written(alloc, "ok"),
        Err(why) => refused(alloc, why),
    }
}

/// The fraction of a read with one digit for each number, or the refusal.
pub fn said_lowest<E: Display + Drop>(
    alloc: Global,
    read: Result<Option<(i128, u64)>, E>,
) -> Option<String> {
    match read {
        Ok(read) => written(alloc, lowest(read)),
        Err(why) => refused(alloc, why),
    }
}

/// The fraction of a wide read, or the refusal.
pub fn said_wide<E: Display + Drop>(
    alloc: Global,
    read: Result<Option<WideFraction>, E>,
) -> Option<String> {
    match read {
        Ok(read) => written(alloc, LowestTerms(read)),
        Err(why) => refused(alloc, why),
    }
}

/// The fraction of a read over `T`, or the refusal.
pub fn said_fraction<T: Integer + Display, E: Display + Drop>(
    alloc: Global,
    read: Result<Option<Reduced<T>>, E>,
) -> Option<String> {
    match read {
        Ok(read) => written(alloc, of_reduced(read)),
        Err(why) => refused(alloc, why),
    }
}

/// The number that was read, or the refusal.
pub fn said_number<T: Display + Drop, E: Display + Drop>(
    alloc: Global,
    read: Result<Option<T>, E>,
) -> Option<String> {
    match read {
        Ok(read) => written(alloc, of_number(read)),
        Err(why) => refused(alloc, why),
    }
}

/// The word of an order, or the refusal.
pub fn said_order<E: Display + Drop>(alloc: Global, read: Result<Ordering, E>) -> Option<String> {
    match read {
        Ok(Ordering::Less) => written(alloc, "less"),
        Ok(Ordering::Equal) => written(alloc, "equal"),
        Ok(Ordering::Greater) => written(alloc, "greater"),
        Err(why) => refused(alloc, why),
    }
}

/// The bits of a float, `0x3ff0000000000000` for 1, or the refusal.
pub fn said_bits<E: Display + Drop>(alloc: Global, read: Result<f64, E>) -> Option<String> {
    match read {
        Ok(x) if x.is_nan() => written(alloc, "NaN"),
        Ok(x) => {
            let bits = x.to_bits();
            format!(in alloc; "{bits:#018x}").ok()
        }
        Err(why) => refused(alloc, why),
    }
}

/// A fraction whose sign stands alone, or none.
#[derive(Clone, Copy, Drop)]
pub struct LowestTerms(Option<WideFraction>);

impl Display for LowestTerms {
    fn fmt<W: fmt::Write>(&self, f: &mut fmt::Formatter<W>) -> fmt::Result {
        match self.0 {
            None => f.write_str("none"),
            Some(it) if it.negative => write!(f, "-{}/{}", it.numer, it.denom),
            Some(it) => write!(f, "{}/{}", it.numer, it.denom),
        }
    }
}

/// The fraction of a read with one digit for each number.
pub fn lowest(read: Option<(i128, u64)>) -> LowestTerms {
    match read {
        None => LowestTerms(None),
        Some((numer, denom)) => LowestTerms(Some(WideFraction {
            negative: numer < 0,
            numer: numer.unsigned_abs(),
            denom: denom as u128,
        })),
    }
}

/// The text that ends where the bytes end, in quotes.
pub fn text<E: Display + Drop>(
    alloc: Global,
    start: Result<usize, E>,
    bytes: &[u8],
) -> Option<String> {
    match start {
        Ok(start) => {
            let text = str::from_utf8(bytes.get(start..)?).ok()?;
            format!(in alloc; "\"{text}\"").ok()
        }
        Err(why) => refused(alloc, why),
    }
}

/// The digits of a number without leading zeros.
pub fn trimmed(mut digits: &[u64]) -> &[u64] {
    for _ in 0..digits.len() {
        match digits.split_last() {
            Some((0, others)) => digits = others,
            _ => return digits,
        }
    }
    digits
}
