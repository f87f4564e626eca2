//! Whole numbers and fractions, as rows of totals write them: `-7/2`, or `1/2^64-59` and `-2^127` by a power of 2.
use ratio_integer::Integer;
use rows::notation;

/// The number that a word writes, if it fits the type. `-2^127+1` is the negative of 2^127 - 1.
pub fn number<T: Integer>(word: &str) -> Option<T> {
    let Some((sign, power)) = word.split_once("2^") else {
        return notation::number(word);
    };
    let (less, exponent, offset) = match (power.split_once('-'), power.split_once('+')) {
        (Some((exponent, offset)), _) => (true, exponent, offset),
        (None, Some((exponent, offset))) => (false, exponent, offset),
        (None, None) => (false, power, "0"),
    };
    let (below, offset) = (mask(exponent)?, offset.parse::<u128>().ok()?);
    let nearer = less != (sign == "-") && offset != 0;
    let magnitude = if nearer {
        below.checked_sub(offset.checked_sub(1)?)?
    } else {
        below.checked_add(offset)?.checked_add(1)?
    };
    match sign {
        "" => T::from_u128(magnitude),
        "-" if magnitude == 1 << 127 => T::from_i128(i128::MIN),
        "-" => T::from_i128(-i128::try_from(magnitude).ok()?),
        _ => None,
    }
}

// The power of 2 with this exponent, less 1.
fn mask(exponent: &str) -> Option<u128> {
    let exponent = exponent.parse::<u32>().ok()?;
    if 0 < exponent && exponent <= 128 {
        Some(u128::MAX >> (128 - exponent))
    } else {
        None
    }
}

/// The two numbers of a fraction, as they are written. A whole number stands over 1.
pub fn fraction<T: Integer>(word: &str) -> Option<(T, T)> {
    let (numer, denom) = word.split_once('/').unwrap_or((word, "1"));
    Some((number(numer)?, number(denom)?))
}
