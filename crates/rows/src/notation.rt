//! Numbers, fractions, lists and texts, as a row writes them: `-7`, `-7/2`, `[1/2,1/3]`, `"1 1/2"`.
use num_rational::Rounding;
use ratio_integer::Integer;

/// The number that a word writes, if it fits the type.
pub fn number<T: Integer>(word: &str) -> Option<T> {
    match word.parse::<i128>() {
        Ok(number) => T::from_i128(number),
        Err(_) => T::from_u128(word.parse::<u128>().ok()?),
    }
}

/// The two numbers of `-7/2`, as they are written. A whole number stands over 1.
pub fn fraction<T: Integer>(word: &str) -> Option<(T, T)> {
    match word.split_once('/') {
        Some((numer, denom)) => Some((number(numer)?, number(denom)?)),
        None => Some((number(word)?, T::ONE)),
    }
}

/// Both numbers of two words.
pub fn two_numbers<T: Integer>(words: &str) -> Option<(T, T)> {
    let (left, right) = words.split_once(' ')?;
    Some((number(left)?, number(right)?))
}

/// Both fractions of two words.
pub fn two_fractions<T: Integer>(words: &str) -> Option<((T, T), (T, T))> {
    let (left, right) = words.split_once(' ')?;
    Some((fraction(left)?, fraction(right)?))
}

/// What stands between the quotes of a text.
pub fn text(words: &str) -> Option<&str> {
    words.strip_prefix('"')?.strip_suffix('"')
}

/// The rule of rounding with this name.
pub fn rule(word: &str) -> Option<Rounding> {
    match word {
        "HalfAway" => Some(Rounding::HalfAway),
        "HalfEven" => Some(Rounding::HalfEven),
        "Down" => Some(Rounding::Down),
        "Up" => Some(Rounding::Up),
        "Floor" => Some(Rounding::Floor),
        "Ceil" => Some(Rounding::Ceil),
        _ => None,
    }
}
