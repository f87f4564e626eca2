//! What a call returned, as a row writes it.
use num_rational::Reduced;
use ratio_integer::Integer;
use std::alloc::{AllocError, Global};
use std::cmp::Ordering;
use std::fmt;
use std::fmt::Display;

/// What a call returned. A row that cannot be read has the answer `bad row`.
#[derive(Drop)]
pub enum Answer<T> {
    Nothing,
    BadRow,
    Truth(bool),
    Order(Ordering),
    Number(T),
    /// A fraction, by its two fields as they are.
    Fraction(T, T),
    /// Two numbers, as a quotient and its rest.
    Pair(T, T),
    Signed(i128),
    Unsigned(u128),
    /// Anything else, written into a text by `format!`.
    Text(String),
    NoMemory,
    /// Two forms of one call returned different answers.
    FormsDiffer,
}

/// The answer of a call that may return no fraction in lowest terms.
pub fn of_reduced<T: Integer>(reduced: Option<Reduced<T>>) -> Answer<T> {
    match reduced {
        Some(reduced) => of_fields(reduced.into_raw()),
        None => Answer::Nothing,
    }
}

/// The answer of a call that returns these fields.
pub fn of_fields<T>(fields: (T, T)) -> Answer<T> {
    let (numer, denom) = fields;
    Answer::Fraction(numer, denom)
}

/// The answer of a call that may return no fields.
pub fn of_pair<T>(pair: Option<(T, T)>) -> Answer<T> {
    match pair {
        Some(fields) => of_fields(fields),
        None => Answer::Nothing,
    }
}

/// The answer of a call that may return no number.
pub fn of_number<T>(number: Option<T>) -> Answer<T> {
    match number {
        Some(number) => Answer::Number(number),
        None => Answer::Nothing,
    }
}

/// The answer of a call that may return no number of 128 bits with a sign.
pub fn of_signed<T>(number: Option<i128>) -> Answer<T> {
    match number {
        Some(number) => Answer::Signed(number),
        None => Answer::Nothing,
    }
}

/// The same without a sign.
pub fn of_unsigned<T>(number: Option<u128>) -> Answer<T> {
    match number {
        Some(number) => Answer::Unsigned(number),
        None => Answer::Nothing,
    }
}

/// The answer of a call that may return no order.
pub fn of_order<T>(order: Option<Ordering>) -> Answer<T> {
    match order {
        Some(order) => Answer::Order(order),
        None => Answer::Nothing,
    }
}

/// The answer that is this text, if there was memory for it.
pub fn of_text<T>(text: Result<String, AllocError>) -> Answer<T> {
    match text {
        Ok(text) => Answer::Text(text),
        Err(_) => Answer::NoMemory,
    }
}

/// The bits of the float, as `0x3fd5555555555555` for 1/3.
pub fn of_f64<T>(alloc: Global, x: f64) -> Answer<T> {
    if x.is_nan() {
        return Answer::Nothing;
    }
    let bits = x.to_bits();
    of_text(format!(in alloc; "{bits:#x}"))
}

/// The same for a float of 32 bits.
pub fn of_f32<T>(alloc: Global, x: f32) -> Answer<T> {
    if x.is_nan() {
        return Answer::Nothing;
    }
    let bits = x.to_bits();
    of_text(format!(in alloc; "{bits:#x}"))
}

/// Writes the answer. There is none to a row that cannot be read.
pub fn write_or_bad_row<T: Display + Drop, W: fmt::Write>(
    answer: Option<Answer<T>>,
    f: &mut fmt::Formatter<W>,
) -> fmt::Result {
    match answer {
        Some(answer) => write!(f, "{answer}"),
        None => f.write_str("bad row"),
    }
}

/// Writes the answer of a call that takes memory.
pub fn write_or_no_memory<W: fmt::Write>(
    answer: Result<Answer<i64>, AllocError>,
    f: &mut fmt::Formatter<W>,
) -> fmt::Result {
    match answer {
        Ok(answer) => write!(f, "{answer}"),
        Err(_) => f.write_str("no memory"),
    }
}

impl<T: Display> Display for Answer<T> {
    fn fmt<W: fmt::Write>(&self, f: &mut fmt::Formatter<W>) -> fmt::Result {
        match self {
            Answer::Nothing => f.write_str("none"),
            Answer::BadRow => f.write_str("bad row"),
            Answer::NoMemory => f.write_str("no memory"),
            Answer::FormsDiffer => f.write_str("forms differ"),
            Answer::Truth(truth) => write!(f, "{truth}"),
            Answer::Order(Ordering::Less) => f.write_str("less"),
            Answer::Order(Ordering::Equal) => f.write_str("equal"),
            Answer::Order(Ordering::Greater) => f.write_str("greater"),
            Answer::Number(number) => write!(f, "{number}"),
            Answer::Fraction(numer, denom) => write!(f, "{numer}/{denom}"),
            Answer::Pair(first, second) => write!(f, "{first} {second}"),
            Answer::Signed(number) => write!(f, "{number}"),
            Answer::Unsigned(number) => write!(f, "{number}"),
            Answer::Text(text) => f.write_str(text.as_str()),
        }
    }
}
