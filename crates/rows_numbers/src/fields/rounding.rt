//! The whole numbers of a fraction, and what is left of it without them.
use crate::fields::positive;
use ratio_core::rounding::{
    ceil, floor, fract, round, to_i64, to_i128, to_integer, to_u64, to_u128, trunc,
};
use ratio_integer::Integer;
use rows::answer::{Answer, of_signed, of_unsigned};

/// Makes the call and returns its answer.
pub fn answer<T: Integer>(call: &str, words: &str) -> Option<Answer<T>> {
    let (n, d) = positive::<T>(words)?;
    Some(match call {
        "floor" => Answer::Number(floor(n, d)),
        "ceil" => Answer::Number(ceil(n, d)),
        "trunc" => Answer::Number(trunc(n, d)),
        "round" => Answer::Number(round(n, d)),
        "fract" => Answer::Number(fract(n, d)),
        "to_integer" => Answer::Number(to_integer(n, d)),
        "to_i64" => of_signed(to_i64(n, d).map(|number| number as i128)),
        "to_i128" => of_signed(to_i128(n, d)),
        "to_u64" => of_unsigned(to_u64(n, d).map(|number| number as u128)),
        "to_u128" => of_unsigned(to_u128(n, d)),
        _ => return None,
    })
}
