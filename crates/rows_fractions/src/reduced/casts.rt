//! A fraction over another type: `Reduced::cast i64 i8 1/127` has the type that it comes from first.
use super::lowest;
use ratio_integer::Primitive;
use rows::answer::{Answer, of_reduced, of_text};
use std::alloc::Global;

/// The answer, or `None` if the call has another name, or the words cannot be read.
pub fn answer<T: Primitive>(alloc: Global, call: &str, words: &str) -> Option<Answer<T>> {
    if call != "cast" {
        return None;
    }
    let (type_name, word) = words.split_once(' ')?;
    let x = lowest::<T>(word)?;
    match type_name {
        "i8" => Some(of_text(format!(in alloc; "{}", of_reduced(x.cast::<i8>())))),
        "i128" => Some(of_text(format!(in alloc; "{}", of_reduced(x.cast::<i128>())))),
        "u8" => Some(of_text(format!(in alloc; "{}", of_reduced(x.cast::<u8>())))),
        "u128" => Some(of_text(format!(in alloc; "{}", of_reduced(x.cast::<u128>())))),
        _ => None,
    }
}
