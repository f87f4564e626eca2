//! Calls over the type that a row names: `i64` of `Ratio::checked_add i64 1/2 1/3`.
use crate::answer::{Answer, write_or_bad_row};
use ratio_integer::Primitive;
use std::alloc::Global;
use std::fmt;
use std::fmt::Display;

/// A call with its words, without its type.
#[derive(Clone, Copy)]
pub struct Asked<'a> {
    pub alloc: Global,
    pub call: &'a str,
    pub words: &'a str,
}

/// Calls that can be made over each of the twelve types.
pub trait OverTypes {
    /// Makes the call over `T`. A row that cannot be read has no answer.
    fn answer<T: Primitive + Display>(&self, asked: Asked<'_>) -> Option<Answer<T>>;
}

/// Makes the call over the type that the first word names, and writes its answer.
pub fn write_answer<C: OverTypes, W: fmt::Write>(
    calls: &C,
    alloc: Global,
    call: &str,
    words: &str,
    f: &mut fmt::Formatter<W>,
) -> fmt::Result {
    match words.split_once(' ') {
        Some((type_name, words)) => {
            write_over_type(calls, type_name, Asked { alloc, call, words }, f)
        }
        None => f.write_str("bad row"),
    }
}

/// Makes the call over the type with this name, and writes its answer.
pub fn write_over_type<C: OverTypes, W: fmt::Write>(
    calls: &C,
    type_name: &str,
    asked: Asked<'_>,
    f: &mut fmt::Formatter<W>,
) -> fmt::Result {
    match type_name {
        "i8" => write_or_bad_row(calls.answer::<i8>(asked), f),
        "i16" => write_or_bad_row(calls.answer::<i16>(asked), f),
        "i32" => write_or_bad_row(calls.answer::<i32>(asked), f),
        "i64" => write_or_bad_row(calls.answer::<i64>(asked), f),
        "i128" => write_or_bad_row(calls.answer::<i128>(asked), f),
        "isize" => write_or_bad_row(calls.answer::<isize>(asked), f),
        "u8" => write_or_bad_row(calls.answer::<u8>(asked), f),
        "u16" => write_or_bad_row(calls.answer::<u16>(asked), f),
        "u32" => write_or_bad_row(calls.answer::<u32>(asked), f),
        "u64" => write_or_bad_row(calls.answer::<u64>(asked), f),
        "u128" => write_or_bad_row(calls.answer::<u128>(asked), f),
        "usize" => write_or_bad_row(calls.answer::<usize>(asked), f),
        _ => f.write_str("bad row"),
    }
}
