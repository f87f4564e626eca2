//! Calls on integers and on the fields of fractions: those of `ratio_integer`, `ratio_core`, `ratio_approximation` and
//! `ratio_decimal`, over the twelve types.
mod approximations;
mod decimals;
mod integers;
mod list_of_codes;
mod order;
mod reducing;
mod rounding;
mod signed;
mod sums;
mod texts;

ghost use Rattle.std.specs.Prelude.{◌<ℤ◌, pos, IfSome};

use ratio_integer::{Integer, Primitive};
use rows::answer::{Answer, of_fields};
use rows::notation::fraction;
use rows::types;
use rows::types::{Asked, OverTypes};
use std::alloc::Global;
use std::fmt;
use std::fmt::Display;

/// The call over one type.
#[derive(Clone, Copy)]
struct OverType<'a> {
    type_name: &'a str,
    subject: &'a str,
    asked: Asked<'a>,
}

/// Makes the call over the type that the first word names, and writes its answer. The word `all` stands for the twelve types.
pub fn write_answer<W: fmt::Write>(
    alloc: Global,
    subject: &str,
    call: &str,
    words: &str,
    f: &mut fmt::Formatter<W>,
) -> fmt::Result {
    let (type_name, words) = words.split_once(' ').unwrap_or((words, ""));
    let asked = Asked { alloc, call, words };
    if type_name == "all" {
        write_over_all(subject, asked, f)
    } else {
        write_over_type(subject, type_name, asked, f)
    }
}

fn write_over_type<W: fmt::Write>(
    subject: &str,
    type_name: &str,
    asked: Asked<'_>,
    f: &mut fmt::Formatter<W>,
) -> fmt::Result {
    if subject == "sign" || subject == "SignedInteger" {
        signed::write_answer(type_name, asked.call, asked.words, f)
    } else {
        types::write_over_type(&Fields { subject }, type_name, asked, f)
    }
}

// The answer that the call has over all types.
fn write_over_all<W: fmt::Write>(
    subject: &str,
    asked: Asked<'_>,
    f: &mut fmt::Formatter<W>,
) -> fmt::Result {
    let first = OverType {
        type_name: "i8",
        subject,
        asked,
    };
    let Ok(text) = format!(in asked.alloc; "{first}") else {
        return f.write_str("no memory");
    };
    for type_name in [
        "i16", "i32", "i64", "i128", "isize", "u8", "u16", "u32", "u64", "u128", "usize",
    ] {
        let other = OverType { type_name, ..first };
        match format!(in asked.alloc; "{other}") {
            Ok(other) if other.as_str() == text.as_str() => {}
            _ => return f.write_str("types differ"),
        }
    }
    f.write_str(text.as_str())
}

impl Display for OverType<'_> {
    fn fmt<W: fmt::Write>(&self, f: &mut fmt::Formatter<W>) -> fmt::Result {
        write_over_type(self.subject, self.type_name, self.asked, f)
    }
}

// The calls of a subject that unsigned types have, too.
#[derive(Clone, Copy, Drop)]
struct Fields<'a> {
    subject: &'a str,
}

impl OverTypes for Fields<'_> {
    fn answer<T: Primitive + Display>(&self, asked: Asked<'_>) -> Option<Answer<T>> {
        let (alloc, call, words) = (asked.alloc, asked.call, asked.words);
        match self.subject {
            "ratio_decimal" | "float" => decimals::answer(alloc, call, words),
            "order" | "hash" => order::answer(alloc, call, words),
            "ratio_integer" | "checked_new" => reducing::answer(alloc, call, words),
            "text" => texts::answer(alloc, call, words),
            subject => without_memory(subject, call, words),
        }
    }
}

// The calls that take no memory.
fn without_memory<T: Primitive>(subject: &str, call: &str, words: &str) -> Option<Answer<T>> {
    match subject {
        "Integer" | "Primitive" => integers::answer(call, words),
        "nearest" | "simplest" => approximations::answer(call, words),
        "rounding" => rounding::answer(call, words),
        "sums" | "products" | "remainder" | "pow" => sums::answer(call, words),
        _ => None,
    }
}

// The fields that a word writes, if the denominator is positive.
fn positive<T: Integer>(word: &str) -> Option<(T, T)>
    ensures { IfSome result (λ x. pos 0 <ℤ T.value x.1) }
{
    let (numer, denom) = fraction::<T>(word)?;
    if T::ZERO < denom {
        Some((numer, denom))
    } else {
        None
    }
}

// The fields of two words, if both denominators are positive.
fn two_positive<T: Integer>(words: &str) -> Option<(T, T, T, T)>
    ensures left { IfSome result (λ x. pos 0 <ℤ T.value x.1) }
    ensures right { IfSome result (λ x. pos 0 <ℤ T.value x.3) }
{
    let (left, right) = words.split_once(' ')?;
    let (left, right) = (positive::<T>(left)?, positive::<T>(right)?);
    Some((left.0, left.1, right.0, right.1))
}

// The fields, if the other form of the call returned them, too.
fn agreed<T: Integer>(fields: (T, T), other: (T, T)) -> Answer<T> {
    if fields == other {
        of_fields(fields)
    } else {
        Answer::FormsDiffer
    }
}
