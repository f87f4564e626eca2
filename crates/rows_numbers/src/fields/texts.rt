//! Fields as texts, and texts as fields.
use ratio_core::text::{
    base_ten_text, from_str, from_str_radix, leading_fields, put_base_ten_text, put_digits,
    put_text,
};
use ratio_core::{BaseTenText, Form, RatioText, text as printing};
use ratio_integer::Primitive;
use rows::answer::{Answer, of_pair, of_text};
use rows::notation::{fraction, text};
use std::alloc::Global;
use std::fmt::Display;

/// Makes the call and returns its answer.
pub fn answer<T: Primitive + Display>(alloc: Global, call: &str, words: &str) -> Option<Answer<T>> {
    match call {
        "from_str" => Some(of_pair(from_str(text(words)?).ok())),
        "from_str_radix" => read_in(words),
        "leading_fields" => Some(match leading_fields::<T>(text(words)?.as_bytes()) {
            Some((n, d, length)) => of_text(format!(in alloc; "{n}/{d} {length}")),
            None => Answer::Nothing,
        }),
        "put_digits" => digits(alloc, words.parse::<u128>().ok()?),
        "base_ten_text" => base_ten::<T>(alloc, words),
        "text" => printed::<T>(alloc, words),
        _ => None,
    }
}

fn read_in<T: Primitive>(words: &str) -> Option<Answer<T>> {
    let (radix, quoted) = words.split_once(' ')?;
    let (radix, text) = (radix.parse::<u32>().ok()?, text(quoted)?);
    if radix < 2 || radix > 36 {
        return None;
    }
    Some(of_pair(from_str_radix(text, radix).ok()))
}

// The digits, as they stand at the end of 40 bytes.
fn digits<T>(alloc: Global, n: u128) -> Option<Answer<T>> {
    let mut bytes = [b' '; 40];
    let start = put_digits(n, &mut bytes, 40);
    let text = str::from_utf8(&bytes[start..]).ok()?;
    Some(of_text(format!(in alloc; "\"{text}\"")))
}

// A text that was returned, and the same that was put into room of the caller's.
fn both<T>(alloc: Global, text: &str, other: &str) -> Answer<T> {
    if text == other {
        of_text(format!(in alloc; "\"{text}\""))
    } else {
        Answer::FormsDiffer
    }
}

fn base_ten<T: Primitive>(alloc: Global, words: &str) -> Option<Answer<T>> {
    let (n, d) = fraction::<T>(words)?;
    let mut room = BaseTenText::empty();
    put_base_ten_text(n, d, &mut room);
    let text = base_ten_text(n, d);
    Some(both(alloc, text.as_str(), room.as_str()))
}

// A fraction, its form, and `prefix` if it is printed with one. A row without a form is printed in decimal. A prefix changes nothing there.
fn printed<T: Primitive>(alloc: Global, words: &str) -> Option<Answer<T>> {
    let (fields, form) = match words.split_once(' ') {
        Some(split) => split,
        None => (words, "Decimal"),
    };
    let (name, prefix) = match form.split_once(' ') {
        Some((name, "prefix")) => (name, true),
        _ => (form, false),
    };
    let ((n, d), form) = (fraction::<T>(fields)?, form_of(name)?);
    let mut room = RatioText::empty();
    put_text(n, d, form, prefix || form == Form::Decimal, &mut room);
    let text = printing::text(n, d, form, prefix);
    Some(both(alloc, text.as_str(), room.as_str()))
}

fn form_of(name: &str) -> Option<Form> {
    match name {
        "Decimal" => Some(Form::Decimal),
        "Binary" => Some(Form::Binary),
        "Octal" => Some(Form::Octal),
        "LowerHex" => Some(Form::LowerHex),
        "UpperHex" => Some(Form::UpperHex),
        _ => None,
    }
}
