//! Texts of fractions, read and written.
use crate::ratios::raw;
use num_rational::{Form, ParseRatioError, Ratio, RatioErrorKind, Reduced};
use ratio_integer::{Integer, Primitive};
use rows::answer::{Answer, of_fields, of_text};
use rows::notation::{fraction, number, text};
use std::alloc::{AllocError, Global};

type Fields<T> = Result<(T, T), ParseRatioError>;

fn of_ratio<T: Integer>(read: Result<Ratio<T>, ParseRatioError>) -> Fields<T> {
    Ok(read?.into_raw())
}

fn of_reduced<T: Integer>(read: Result<Reduced<T>, ParseRatioError>) -> Fields<T> {
    Ok(read?.into_raw())
}

/// The fields of a text in base 10, by every call that reads it.
pub fn read<T: Primitive>(alloc: Global, words: &str) -> Option<Answer<T>> {
    let text = text(words)?;
    let read: Fields<T> = of_ratio(Ratio::from_str(text));
    let is_same = of_ratio(text.parse()) == read
        && of_reduced(Reduced::from_str(text)) == read
        && of_reduced(text.parse()) == read;
    Some(answer(alloc, read, is_same))
}

/// The same in a base. `Ratio`'s call requires one from 2 to 36, so for another base `Reduced` alone is asked.
pub fn read_in_base<T: Primitive>(alloc: Global, words: &str) -> Option<Answer<T>> {
    let (base, words) = words.split_once(' ')?;
    let (base, text) = (number(base)?, text(words)?);
    let read: Fields<T> = of_reduced(Reduced::from_str_radix(text, base));
    if base < 2 || base > 36 {
        return Some(answer(alloc, read, true));
    }
    let is_same = of_ratio(Ratio::from_str_radix(text, base)) == read;
    Some(answer(alloc, read, is_same))
}

fn answer<T: Integer>(alloc: Global, read: Fields<T>, is_same: bool) -> Answer<T> {
    match read {
        _ if !is_same => Answer::FormsDiffer,
        Ok(fields) => of_fields(fields),
        Err(refusal) => of_text(refused(alloc, refusal)),
    }
}

// The refusal as it is printed, and its kind, if the two do not say the same.
fn refused(alloc: Global, refusal: ParseRatioError) -> Result<String, AllocError> {
    let of_kind = match refusal.kind() {
        RatioErrorKind::ParseError => "failed to parse integer",
        RatioErrorKind::ZeroDenominator => "zero value denominator",
    };
    let printed = format!(in alloc; "{refusal}")?;
    if printed.as_str() == of_kind {
        format!(in alloc; "refused: {refusal}")
    } else {
        format!(in alloc; "refused: {refusal}, but of the kind {of_kind}")
    }
}

fn form(name: &str) -> Option<Form> {
    Some(match name {
        "Decimal" => Form::Decimal,
        "Binary" => Form::Binary,
        "Octal" => Form::Octal,
        "LowerHex" => Form::LowerHex,
        "UpperHex" => Form::UpperHex,
        _ => return None,
    })
}

/// The text in a form, with the prefix of its base or without.
pub fn written<T: Primitive>(alloc: Global, words: &str) -> Option<Answer<T>> {
    let (fields, words) = words.split_once(' ')?;
    let (form_name, alternate) = words.split_once(' ')?;
    let (x, form, alternate) = (
        raw::<T>(fraction(fields)?)?,
        form(form_name)?,
        alternate == "true",
    );
    let text = x.text(form, alternate);
    Some(if is_same_number(x) && is_text_of_lowest(x, form, alternate, text.as_str()) {
        of_text(format!(in alloc; "\"{}\"", text.as_str()))
    } else {
        Answer::FormsDiffer
    })
}

// Whether `from_integer` makes the same fraction, if it is a whole number.
fn is_same_number<T: Primitive>(x: Ratio<T>) -> bool {
    !x.is_integer() || Ratio::from_integer(*x.numer()).into_raw() == x.into_raw()
}

// Whether `Reduced` writes the same, if the fields are lowest terms.
fn is_text_of_lowest<T: Primitive>(x: Ratio<T>, form: Form, alternate: bool, want: &str) -> bool {
    match Reduced::from_ratio(&x) {
        Some(lowest) if lowest.into_raw() == x.into_raw() => {
            lowest.text(form, alternate).as_str() == want
        }
        _ => true,
    }
}
