//! A value behind its line as that was read: `1/2 / (1/3) = 3/2`.
ghost use Rattle.std.specs.Prelude.{◌≡◌, IfOk, Some};
ghost use Rattle.ratio_expressions.specs.Worths.{worth};
ghost use Rattle.ratio_expressions.specs.Readings.{IsAnswerInForm, IsWithReading, behind_line, between};

use crate::replies::form::Form;
use crate::replies::written::value_text;
use crate::slashes::read_as;
use crate::value::Value;
use std::alloc::{AllocError, Global};

/// The text of a line's value in a form. In `Both` it is behind the line as that was read, if a chain of its slashes is taken whole,
/// as in `1/2 / (1/3) = 3/2 = 1.5`. An error means that an allocation failed.
pub(crate) fn answer_text(
    alloc: Global,
    line: &[u8],
    value: &Value,
    form: Form,
) -> Result<Vec<u8>, AllocError>
    ensures { IfOk result (λ text. IsAnswerInForm line.now (worth value.now) form text.items) }
{
    match form {
        Form::Both => with_reading(alloc, line, value),
        Form::Fraction | Form::Decimal(_) | Form::Mixed | Form::Fields(_) | Form::Float => {
            value_text(alloc, value, form)
        }
    }
}

// The value with its decimal beside it, behind its line if that is shown.
fn with_reading(alloc: Global, line: &[u8], value: &Value) -> Result<Vec<u8>, AllocError>
    ensures { IfOk result (λ text. IsWithReading line.now (worth value.now) text.items) }
{
    let text = value_text(alloc, value, Form::Both)?;
    match read_as(alloc, line)? {
        Some(shown) => behind_line(shown, value, &text),
        None => Ok(text),
    }
}

// The value's text behind the line as it was read.
fn behind_line(mut shown: Vec<u8>, value: &Value, text: &[u8]) -> Result<Vec<u8>, AllocError>
    ensures { IfOk result (λ all. all.items ≡ behind_line (Some shown.items) (worth value.now) text.now) }
{
    shown.extend_from_slice(between(value))?;
    shown.extend_from_slice(text)?;
    Ok(shown)
}

// What is between the line and its value.
fn between(value: &Value) -> &'static [u8]
    ensures { result.now ≡ between (worth value.now) }
{
    match value {
        Value::Number(_) => b" = ",
        Value::Truth(_) => b": ",
    }
}
