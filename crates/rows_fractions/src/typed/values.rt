//! What texts are worth, and how their slashes are read.
use crate::typed::texts::quoted;
use ratio_expressions::expression::column;
use ratio_expressions::line::value_of_line;
use ratio_expressions::names::Names;
use ratio_expressions::refusal::ValueError;
use ratio_expressions::slashes::read_as;
use ratio_expressions::text_value::value_of;
use ratio_expressions::value::Value;
use rows::answer::Answer;
use std::alloc::{AllocError, Global};

/// The value of the text, or why it has none.
pub fn value(alloc: Global, text: &[u8]) -> Result<Answer<i64>, AllocError> {
    let value = value_of(alloc, text, &Names::new(alloc));
    Ok(Answer::Text(worth(alloc, text, value)?))
}

/// The values of lines, one after another, with spaces between.
pub fn answers(alloc: Global, lines: &[u8]) -> Result<Answer<i64>, AllocError> {
    let mut names = Names::new(alloc);
    let mut answers = String::new(alloc);
    for line in lines.split(|byte| *byte == b'\n') {
        let value = value_of_line(alloc, line, &mut names);
        let worth = worth(alloc, line, value)?;
        write!(answers, " {worth}")?;
    }
    let answers = answers.strip_prefix(' ').unwrap_or("");
    Ok(Answer::Text(String::from_str(alloc, answers)?))
}

fn worth(
    alloc: Global,
    text: &[u8],
    value: Result<Value, ValueError>,
) -> Result<String, AllocError> {
    match value {
        Ok(Value::Number(x)) => x.to_text(alloc),
        Ok(Value::Truth(truth)) => format!(in alloc; "{truth}"),
        Err(ValueError::Refused(refusal)) => {
            if refusal.place <= text.len() {
                let (reason, column) = (refusal.reason.text(), column(text, refusal.place));
                format!(in alloc; "refused: {reason}, at column {column}")
            } else {
                String::from_str(alloc, "refused behind the text")
            }
        }
        Err(ValueError::Memory) => Err(AllocError),
    }
}

/// The text with parentheses around the numbers with a slash that is no division.
pub fn reading(alloc: Global, text: &[u8]) -> Result<Answer<i64>, AllocError> {
    match read_as(alloc, text)? {
        Some(bytes) => quoted(alloc, &bytes),
        None => Ok(Answer::Nothing),
    }
}
