//! Calls of `ratio_expressions`: texts that a person types. In a row, `\n`, `\t` and `\0` stand for one byte each.
mod replies;
mod texts;
mod trees;
mod values;

use rows::answer::{Answer, write_or_no_memory};
use rows::notation::text;
use std::alloc::{AllocError, Global};
use std::fmt;
use texts::bytes_of;

/// Makes a call of `ratio_expressions`, and writes its answer.
pub fn write_answer<W: fmt::Write>(
    alloc: Global,
    call: &str,
    words: &str,
    f: &mut fmt::Formatter<W>,
) -> fmt::Result {
    write_or_no_memory(answer(alloc, call, words), f)
}

fn answer(alloc: Global, call: &str, words: &str) -> Result<Answer<i64>, AllocError> {
    if call == "reply_to" {
        return replies::answer(alloc, words);
    }
    let Some(text) = text(words) else {
        return Ok(Answer::BadRow);
    };
    let Some(bytes) = bytes_of(alloc, text)? else {
        return Ok(Answer::BadRow);
    };
    match call {
        "tree_of" => trees::steps(alloc, &bytes),
        "operators" => trees::operators(alloc, &bytes),
        "value_of" => values::value(alloc, &bytes),
        "answer" => values::answers(alloc, &bytes),
        "read_as" => values::reading(alloc, &bytes),
        _ => Ok(Answer::BadRow),
    }
}
