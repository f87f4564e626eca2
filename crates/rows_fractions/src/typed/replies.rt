//! Replies to lines, in each form: `Both "7/12"`, `Decimal 4 "17/12"`.
use crate::typed::texts::{bytes_of, quoted};
use ratio_expressions::names::Names;
use ratio_expressions::replies::{Form, Reply, reply_to};
use rows::answer::Answer;
use rows::notation::text;
use std::alloc::{AllocError, Global};

/// The replies to lines, one after another, each on a line.
pub fn answer(alloc: Global, words: &str) -> Result<Answer<i64>, AllocError> {
    let Some((form, words)) = form_of(words) else {
        return Ok(Answer::BadRow);
    };
    let Some(text) = text(words) else {
        return Ok(Answer::BadRow);
    };
    let Some(lines) = bytes_of(alloc, text)? else {
        return Ok(Answer::BadRow);
    };
    let mut names = Names::new(alloc);
    let mut replies = Vec::new(alloc);
    for (at, line) in lines.split(|byte| *byte == b'\n').enumerate() {
        if at > 0 {
            replies.push(b'\n')?;
        }
        match reply_to(alloc, line, form, &mut names)? {
            Reply::Nothing => {}
            Reply::Answer(text) | Reply::Refused(text) => replies.extend_from_slice(&text)?,
        }
    }
    quoted(alloc, &replies)
}

// The form that the first words name, and the words behind.
fn form_of(words: &str) -> Option<(Form, &str)> {
    let (name, rest) = words.split_once(' ')?;
    match name {
        "Fraction" => Some((Form::Fraction, rest)),
        "Mixed" => Some((Form::Mixed, rest)),
        "Both" => Some((Form::Both, rest)),
        "Float" => Some((Form::Float, rest)),
        _ => {
            let (places, rest) = rest.split_once(' ')?;
            Some((form_with(name, places.parse::<u32>().ok()?)?, rest))
        }
    }
}

fn form_with(name: &str, places: u32) -> Option<Form> {
    match name {
        "Decimal" => Some(Form::Decimal(places)),
        "Fields" => Some(Form::Fields(places)),
        _ => None,
    }
}
