//! The trees of texts. A step is shown as its piece of the text, but parentheses as `g`, a minus before an operand as `~`, a plus as `+~`, and
//! a call as its name and the number of its arguments: `abs:1`.
use ratio_expressions::expression::{column, tree_of};
use ratio_expressions::refusal::{Reason, ValueError};
use ratio_expressions::step::Step;
use ratio_expressions::token::{Sign, Span};
use rows::answer::Answer;
use std::alloc::{AllocError, Global};
use std::str;

/// The steps of the text's tree in postfix order, with spaces between, or the column where it is refused.
pub fn steps(alloc: Global, text: &[u8]) -> Result<Answer<i64>, AllocError> {
    match tree_of(alloc, text) {
        Ok(steps) => {
            let mut shown = String::new(alloc);
            for step in steps.iter() {
                put_step(&mut shown, text, *step)?;
            }
            let shown = shown.strip_prefix(' ').unwrap_or("");
            Ok(Answer::Text(String::from_str(alloc, shown)?))
        }
        Err(ValueError::Refused(refusal)) => {
            if refusal.reason == Reason::NoExpression && refusal.place <= text.len() {
                let column = column(text, refusal.place);
                Ok(Answer::Text(format!(in alloc; "refused at column {column}")?))
            } else {
                Ok(Answer::BadRow)
            }
        }
        Err(ValueError::Memory) => Err(AllocError),
    }
}

fn put_step(shown: &mut String, text: &[u8], step: Step) -> Result<(), AllocError> {
    match step {
        Step::Number(span) | Step::Name(span) | Step::Apply(_, span) | Step::Comma(span) => {
            let piece = piece(text, span);
            write!(shown, " {piece}")
        }
        Step::Sign(Sign::Minus, _) => shown.push_str(" ~"),
        Step::Sign(Sign::Plus, _) => shown.push_str(" +~"),
        Step::Group(_, _) => shown.push_str(" g"),
        Step::Call(call) => {
            let (name, count) = (piece(text, call.name), call.arguments);
            write!(shown, " {name}:{count}")
        }
    }
}

fn piece(text: &[u8], span: Span) -> &str {
    let bytes = text.get(span.start..span.end).unwrap_or(b"");
    str::from_utf8(bytes).unwrap_or("not UTF-8")
}

/// The operators of the text's tree, from left to right.
pub fn operators(alloc: Global, text: &[u8]) -> Result<Answer<i64>, AllocError> {
    let Ok(steps) = tree_of(alloc, text) else {
        return Ok(Answer::BadRow);
    };
    let mut shown = String::new(alloc);
    for step in steps.iter() {
        if let Step::Apply(operator, _) = step {
            write!(shown, " {operator:?}")?;
        }
    }
    let shown = shown.strip_prefix(' ').unwrap_or("");
    Ok(Answer::Text(String::from_str(alloc, shown)?))
}
