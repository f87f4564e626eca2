//! The text of a refusal: the line, a caret and the reason.
ghost use Rattle.std.specs.Prelude.{◌≡◌, ◌≤◌, length, map, IfOk};
ghost use Rattle.ratio_expressions.specs.Refused.{reason_lines, refusal_lines, shown, why_refused};

use crate::expression::column;
use crate::refusal::{Reason, Refusal};
use crate::replies::hint::put_advice;
use crate::replies::slip::hint_for;
use std::alloc::{AllocError, Global};

/// Three lines without the last line end: the line, a caret below the place, and the reason with the column. Where a hint is known, it is at the
/// end: `; type 2*(3+4) for 2(3+4)`. A tab of the line is shown as a space, and another control byte as `?`. An error means that an
/// allocation failed.
pub(crate) fn refusal_lines(
    alloc: Global,
    line: &[u8],
    refusal: Refusal,
) -> Result<Vec<u8>, AllocError>
    requires { refusal.place ≤ length line.now }
    ensures { IfOk result (λ text. text.items ≡ refusal_lines line.now refusal) }
{
    let mut text = reason_lines(alloc, line, refusal)?;
    put_advice(&mut text, hint_for(line, refusal))?;
    Ok(text)
}

// The three lines without a hint.
fn reason_lines(alloc: Global, line: &[u8], refusal: Refusal) -> Result<Vec<u8>, AllocError>
    requires { refusal.place ≤ length line.now }
    ensures { IfOk result (λ text. text.items ≡ reason_lines line.now refusal) }
{
    let place = column(line, refusal.place);
    let mut indent = Vec::new(alloc);
    indent.resize(place - 1, b' ')?;
    let mut number = itoa::Buffer::new();
    let mut text = shown_line(alloc, line)?;
    text.push(b'\n')?;
    text.extend_from_slice(&indent)?;
    text.push(b'^')?;
    text.push(b'\n')?;
    text.extend_from_slice(b"error: ")?;
    text.extend_from_slice(why_refused(line, refusal).as_bytes())?;
    text.extend_from_slice(b", at column ")?;
    text.extend_from_slice(number.format(place).as_bytes())?;
    Ok(text)
}

// The reason in words. Where the line ends and its expression has to go on, it ends too soon.
fn why_refused(line: &[u8], refusal: Refusal) -> &'static str
    ensures { result.now ≡ why_refused line.now refusal }
{
    match refusal.reason {
        Reason::NoExpression if refusal.place == line.len() => "the expression ends too soon",
        reason => reason.text(),
    }
}

// The line as it is shown.
fn shown_line(alloc: Global, line: &[u8]) -> Result<Vec<u8>, AllocError>
    ensures { IfOk result (λ text. text.items ≡ map shown line.now) }
{
    let mut text = Vec::new(alloc);
    'bytes: for byte in line {
        text.push(shown(*byte))?;
    }
    Ok(text)
}

// A byte as it is shown: a space in place of a tab, and a question mark in place of another control byte.
fn shown(byte: u8) -> u8
    ensures { result ≡ shown byte }
{
    match byte {
        b'\t' => b' ',
        0..=31 | 127 => b'?',
        _ => byte,
    }
}
