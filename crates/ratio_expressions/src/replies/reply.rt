//! `Reply`: what a line is answered.
ghost use Rattle.std.specs.Prelude.{◌≡◌, false, IfOk, IsErr};
ghost use Rattle.ratio_expressions.specs.Bound.{named};
ghost use Rattle.ratio_expressions.specs.Lines.{AreOldOrNew};
ghost use Rattle.ratio_expressions.specs.Replies.{IsReadReply, IsReply, IsTooLongReply, is_blank};

use crate::lexer::is_blank_byte;
use crate::line::value_of_line;
use crate::names::Names;
use crate::refusal::ValueError;
use crate::replies::form::Form;
use crate::replies::reading::answer_text;
use crate::replies::refused::refusal_lines;
use std::alloc::{AllocError, Global};

// How many bytes a line may have.
const MOST_BYTES: usize = 1_000_000;

/// What a line is answered. No text ends with a line end.
#[derive(Drop)]
pub enum Reply {
    /// Nothing: the line has only spaces and tabs, or not even these.
    Nothing,
    /// The line's value in the form that was asked for. In `Both` it may show how the line was read.
    Answer(Vec<u8>),
    /// Why the line has no value, in three lines: the line, a caret below the place, and the reason. A line of more than a million bytes is
    /// not read, and the reason is all of the text.
    Refused(Vec<u8>),
}

/// The reply to a line without its line end, with its number in a form. `x = 17/12` in `Mixed` is answered `1 5/12`, and gives the value the
/// name `x`, as `line::value_of_line` does. An error means that an allocation failed. Then each name has the value that it had, or the
/// new one.
pub fn reply_to(
    alloc: Global,
    line: &[u8],
    form: Form,
    names: &mut Names,
) -> Result<Reply, AllocError>
    ensures reply { IfOk result (IsReply line.now form (named names.old) (named names.new)) }
    // Where memory runs out, a name has the value that it had, or the new one.
    ensures either { IsErr result → AreOldOrNew line.now (named names.old) (named names.new) }
    // A blank line takes no memory.
    ensures memory { IsErr result → is_blank line.now ≡ false }
{
    if is_blank(line) {
        return Ok(Reply::Nothing);
    }
    if line.len() > MOST_BYTES {
        return too_long(alloc);
    }
    read_reply(alloc, line, form, names)
}

// What a line is answered that is read.
fn read_reply(
    alloc: Global,
    line: &[u8],
    form: Form,
    names: &mut Names,
) -> Result<Reply, AllocError>
    ensures reply { IfOk result (IsReadReply line.now form (named names.old) (named names.new)) }
    ensures either { IsErr result → AreOldOrNew line.now (named names.old) (named names.new) }
{
    match value_of_line(alloc, line, names) {
        Ok(value) => {
            let text = answer_text(alloc, line, &value, form)?;
            Ok(Reply::Answer(text))
        }
        Err(ValueError::Refused(refusal)) => {
            let text = refusal_lines(alloc, line, refusal)?;
            Ok(Reply::Refused(text))
        }
        Err(ValueError::Memory) => Err(AllocError),
    }
}

// What a line is answered that is too long to be read.
fn too_long(alloc: Global) -> Result<Reply, AllocError>
    ensures { IfOk result IsTooLongReply }
{
    let text = Vec::from_slice(alloc, b"error: the line has more than a million bytes")?;
    Ok(Reply::Refused(text))
}

// Whether the line has only spaces and tabs, or nothing.
fn is_blank(line: &[u8]) -> bool
    ensures { result ≡ is_blank line.now }
{
    line.iter().all(|byte| is_blank_byte(*byte))
}
