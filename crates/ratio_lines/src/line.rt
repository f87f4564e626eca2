//! `Line`: the line that is being read, as far as it is kept, and the answer to the line that ends first in a piece of the
//! input.
ghost use Rattle.std.specs.Prelude.{◌≡◌, ℕ, ◌≤◌, List, [], length, Option, Some, None, if◌then◌else◌, is_some};
ghost use Rattle.ratio_lines.specs.AnswerText.{bytes_of};
ghost use Rattle.ratio_lines.specs.KeptLine.{IsKeptAnswer, extended, is_empty};
ghost use Rattle.ratio_lines.specs.Lines.{longest_line};
ghost use Rattle.ratio_lines.specs.PlainLine.{IsNextAnswer};

use crate::answer::{AnswerText, TOO_LONG, answer, answer_two};
use crate::parts::{LONGEST_LINE, cut, plain_line};
use arrayvec::ArrayVec;
use either::Either;
use std::marker::Model;

/// The bytes of a line so far, or that they are more than a line may have.
#[derive(Drop)]
pub struct Line {
    bytes: ArrayVec<u8, LONGEST_LINE>,
    is_too_long: bool,
}

impl Model for Line {
    ghost Value = { Option (List ℕ) };

    ghost view = { λ l. if l.is_too_long then None else Some l.bytes.items };

    ghost invariant = { λ l. length l.bytes.items ≤ longest_line };
}

impl Line {
    /// A line without a byte.
    pub fn new() -> Line
        ensures { result ≡ Some [] }
    {
        Line {
            bytes: ArrayVec::new(),
            is_too_long: false,
        }
    }

    /// Adds more bytes at the end. A line that has become too long stays so.
    pub fn extend(&mut self, more: &[u8])
        ensures { self.new ≡ extended self.old more.now }
    {
        match self.bytes.try_extend_from_slice(more) {
            Ok(()) => {}
            Err(_) => self.is_too_long = true,
        }
    }

    /// Begins a new line.
    pub fn clear(&mut self)
        ensures { self.new ≡ Some [] }
    {
        self.bytes.clear();
        self.is_too_long = false;
    }

    /// Whether no byte has come yet.
    pub fn is_empty(&self) -> bool
        ensures { result ≡ is_empty self.now }
    {
        self.bytes.is_empty() && !self.is_too_long
    }

    /// The answer to this line, without a line end.
    pub fn answer(&self) -> AnswerText
        ensures { IsKeptAnswer self.now (bytes_of result) }
    {
        if self.is_too_long {
            Either::Left(TOO_LONG)
        } else {
            answer(self.bytes.as_slice())
        }
    }
}

/// The answer to the line that the bytes begin with, and the bytes after
/// its line end. `None` if there is no line end.
fn first_answer(bytes: &[u8]) -> Option<(AnswerText, &[u8])>
    ensures { IsNextAnswer (Some []) bytes.now result }
{
    if let Some(line) = plain_line(bytes) {
        return Some((answer_two(line.left, line.operator, line.right), line.after));
    }
    let (line, after) = cut(bytes, b'\n')?;
    Some((answer(line), after))
}

/// The answer to the line that ends first in the bytes, and the bytes after its line end. `None` if
/// there is no line end. A line that also begins in these bytes is answered without a copy.
pub(crate) fn next_answer<'a>(line: &mut Line, bytes: &'a [u8]) -> Option<(AnswerText, &'a [u8])>
    ensures answered { IsNextAnswer line.old bytes.now result }
    ensures line { line.new ≡ (if is_some result then Some [] else line.old) }
{
    if line.is_empty() {
        return first_answer(bytes);
    }
    let (ended, after) = cut(bytes, b'\n')?;
    line.extend(ended);
    let answer = line.answer();
    line.clear();
    Some((answer, after))
}
