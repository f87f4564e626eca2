//! `Gathered`: bytes that wait to be written, and the answers to a piece of the input put there, so that one call writes
//! many of them.
ghost use Rattle.std.specs.Prelude.{◌≡◌, ◌++◌, ◌∷◌, ℕ, List, [], OnOk};
ghost use Rattle.ratio_lines.specs.AnswerText.{bytes_of};
ghost use Rattle.ratio_lines.specs.Devices.{Gathers, GathersFor, Waits, WaitsFor, Writes, change_of};
ghost use Rattle.ratio_lines.specs.KeptLine.{ArePieceAnswers, line_after};

use crate::answer::AnswerText;
use crate::counted::CalcWrite;
use crate::fault::CalcFault;
use crate::line::{Line, next_answer};
use arrayvec::ArrayVec;
use either::Either;
use std::marker::Model;

/// Bytes that wait to be written, in a fixed array.
#[derive(Drop)]
pub struct Gathered {
    bytes: ArrayVec<u8, 1024>,
}

impl Model for Gathered {
    ghost Value = { List ℕ };

    ghost view = { λ g. g.bytes.items };
}

impl Gathered {
    /// No bytes.
    pub fn new() -> Gathered
        ensures { result ≡ [] }
    {
        Gathered {
            bytes: ArrayVec::new(),
        }
    }

    /// Adds bytes at the end. If there is room for them, nothing is written. Otherwise those that wait
    /// are written first. Bytes that are longer than all the room are then written at once.
    pub fn put<W: CalcWrite>(&mut self, writer: &mut W, bytes: &[u8]) -> Result<(), CalcFault>
        ensures gathered { Gathers (change_of W.contents W.calls writer.old writer.new) self.old self.new bytes.now result }
        ensures waits { Waits (change_of W.contents W.calls writer.old writer.new) self.old self.new bytes.now result }
    {
        match self.bytes.try_extend_from_slice(bytes) {
            Ok(()) => Ok(()),
            Err(_) => self.put_after(writer, bytes),
        }
    }

    // Writes those that wait. Then adds the bytes, or writes them too.
    fn put_after<W: CalcWrite>(&mut self, writer: &mut W, bytes: &[u8]) -> Result<(), CalcFault>
        ensures { Gathers (change_of W.contents W.calls writer.old writer.new) self.old self.new bytes.now result }
    {
        self.write_out(writer)?;
        if let Ok(()) = self.bytes.try_extend_from_slice(bytes) {
            return Ok(());
        }
        write_bytes(writer, bytes)
    }

    /// Writes the bytes that wait.
    pub fn write_out<W: CalcWrite>(&mut self, writer: &mut W) -> Result<(), CalcFault>
        ensures written { Writes (change_of W.contents W.calls writer.old writer.new) self.old result }
        ensures none_wait { OnOk result (self.new ≡ []) }
    {
        write_bytes(writer, self.bytes.as_slice())?;
        self.bytes.clear();
        Ok(())
    }
}

/// Writes all the bytes.
fn write_bytes<W: CalcWrite>(writer: &mut W, bytes: &[u8]) -> Result<(), CalcFault>
    ensures { Writes (change_of W.contents W.calls writer.old writer.new) bytes.now result }
{
    let mut at = 0;
    while at < bytes.len() {
        match writer.write_counted(&bytes[at..]) {
            Ok(0) => return Err(CalcFault::Write),
            Ok(n) => at += n,
            Err(_) => return Err(CalcFault::Write),
        }
    }
    Ok(())
}

/// Gathers an answer without its line end.
fn put_text<W: CalcWrite>(
    gathered: &mut Gathered,
    writer: &mut W,
    answer: &AnswerText,
) -> Result<(), CalcFault>
    ensures gathered { Gathers (change_of W.contents W.calls writer.old writer.new)
        gathered.old gathered.new (bytes_of answer.now) result }
    ensures waits { Waits (change_of W.contents W.calls writer.old writer.new)
        gathered.old gathered.new (bytes_of answer.now) result }
{
    match answer {
        Either::Left(text) => gathered.put(writer, text.as_bytes()),
        Either::Right(number) => {
            let text = number.base_ten_text();
            gathered.put(writer, text.as_str().as_bytes())
        }
    }
}

/// Gathers an answer and its line end.
pub fn put_answer<W: CalcWrite>(
    gathered: &mut Gathered,
    writer: &mut W,
    answer: &AnswerText,
) -> Result<(), CalcFault>
    ensures gathered { Gathers (change_of W.contents W.calls writer.old writer.new)
        gathered.old gathered.new (bytes_of answer.now ++ 10 ∷ []) result }
    ensures waits { Waits (change_of W.contents W.calls writer.old writer.new)
        gathered.old gathered.new (bytes_of answer.now ++ 10 ∷ []) result }
{
    put_text(gathered, writer, answer)?;
    gathered.put(writer, b"\n")
}

/// Answers each line that ends in the piece, and keeps the bytes after the last line end.
pub fn answer_piece<W: CalcWrite>(
    line: &mut Line,
    gathered: &mut Gathered,
    writer: &mut W,
    piece: &[u8],
) -> Result<(), CalcFault>
    ensures line { OnOk result (line.new ≡ line_after line.old piece.now) }
    ensures answered { GathersFor (ArePieceAnswers line.old piece.now) (change_of W.contents W.calls writer.old writer.new)
        gathered.old gathered.new result }
    ensures waits { WaitsFor (ArePieceAnswers line.old piece.now) (change_of W.contents W.calls writer.old writer.new)
        gathered.old gathered.new result }
{
    let mut rest = piece;
    while let Some((answer, after)) = next_answer(line, rest) {
        put_answer(gathered, writer, &answer)?;
        rest = after;
    }
    line.extend(rest);
    Ok(())
}
