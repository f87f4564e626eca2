//! The calculator, from the bytes read to the bytes written: `run` and its steps, each for one piece of the input.
ghost use Rattle.std.specs.Prelude.{◌≡◌, ◌+◌, [], length, OnOk};
ghost use Rattle.ratio_lines.specs.KeptLine.{ArePieceAnswers, IsLastAnswer, line_after};
ghost use Rattle.ratio_lines.specs.Devices.{GathersFor, GivesPiece, WritesFor, Flushes, after_moment, change_of};
ghost use Rattle.ratio_lines.specs.Run.{AnswersFirst, ReadsLines, Ran, read_failures, write_failures};

use crate::counted::{CalcRead, CalcWrite};
use crate::fault::CalcFault;
use crate::gathered::{Gathered, answer_piece, put_answer};
use crate::line::Line;

/// Reads a piece, and returns the number of its bytes: 0 at the end.
fn read_piece<R: CalcRead<W>, W: CalcWrite>(
    reader: &mut R,
    writer: &W,
    buffer: &mut [u8; 512],
) -> Result<usize, CalcFault>
    ensures piece { GivesPiece (change_of R.remaining R.calls reader.old reader.new) buffer.new result }
    ensures moment { R.moments reader.new ≡ after_moment (R.moments reader.old) (R.calls reader.old) (W.calls writer.now) }
{
    match reader.read_counted(buffer, writer) {
        Ok(count) => Ok(count),
        Err(_) => Err(CalcFault::Read),
    }
}

/// Answers each whole line, and returns the begun line. The answers to a piece
/// are written before the next piece is read.
fn answer_whole_lines<R: CalcRead<W>, W: CalcWrite>(
    reader: &mut R,
    writer: &mut W,
) -> Result<Line, CalcFault>
    ensures lines { ReadsLines (change_of R.remaining R.calls reader.old reader.new)
        (change_of W.contents W.calls writer.old writer.new) result }
    ensures answered_first { AnswersFirst (R.calls reader.old).moved (W.calls writer.old).moved (R.moments reader.old) (R.moments reader.new) }
{
    let mut line = Line::new();
    let mut gathered = Gathered::new();
    let mut buffer = [0u8; 512];
    for _turn in 0..u64::MAX {
        match read_piece(reader, &*writer, &mut buffer) {
            Ok(0) => return Ok(line),
            Ok(count) => take_piece(&mut line, &mut gathered, writer, &buffer[..count])?,
            Err(fault) => return Err(fault),
        }
    }
    Err(CalcFault::Endless)
}

/// Answers each line that ends in the piece, and writes the answers.
fn take_piece<W: CalcWrite>(
    line: &mut Line,
    gathered: &mut Gathered,
    writer: &mut W,
    piece: &[u8],
) -> Result<(), CalcFault>
    ensures line { OnOk result (line.new ≡ line_after line.old piece.now) }
    ensures answered { GathersFor (ArePieceAnswers line.old piece.now) (change_of W.contents W.calls writer.old writer.new)
        gathered.old gathered.new result }
    ensures none_wait { OnOk result (gathered.new ≡ []) }
{
    answer_piece(line, gathered, writer, piece)?;
    gathered.write_out(writer)
}

/// Answers the begun line, if it has a byte.
fn answer_last<W: CalcWrite>(line: &Line, writer: &mut W) -> Result<(), CalcFault>
    ensures { WritesFor (IsLastAnswer line.now) (change_of W.contents W.calls writer.old writer.new) result }
{
    if line.is_empty() {
        return Ok(());
    }
    let mut last = Gathered::new();
    put_answer(&mut last, writer, &line.answer())?;
    last.write_out(writer)
}

/// Flushes the writer.
fn flush<W: CalcWrite>(writer: &mut W) -> Result<(), CalcFault>
    ensures { Flushes (change_of W.contents W.calls writer.old writer.new) result }
{
    match writer.flush_counted() {
        Ok(()) => Ok(()),
        Err(_) => Err(CalcFault::Write),
    }
}

/// Reads the whole input, answers each of its lines, and then flushes the writer. It takes no
/// memory. It stops at the first call that fails.
pub fn run<R: CalcRead<W>, W: CalcWrite>(reader: &mut R, writer: &mut W) -> Result<(), CalcFault>
    ensures answered { Ran (change_of R.remaining R.calls reader.old reader.new)
        (change_of W.contents W.calls writer.old writer.new) result }

    // Before each read the writer has taken the answers to all lines that have ended.
    ensures answered_first { AnswersFirst (R.calls reader.old).moved (W.calls writer.old).moved (R.moments reader.old) (R.moments reader.new) }

    // Each call that fails ends the run with its fault.
    ensures reader_failed { (R.calls reader.new).failures ≡ (R.calls reader.old).failures + read_failures result }
    ensures writer_failed { (W.calls writer.new).failures ≡ (W.calls writer.old).failures + write_failures result }

    // The reader itself said that it has ended. The writer was flushed once, after its last byte.
    ensures ended { OnOk result ((R.calls reader.new).ends ≡ (R.calls reader.old).ends + 1) }
    ensures flushed { OnOk result ((W.calls writer.new).flushes ≡ (W.calls writer.old).flushes + 1) }
    ensures marked { OnOk result ((W.calls writer.new).mark ≡ length (W.calls writer.new).moved) }
{
    let line = answer_whole_lines(reader, writer)?;
    answer_last(&line, writer)?;
    flush(writer)
}
