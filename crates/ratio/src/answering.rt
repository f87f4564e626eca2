//! The reply to one expression, and to the lines of the input.
ghost use Rattle.std.specs.Prelude.{◌≡◌, ◌+◌, ◌++◌, ◌∷◌, [], IfOk, OnErr, OnOk, false, length};
ghost use Rattle.ratio_expressions.specs.Bound.{named};
ghost use Rattle.ratio.specs.Answers.{AnswersExpression, AnswersLine, AnswersLines, IsAnswered, IsReplied, TakesMemory, blank_answer, written_refusal};
ghost use Rattle.ratio.specs.Devices.{device_change};
ghost use Rattle.ratio.specs.Failures.{FailsAtWrite, IsFlushed, OneFailsAtWrite, failed_reads};
ghost use Rattle.ratio.specs.Lines.{last_line, last_line_length, without_end};
ghost use Rattle.ratio.specs.Order.{AnswersLinesFirst};
ghost use Rattle.ratio.specs.Settings.{asks_help, ends_lines};
ghost use Rattle.ratio.specs.declared.setting.Setting.TheVariants as settings;

use crate::console::LineRead;
use crate::fault::Fault;
use crate::prompt::{TIPS, asks_help, end, ends_lines, prompt, start};
use crate::setting::{Setting, is_brief};
use crate::writing::write;
use ratio_expressions::names::Names;
use ratio_expressions::replies::{Form, Reply, reply_to};
use ratio_lines::counted::CalcWrite;
use std::alloc::{AllocError, Global};

/// Answers an expression, and says whether it has a value. A refusal goes to the errors.
pub fn answer_expression<W: CalcWrite, E: CalcWrite>(
    alloc: Global,
    text: &[u8],
    form: Form,
    output: &mut W,
    errors: &mut E,
) -> Result<bool, Fault>
    ensures answered { AnswersExpression text.now form (device_change W.contents output.old output.new)
        (device_change E.contents errors.old errors.new) result }
    ensures failed { OneFailsAtWrite (W.calls output.old) (W.calls output.new) (E.calls errors.old) (E.calls errors.new) result }
    ensures flushed { OnOk result (IsFlushed (W.calls output.old) (W.calls output.new) × IsFlushed (E.calls errors.old) (E.calls errors.new)) }
{
    let mut names = Names::new(alloc);
    let (text, accepted) = replied(alloc, Setting::Pipe, text, form, &mut names)?;
    if accepted {
        write(output, &text)?;
    } else {
        write(errors, &text)?;
    }
    Ok(accepted)
}

/// Answers each line of an input before it reads the next one, and says whether each has a value. A refusal is in the place of an answer.
/// At a prompt, `quit` and `exit` end the lines.
pub fn answer_lines<R: LineRead<W>, W: CalcWrite>(
    alloc: Global,
    form: Form,
    setting: Setting,
    input: &mut R,
    output: &mut W,
) -> Result<bool, Fault>
    ensures answered { AnswersLines form setting (device_change R.remaining input.old input.new)
        (device_change W.contents output.old output.new) result }
    ensures failed { FailsAtWrite (W.calls output.old) (W.calls output.new) result }
    ensures answered_first { AnswersLinesFirst form setting (R.calls input.old).moved (W.calls output.old).moved
        (R.moments input.old) (R.moments input.new) }
    ensures reader_failed { (R.calls input.new).failures ≡ (R.calls input.old).failures + failed_reads result }
    ensures flushed { OnOk result ((W.calls output.new).mark ≡ length (W.calls output.new).moved) }
{
    let mut names = Names::new(alloc);
    let mut line = Vec::new(alloc);
    let mut all = true;
    write(output, start(setting))?;
    for _turn in 0..u64::MAX {
        if !input.read_line(&mut line, &*output)? {
            write(output, end(setting))?;
            return Ok(all);
        }
        if ends_lines(setting, without_end(&line)) {
            return Ok(all);
        }
        all &= answer_line(alloc, &line, form, setting, &mut names, output)?;
    }
    Err(Fault::Endless)
}

// Answers a line, and says whether it has no refusal. The prompt for the next line is behind the reply.
fn answer_line<W: CalcWrite>(
    alloc: Global,
    line: &[u8],
    form: Form,
    setting: Setting,
    names: &mut Names,
    output: &mut W,
) -> Result<bool, Fault>
    requires { ends_lines setting (without_end line.now) ≡ false }
    ensures answered { AnswersLine line.now form setting (named names.old) (named names.new)
        (device_change W.contents output.old output.new) (W.calls output.old) (W.calls output.new) result }
    ensures failed { FailsAtWrite (W.calls output.old) (W.calls output.new) result }
    ensures flushed { OnOk result ((W.calls output.new).mark ≡ length (W.calls output.new).moved) }
{
    let (mut text, accepted) = answered(alloc, setting, without_end(line), form, names)?;
    text.extend_from_slice(prompt(setting))?;
    write(output, &text)?;
    Ok(accepted)
}

// What is written for a line: some help, or its reply. And whether it is no refusal.
fn answered(
    alloc: Global,
    setting: Setting,
    line: &[u8],
    form: Form,
    names: &mut Names,
) -> Result<(Vec<u8>, bool), AllocError>
    requires { ends_lines setting line.now ≡ false }
    ensures answer { IfOk result (λ r. IsAnswered setting line.now form (named names.old) (named names.new) r.0.items r.1) }
    ensures memory { OnErr result (TakesMemory setting line.now) }
{
    if asks_help(setting, line) {
        return Ok((Vec::from_slice(alloc, TIPS.as_bytes())?, true));
    }
    replied(alloc, setting, line, form, names)
}

// The reply to a line, with its line end unless it is empty, and whether it is no refusal.
fn replied(
    alloc: Global,
    setting: Setting,
    line: &[u8],
    form: Form,
    names: &mut Names,
) -> Result<(Vec<u8>, bool), AllocError>
    ensures answer { IfOk result (λ r. IsReplied setting line.now form (named names.old) (named names.new) r.0.items r.1) }
    ensures memory { OnErr result (TakesMemory setting line.now) }
{
    match reply_to(alloc, line, form, names)? {
        Reply::Nothing => Ok((blank_answer(alloc, setting)?, true)),
        Reply::Answer(text) => Ok((with_end(text)?, true)),
        Reply::Refused(text) => {
            let text = refusal(alloc, setting, line, text)?;
            Ok((with_end(text)?, false))
        }
    }
}

// What is written for a blank line: a line end in `Paired`, and else nothing.
fn blank_answer(alloc: Global, setting: Setting) -> Result<Vec<u8>, AllocError>
    ensures nothing { IfOk result (λ text. text.items ≡ blank_answer setting) }
    ensures memory { OnErr result (setting ≡ settings.Paired) }
{
    match setting {
        Setting::Paired => Vec::from_slice(alloc, b"\n"),
        Setting::Prompt | Setting::Pipe => Ok(Vec::new(alloc)),
    }
}

// The refusal of a line as it is written: whole, or its last line.
fn refusal(
    alloc: Global,
    setting: Setting,
    line: &[u8],
    text: Vec<u8>,
) -> Result<Vec<u8>, AllocError>
    ensures { IfOk result (λ t. t.items ≡ written_refusal setting line.now text.items) }
{
    if is_brief(setting, line) {
        Vec::from_slice(alloc, last_line(&text))
    } else {
        Ok(text)
    }
}

// The last line of a text.
fn last_line(text: &[u8]) -> &[u8]
    ensures { result.now ≡ last_line text.now }
{
    &text[text.len() - last_line_length(text)..]
}

// How many bytes are behind the last line feed of a text.
fn last_line_length(text: &[u8]) -> usize
    ensures { result ≡ last_line_length text.now }
{
    text.iter().rev().take_while(|byte| **byte != b'\n').count()
}

// The line without its line end: a line feed, or a carriage return and a line feed.
fn without_end(line: &[u8]) -> &[u8]
    ensures { result.now ≡ without_end line.now }
{
    let line = line.strip_suffix(b"\n").unwrap_or(line);
    line.strip_suffix(b"\r").unwrap_or(line)
}

// The text and a line end.
fn with_end(text: Vec<u8>) -> Result<Vec<u8>, AllocError>
    ensures { IfOk result (λ line. line.items ≡ text.items ++ 10 ∷ []) }
{
    let mut text = text;
    text.push(b'\n')?;
    Ok(text)
}
