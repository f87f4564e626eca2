//! The program `ratio`, which `./ratio` runs, over `ratio_expressions`: the value of the expression in its arguments, or the values of the
//! lines of its input, and its status.
//!
//! | Module | What is in it |
//! |---|---|
//! | `request` | What the arguments ask for, or why they are refused. |
//! | `option` | The options by their names, and a number of places. |
//! | `answering` | The reply to one expression, and to the lines of the input. |
//! | `console` | What the system gives the program and takes from it: arguments, the input and its lines, whether a person types it, and the two outputs. |
//! | `fault` | Why the program stops before its end, and its message. |
//! | `help` | The texts of `--help` and `--version`. |
//! | `prompt` | What a person reads at a prompt, and the words that are commands there. |
//! | `setting` | `Setting`: for whom lines are answered. |
//! | `writing` | Bytes for an output, written whole. |
#![tactic(auto)]

mod answering;
mod console;
pub mod fault;
mod help;
mod option;
mod prompt;
mod request;
mod setting;
mod writing;

ghost use Rattle.std.specs.Prelude.{◌≡◌, ◌+◌, Bool, OnOk, length, map, string_bytes};
ghost use Rattle.std.specs.Process.{exit_status};
ghost use Rattle.ratio.specs.Devices.{device_change};
ghost use Rattle.ratio.specs.Failures.{FailsAtWrite, IsFlushed, OneFailsAtWrite, failed_reads};
ghost use Rattle.ratio.specs.Order.{AnswersLinesFirst};
ghost use Rattle.ratio.specs.Runs.{WritesText, Runs, Serves, form_of_lines};
ghost use Rattle.ratio.specs.Settings.{setting_of};
ghost use Rattle.ratio.specs.Status.{status};

use crate::console::{LineRead, arguments, input, is_terminal};
use answering::{answer_expression, answer_lines};
use fault::{Fault, report};
use help::{HELP, VERSION};
use ratio_expressions::replies::Form;
use ratio_lines::counted::{CalcWrite, Counted};
use request::{Request, requested};
use setting::{Setting, setting_of};
use std::alloc::Global;
use std::process::ExitCode;
use writing::write;

fn main(rt: HostRuntime) -> ExitCode {
    let outcome = run_here(&rt);
    if let Err(fault) = &outcome {
        let _ = report(&mut Counted::new(rt.stderr()), fault);
    }
    status_of(&outcome)
}

// Does what the program's arguments ask for, and says whether each line has a value.
fn run_here(rt: &HostRuntime) -> Result<bool, Fault> {
    let words = arguments(rt)?;
    let mut reader = input(rt)?;
    run(
        rt.alloc(),
        &words,
        is_terminal(rt),
        &mut reader,
        &mut Counted::new(rt.stdout()),
        &mut Counted::new(rt.stderr()),
    )
}

// Does what the arguments ask for, and says whether each line has a value.
fn run<R: LineRead<W>, W: CalcWrite, E: CalcWrite>(
    alloc: Global,
    words: &[String],
    on_terminal: bool,
    input: &mut R,
    output: &mut W,
    errors: &mut E,
) -> Result<bool, Fault>
    ensures ran { Runs (map string_bytes words.now) on_terminal (device_change R.remaining input.old input.new)
        (device_change W.contents output.old output.new) (device_change E.contents errors.old errors.new) result }
    ensures failed { OneFailsAtWrite (W.calls output.old) (W.calls output.new) (E.calls errors.old) (E.calls errors.new) result }
    ensures answered_first { (form : Form) × (paired : Bool) × AnswersLinesFirst form (setting_of paired on_terminal) (R.calls input.old).moved (W.calls output.old).moved
        (R.moments input.old) (R.moments input.new) }
    ensures reader_failed { (R.calls input.new).failures ≡ (R.calls input.old).failures + failed_reads result }
    ensures flushed { OnOk result (IsFlushed (W.calls output.old) (W.calls output.new) × IsFlushed (E.calls errors.old) (E.calls errors.new)) }
{
    let request = requested(alloc, words)?;
    serve(alloc, request, on_terminal, input, output, errors)
}

// Does what a request says.
fn serve<R: LineRead<W>, W: CalcWrite, E: CalcWrite>(
    alloc: Global,
    request: Request,
    on_terminal: bool,
    input: &mut R,
    output: &mut W,
    errors: &mut E,
) -> Result<bool, Fault>
    ensures served { Serves request on_terminal (device_change R.remaining input.old input.new)
        (device_change W.contents output.old output.new) (device_change E.contents errors.old errors.new) result }
    ensures failed { OneFailsAtWrite (W.calls output.old) (W.calls output.new) (E.calls errors.old) (E.calls errors.new) result }
    ensures answered_first { (form : Form) × (paired : Bool) × AnswersLinesFirst form (setting_of paired on_terminal) (R.calls input.old).moved (W.calls output.old).moved
        (R.moments input.old) (R.moments input.new) }
    ensures reader_failed { (R.calls input.new).failures ≡ (R.calls input.old).failures + failed_reads result }
    ensures flushed { OnOk result (IsFlushed (W.calls output.old) (W.calls output.new) × IsFlushed (E.calls errors.old) (E.calls errors.new)) }
{
    match request {
        Request::Help => print_text(output, HELP),
        Request::Version => print_text(output, VERSION),
        Request::Expression(text, form) => answer_expression(alloc, &text, form, output, errors),
        Request::Lines(form, paired) => {
            let setting = setting_of(paired, on_terminal);
            let form = form.unwrap_or(form_of_lines(setting));
            answer_lines(alloc, form, setting, input, output)
        }
    }
}

// Prints a text.
fn print_text<W: CalcWrite>(output: &mut W, text: &str) -> Result<bool, Fault>
    ensures written { WritesText text.now (device_change W.contents output.old output.new) result }
    ensures failed { FailsAtWrite (W.calls output.old) (W.calls output.new) result }
    ensures flushed { OnOk result ((W.calls output.new).mark ≡ length (W.calls output.new).moved) }
{
    write(output, text.as_bytes())?;
    Ok(true)
}

// The form of lines without one that was asked for: at a prompt the fraction has its decimal beside it.
fn form_of_lines(setting: Setting) -> Form
    ensures { result ≡ form_of_lines setting }
{
    match setting {
        Setting::Prompt => Form::Both,
        Setting::Pipe | Setting::Paired => Form::Fraction,
    }
}

// The program's status: 0 if each line has a value, 1 if one has none, and 2 if the program stopped before its end.
fn status_of(outcome: &Result<bool, Fault>) -> ExitCode
    ensures { exit_status result ≡ status outcome.now }
{
    match outcome {
        Ok(true) => ExitCode::SUCCESS,
        Ok(false) => ExitCode::FAILURE,
        Err(_) => ExitCode::from(2u8),
    }
}
