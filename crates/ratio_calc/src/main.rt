//! The program `ratio_calc`, which `./calc` runs, over `ratio_lines`: the line calculator on standard input and standard output, and its
//! status.
#![tactic(auto)]

ghost use Rattle.std.specs.Prelude.{◌≡◌, MatchResult};
ghost use Rattle.std.specs.Process.{exit_status};

use ratio_lines::calculator::run;
use ratio_lines::counted::Counted;
use ratio_lines::fault::{CalcFault, fault_line};
use std::process::ExitCode;

fn main(rt: HostRuntime) -> ExitCode {
    let mut reader = Counted::new(rt.stdin());
    let mut writer = Counted::new(rt.stdout());
    let outcome = run(&mut reader, &mut writer);
    if let Err(fault) = outcome {
        let _ = rt.eprintln(fault_line(fault));
    }
    status_of(outcome)
}

// The program's status: 0 if all lines were answered, 1 at a fault.
fn status_of(outcome: Result<(), CalcFault>) -> ExitCode
    ensures { MatchResult outcome (λ _. exit_status result ≡ 0) (λ _. exit_status result ≡ 1) }
{
    match outcome {
        Ok(()) => ExitCode::SUCCESS,
        Err(_) => ExitCode::FAILURE,
    }
}
