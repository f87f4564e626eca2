//! What the tests share: a run over devices in memory, and the one function that asserts what it did.
ghost use Rattle.std.specs.Prelude.{◌<◌, IfOk};
ghost use Rattle.ratio_lines.specs.Answers.{AreAnswersOf};

use crate::programs::devices::{Feed, Sink};
use ratio_lines::calculator::run;
use ratio_lines::counted::Counted;
use ratio_lines::fault::CalcFault;
use std::alloc::Global;
use std::process::Abort;
use std::test::Fail;

/// What is written for an input of which each read gives at most `step` bytes. The contract is
/// the theorem on `run`, for devices in memory.
pub fn answered(alloc: Global, input: &[u8], step: usize) -> Result<Vec<u8>, CalcFault>
    requires { 0 < step }
    ensures { IfOk result (λ bytes. AreAnswersOf input.now bytes.items) }
{
    let mut reader = Counted::new(Feed::new(input, step));
    let mut writer = Counted::new(Sink::new(alloc));
    match run(&mut reader, &mut writer) {
        Ok(()) => Ok(writer.into_inner().bytes),
        Err(fault) => Err(fault),
    }
}

/// These are the answers to the input, whether a read gives 1, 7 or 512 bytes.
pub fn assert_answers(
    rt: &impl Abort,
    alloc: Global,
    input: &[u8],
    answers: &[u8],
) -> Result<(), Fail> {
    for step in [1, 7, 512] {
        assert_eq!(rt; answered(alloc, input, step)?.as_slice(), answers);
    }
    Ok(())
}

/// The same bytes `count` times.
pub fn repeated(alloc: Global, bytes: &[u8], count: usize) -> Result<Vec<u8>, Fail> {
    let mut all = Vec::new(alloc);
    for _ in 0..count {
        all.extend_from_slice(bytes)?;
    }
    Ok(all)
}
