//! The call for C that reads a total as a float.
ghost use Rattle.std.specs.Prelude.{◌≡◌, length};
ghost use Rattle.ratio_c.specs.TotalFloats.{IsFloatOfTotal};
ghost use Rattle.ratio_c.specs.TotalReads.{AnswersOne};

use crate::code::ANSWERED;
use crate::each::{BAD_LENGTH, DONE};
use crate::floats::Float;
use crate::total_reads::code_of;
use ratio_slots::{Slot, float_of};

/// The float nearest to the sum of the slots.
fn float_answer(slots: &[Slot], room: &mut [u64]) -> Float
    ensures { IsFloatOfTotal slots.now (length room.old) result.code result.value }
{
    match float_of(slots, room) {
        Ok(value) => Float {
            code: ANSWERED,
            value,
        },
        Err(why) => Float {
            code: code_of(why),
            value: 0.0,
        },
    }
}

/// The float nearest to the sum.
#[unsafe(no_mangle)]
pub extern "C" fn ratio_total_to_f64_i64(
    slots: &[Slot],
    room: &mut [u64],
    answers: &mut [Float],
) -> u32
    ensures { AnswersOne (λ answer. IsFloatOfTotal slots.now (length room.old) answer.code answer.value) room.old room.new answers.old answers.new result }
{
    if answers.len() != 1 {
        return BAD_LENGTH;
    }
    answers[0] = float_answer(slots, room);
    DONE
}
