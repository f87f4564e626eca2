//! The call for C that prints a total from the bounds of its sum, in one pass.
ghost use Rattle.std.specs.Prelude.{◌≡◌, length};
ghost use Rattle.ratio_c.specs.TotalBounded.{IsBoundedDecimalOfTotal};
ghost use Rattle.ratio_c.specs.TotalReads.{PrintsOne};

use crate::code::{ANSWERED, BAD_OPTION, MORE_ROOM, NOT_HELD};
use crate::each::{BAD_LENGTH, DONE};
use crate::printing::{Text, no_text};
use crate::reading::Span;
use crate::rounded::rule_of;
use ratio_slots::{Slot, put_bounded_of};

/// The sum of the slots as a decimal, which ends where `texts` ends, from the bounds of the sum.
fn bounded_answer(
    slots: &[Slot],
    places: u32,
    rule: u32,
    room: &mut [u64],
    texts: &mut [u8],
) -> Text
    ensures { IsBoundedDecimalOfTotal slots.now places rule (length room.old) (length texts.old) texts.new result }
{
    let end = texts.len();
    let Some(rounding) = rule_of(rule) else {
        return no_text(BAD_OPTION, end);
    };
    match put_bounded_of(slots, places, rounding, room, texts) {
        Ok(Some(start)) => Text {
            code: ANSWERED,
            span: Span { start, end },
        },
        Ok(None) => no_text(NOT_HELD, end),
        Err(_) => no_text(MORE_ROOM, end),
    }
}

/// The sum as a decimal with so many places by a rule, in one pass.
#[unsafe(no_mangle)]
pub extern "C" fn ratio_total_print_bounded_i64(
    slots: &[Slot],
    places: u32,
    rule: u32,
    room: &mut [u64],
    texts: &mut [u8],
    answers: &mut [Text],
) -> u32
    ensures { PrintsOne (λ new answer. IsBoundedDecimalOfTotal slots.now places rule (length room.old) (length texts.old) new answer) room.old room.new texts.old texts.new answers.old answers.new result }
{
    if answers.len() != 1 {
        return BAD_LENGTH;
    }
    answers[0] = bounded_answer(slots, places, rule, room, texts);
    DONE
}
