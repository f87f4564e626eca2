//! The calls for C that read a total, and the room that these need: its empty slots, its sum, its mean, its sign, its decimal, and the
//! multiple of `1/parts` near it.
ghost use Rattle.std.specs.Prelude.{◌≡◌, length};
ghost use Rattle.ratio_slots.specs.Common.{read_digits};
ghost use Rattle.ratio_slots.specs.DecimalRoom.{decimal_bytes, decimal_digits};
ghost use Rattle.ratio_slots.specs.Merging.{free_of};
ghost use Rattle.ratio_slots.specs.Multiples.{multiple_digits};
ghost use Rattle.ratio_c.specs.Numbers64.{said64};
ghost use Rattle.ratio_c.specs.TotalMultiples.{IsMultipleOfTotal};
ghost use Rattle.ratio_c.specs.TotalReads.{AnswersOne, IsDecimalOfTotal, IsMeanOfTotal, IsSignOfTotal, IsSumOfTotal, Narrows, PrintsOne, code_of_read};

use crate::code::{ANSWERED, BAD_OPTION, DIVISION_BY_ZERO, MORE_ROOM, TOO_LONG};
use crate::compare::{Order, number_of};
use crate::crossing::{checked, refused};
use crate::each::{BAD_LENGTH, DONE};
use crate::numbers64::Answer64;
use crate::one_fraction::cast;
use crate::printing::{Text, no_text};
use crate::reading::Span;
use crate::rounded::rule_of;
use ratio_slots::{
    ReadRefusal, Slot, count_free, decimal_bytes_of, decimal_digits_of, digits_of_multiple,
    digits_of_read, mean_of, multiple_of, put_decimal_of, sign_of, sum_of,
};

/// The code of a read that was refused.
pub(crate) fn code_of(why: ReadRefusal) -> u32
    ensures { result ≡ code_of_read why }
{
    match why {
        ReadRefusal::MoreRoom => MORE_ROOM,
        ReadRefusal::TooLong => TOO_LONG,
    }
}

/// The two numbers in 64 bits, or `None` if one does not fit.
pub(crate) fn narrowed(terms: Option<(i128, u64)>) -> Option<(i64, i64)>
    ensures { Narrows terms result }
{
    match terms {
        Some((numer, denom)) => cast::<i128, i64>(numer, denom as i128),
        None => None,
    }
}

/// The sum of the slots.
fn sum_answer(slots: &[Slot], room: &mut [u64]) -> Answer64
    ensures { IsSumOfTotal slots.now (length room.old) (said64 result) }
{
    match sum_of(slots, room) {
        Ok(sum) => checked(narrowed(sum)),
        Err(why) => refused(code_of(why)),
    }
}

/// The mean of so many fractions in the slots.
fn mean_answer(slots: &[Slot], count: i64, room: &mut [u64]) -> Answer64
    ensures { IsMeanOfTotal slots.now count (length room.old) (said64 result) }
{
    if count <= 0 {
        return refused(DIVISION_BY_ZERO);
    }
    match mean_of(slots, count, room) {
        Ok(mean) => checked(narrowed(mean)),
        Err(why) => refused(code_of(why)),
    }
}

/// The order of the sum of the slots and 0.
fn sign_answer(slots: &[Slot], room: &mut [u64]) -> Order
    ensures { IsSignOfTotal slots.now (length room.old) result }
{
    match sign_of(slots, room) {
        Ok(order) => Order {
            code: ANSWERED,
            order: number_of(order),
        },
        Err(why) => Order {
            code: code_of(why),
            order: 0,
        },
    }
}

/// The sum of the slots as a decimal, which ends where `texts` ends.
fn print_answer(slots: &[Slot], places: u32, rule: u32, room: &mut [u64], texts: &mut [u8]) -> Text
    ensures { IsDecimalOfTotal slots.now places rule (length room.old) (length texts.old) texts.new result }
{
    let end = texts.len();
    let Some(rounding) = rule_of(rule) else {
        return no_text(BAD_OPTION, end);
    };
    match put_decimal_of(slots, places, rounding, room, texts) {
        Ok(start) => Text {
            code: ANSWERED,
            span: Span { start, end },
        },
        Err(why) => no_text(code_of(why), end),
    }
}

/// How many slots are empty.
#[unsafe(no_mangle)]
pub extern "C" fn ratio_total_free_i64(slots: &[Slot]) -> u64
    ensures { result ≡ free_of slots.now }
{
    count_free(slots) as u64
}

/// How many digits of room the sum, the mean, the sign and the float need.
#[unsafe(no_mangle)]
pub extern "C" fn ratio_total_digits_i64(slots: &[Slot]) -> u64
    ensures { result ≡ read_digits slots.now }
{
    digits_of_read(slots) as u64
}

/// How many digits of room the decimal with so many places needs.
#[unsafe(no_mangle)]
pub extern "C" fn ratio_total_print_digits_i64(slots: &[Slot], places: u32) -> u64
    ensures { result ≡ decimal_digits slots.now places }
{
    decimal_digits_of(slots, places) as u64
}

/// How many bytes the decimal with so many places needs.
#[unsafe(no_mangle)]
pub extern "C" fn ratio_total_print_bytes_i64(slots: &[Slot], places: u32) -> u64
    ensures { result ≡ decimal_bytes slots.now places }
{
    decimal_bytes_of(slots, places) as u64
}

/// The sum.
#[unsafe(no_mangle)]
pub extern "C" fn ratio_total_sum_i64(
    slots: &[Slot],
    room: &mut [u64],
    answers: &mut [Answer64],
) -> u32
    ensures { AnswersOne (λ answer. IsSumOfTotal slots.now (length room.old) (said64 answer)) room.old room.new answers.old answers.new result }
{
    if answers.len() != 1 {
        return BAD_LENGTH;
    }
    answers[0] = sum_answer(slots, room);
    DONE
}

/// The mean of so many fractions.
#[unsafe(no_mangle)]
pub extern "C" fn ratio_total_mean_i64(
    slots: &[Slot],
    count: i64,
    room: &mut [u64],
    answers: &mut [Answer64],
) -> u32
    ensures { AnswersOne (λ answer. IsMeanOfTotal slots.now count (length room.old) (said64 answer)) room.old room.new answers.old answers.new result }
{
    if answers.len() != 1 {
        return BAD_LENGTH;
    }
    answers[0] = mean_answer(slots, count, room);
    DONE
}

/// The order of the sum and 0.
#[unsafe(no_mangle)]
pub extern "C" fn ratio_total_sign_i64(
    slots: &[Slot],
    room: &mut [u64],
    answers: &mut [Order],
) -> u32
    ensures { AnswersOne (IsSignOfTotal slots.now (length room.old)) room.old room.new answers.old answers.new result }
{
    if answers.len() != 1 {
        return BAD_LENGTH;
    }
    answers[0] = sign_answer(slots, room);
    DONE
}

/// The sum as a decimal with so many places by a rule.
#[unsafe(no_mangle)]
pub extern "C" fn ratio_total_print_i64(
    slots: &[Slot],
    places: u32,
    rule: u32,
    room: &mut [u64],
    texts: &mut [u8],
    answers: &mut [Text],
) -> u32
    ensures { PrintsOne (λ new answer. IsDecimalOfTotal slots.now places rule (length room.old) (length texts.old) new answer) room.old room.new texts.old texts.new answers.old answers.new result }
{
    if answers.len() != 1 {
        return BAD_LENGTH;
    }
    answers[0] = print_answer(slots, places, rule, room, texts);
    DONE
}

/// The multiple of `1/parts` that the rule says of the sum of the slots.
fn multiple_answer(slots: &[Slot], parts: i64, rule: u32, room: &mut [u64]) -> Answer64
    ensures { IsMultipleOfTotal slots.now parts rule (length room.old) (said64 result) }
{
    if parts <= 0 {
        return refused(BAD_OPTION);
    }
    let Some(rounding) = rule_of(rule) else {
        return refused(BAD_OPTION);
    };
    match multiple_of(slots, parts as u64, rounding, room) {
        Ok(multiple) => checked(narrowed(multiple)),
        Err(why) => refused(code_of(why)),
    }
}

/// How many digits of room a multiple needs.
#[unsafe(no_mangle)]
pub extern "C" fn ratio_total_round_to_digits_i64(slots: &[Slot]) -> u64
    ensures { result ≡ multiple_digits slots.now }
{
    digits_of_multiple(slots) as u64
}

/// The multiple of `1/parts` that a rule says of the sum.
#[unsafe(no_mangle)]
pub extern "C" fn ratio_total_round_to_i64(
    slots: &[Slot],
    parts: i64,
    rule: u32,
    room: &mut [u64],
    answers: &mut [Answer64],
) -> u32
    ensures { AnswersOne (λ answer. IsMultipleOfTotal slots.now parts rule (length room.old) (said64 answer)) room.old room.new answers.old answers.new result }
{
    if answers.len() != 1 {
        return BAD_LENGTH;
    }
    answers[0] = multiple_answer(slots, parts, rule, room);
    DONE
}
