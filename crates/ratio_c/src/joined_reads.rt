//! The calls for C that read a total from the room where all its slots are joined: its sum, its mean, its sign, its float and its decimal.
ghost use Rattle.std.specs.Prelude.{◌≡◌, length};
ghost use Rattle.ratio_c.specs.JoinedReads.{IsDecimalOfJoined, IsFloatOfJoined, IsMeanOfJoined, IsSignOfJoined, IsSumOfJoined};
ghost use Rattle.ratio_c.specs.Numbers64.{said64};
ghost use Rattle.ratio_c.specs.TotalReads.{AnswersOne, PrintsOne};

use crate::code::{ANSWERED, BAD_OPTION, DIVISION_BY_ZERO, NO_TOTAL};
use crate::compare::{Order, number_of};
use crate::crossing::{checked, refused};
use crate::each::{BAD_LENGTH, DONE};
use crate::floats::Float;
use crate::numbers64::Answer64;
use crate::printing::{Text, no_text};
use crate::reading::Span;
use crate::rounded::rule_of;
use crate::total_reads::narrowed;
use ratio_slots::{Joined, NoSum};

/// A read in a room with so many digits for the common denominator. How many slots are joined does not matter to it.
fn read_in(digits: u64) -> Joined
    ensures { result.digits ≡ digits }
{
    Joined {
        done: 0,
        digits: digits as usize,
    }
}

/// The fraction in the room.
fn sum_answer(digits: u64, room: &mut [u64]) -> Answer64
    ensures { IsSumOfJoined digits room.old (said64 result) }
{
    match read_in(digits).sum(room) {
        Ok(sum) => checked(narrowed(sum)),
        Err(NoSum) => refused(NO_TOTAL),
    }
}

/// The fraction in the room divided by the count.
fn mean_answer(digits: u64, count: i64, room: &mut [u64]) -> Answer64
    ensures { IsMeanOfJoined digits count room.old (said64 result) }
{
    if count <= 0 {
        return refused(DIVISION_BY_ZERO);
    }
    match read_in(digits).mean(count, room) {
        Ok(mean) => checked(narrowed(mean)),
        Err(NoSum) => refused(NO_TOTAL),
    }
}

/// The order of the fraction in the room and 0.
fn sign_answer(digits: u64, room: &mut [u64]) -> Order
    ensures { IsSignOfJoined digits room.old result }
{
    match read_in(digits).sign(room) {
        Ok(order) => Order {
            code: ANSWERED,
            order: number_of(order),
        },
        Err(NoSum) => Order {
            code: NO_TOTAL,
            order: 0,
        },
    }
}

/// The float nearest to the fraction in the room.
fn float_answer(digits: u64, room: &mut [u64]) -> Float
    ensures { IsFloatOfJoined digits room.old result.code result.value }
{
    match read_in(digits).to_f64(room) {
        Ok(value) => Float {
            code: ANSWERED,
            value,
        },
        Err(NoSum) => Float {
            code: NO_TOTAL,
            value: 0.0,
        },
    }
}

/// The fraction in the room as a decimal, which ends where `texts` ends.
fn print_answer(digits: u64, places: u32, rule: u32, room: &mut [u64], texts: &mut [u8]) -> Text
    ensures { IsDecimalOfJoined digits places rule room.old (length texts.old) texts.new result }
{
    let end = texts.len();
    let Some(rounding) = rule_of(rule) else {
        return no_text(BAD_OPTION, end);
    };
    match read_in(digits).put_decimal(places, rounding, room, texts) {
        Ok(start) => Text {
            code: ANSWERED,
            span: Span { start, end },
        },
        Err(NoSum) => no_text(NO_TOTAL, end),
    }
}

/// The sum.
#[unsafe(no_mangle)]
pub extern "C" fn ratio_joined_sum_i64(
    digits: u64,
    room: &mut [u64],
    answers: &mut [Answer64],
) -> u32
    ensures { AnswersOne (λ answer. IsSumOfJoined digits room.old (said64 answer)) room.old room.new answers.old answers.new result }
{
    if answers.len() != 1 {
        return BAD_LENGTH;
    }
    answers[0] = sum_answer(digits, room);
    DONE
}

/// The mean of so many fractions.
#[unsafe(no_mangle)]
pub extern "C" fn ratio_joined_mean_i64(
    digits: u64,
    count: i64,
    room: &mut [u64],
    answers: &mut [Answer64],
) -> u32
    ensures { AnswersOne (λ answer. IsMeanOfJoined digits count room.old (said64 answer)) room.old room.new answers.old answers.new result }
{
    if answers.len() != 1 {
        return BAD_LENGTH;
    }
    answers[0] = mean_answer(digits, count, room);
    DONE
}

/// The order of the sum and 0.
#[unsafe(no_mangle)]
pub extern "C" fn ratio_joined_sign_i64(digits: u64, room: &mut [u64], answers: &mut [Order]) -> u32
    ensures { AnswersOne (IsSignOfJoined digits room.old) room.old room.new answers.old answers.new result }
{
    if answers.len() != 1 {
        return BAD_LENGTH;
    }
    answers[0] = sign_answer(digits, room);
    DONE
}

/// The float nearest to the sum.
#[unsafe(no_mangle)]
pub extern "C" fn ratio_joined_to_f64_i64(
    digits: u64,
    room: &mut [u64],
    answers: &mut [Float],
) -> u32
    ensures { AnswersOne (λ answer. IsFloatOfJoined digits room.old answer.code answer.value) room.old room.new answers.old answers.new result }
{
    if answers.len() != 1 {
        return BAD_LENGTH;
    }
    answers[0] = float_answer(digits, room);
    DONE
}

/// The sum as a decimal with so many places by a rule.
#[unsafe(no_mangle)]
pub extern "C" fn ratio_joined_print_i64(
    digits: u64,
    places: u32,
    rule: u32,
    room: &mut [u64],
    texts: &mut [u8],
    answers: &mut [Text],
) -> u32
    ensures { PrintsOne (λ new answer. IsDecimalOfJoined digits places rule room.old (length texts.old) new answer) room.old room.new texts.old texts.new answers.old answers.new result }
{
    if answers.len() != 1 {
        return BAD_LENGTH;
    }
    answers[0] = print_answer(digits, places, rule, room, texts);
    DONE
}
