//! Calls for a total that grows: in `12 4 6 in 100` 12 slots are taken, 4 more denominators come, the chance is 6, and there are at most 100 slots; `[1/36,0/28]` is a table.
use super::lists::slots;
use super::numbers::number;
use super::said::written;
use super::{Asked, parted};
use ratio_slots::{leave_zeros, next_length};
use rows::answer::of_number;

/// Makes the call on its numbers, or on its table.
pub fn answer(call: &str, asked: Asked<'_>) -> Option<String> {
    match call {
        "next_length" => length(asked),
        "leave_zeros" => left(asked),
        _ => None,
    }
}

fn length(asked: Asked<'_>) -> Option<String> {
    let (taken, others) = parted(asked.words, " ");
    let (more, chance) = parted(others, " ");
    let (taken, more, chance) = (number(taken)?, number(more)?, number(chance)?);
    let length = next_length(taken, more, chance, number(asked.args)?);
    written(asked.alloc, of_number(length))
}

// How many fractions are left, and the slots: `1 1/36 0/0`.
fn left(asked: Asked<'_>) -> Option<String> {
    let mut list = slots(asked.alloc, asked.words)?;
    let left = leave_zeros(list.as_mut_slice());
    let mut text = format!(in asked.alloc; "{left}").ok()?;
    for slot in list.as_slice() {
        text = format!(in asked.alloc; "{text} {}/{}", slot.numer(), slot.denom()).ok()?;
    }
    Some(text)
}
