//! Calls of `ratio_slots` on lists of slots: `[1/36,0/0,1/28]` has an empty slot in its middle.
use super::lists::{bytes, digits, slots};
use super::numbers::{fraction, number};
use super::said::{
    lowest, refused, said_bits, said_lowest, said_number, said_order, text, trimmed, written,
};
use super::{Asked, parted};
use num_rational::Rounding;
use ratio_slots::{
    OverCommon, Slot, add_short, digits_of_multiple, digits_of_order, digits_of_read, find,
    float_of, integer_of, mean_of, multiple_of, order_of, put_bounded_of, put_decimal_of,
    put_loose, read_slots, short_pair, sign_of, sum_of,
};
use rows::answer::of_number;
use std::alloc::Global;

/// Makes the call on its lists, or on its numbers.
pub fn answer(call: &str, asked: Asked<'_>) -> Option<String> {
    let (list, other) = parted(asked.words, " with ");
    let Some(mut list) = slots(asked.alloc, list) else {
        return short(call, asked);
    };
    ordered(call, asked, list.as_slice(), other)
        .or_else(|| read(call, asked, list.as_slice()))
        .or_else(|| rounded(call, asked, list.as_slice()))
        .or_else(|| changed(call, asked, list.as_mut_slice()))
}

// A sum in machine numbers, `16/252`, or one step of it, `16/252 1/7`.
fn short(call: &str, asked: Asked<'_>) -> Option<String> {
    let (sum, step) = parted(asked.words, " ");
    let (numer, common) = parted(sum, "/");
    let (numer, common) = (number(numer)?, number(common)?);
    match call {
        "short_pair" => short_sum(asked.alloc, numer, common),
        "add_short" => short_step(asked.alloc, numer, common, step),
        _ => None,
    }
}

fn short_sum(alloc: Global, numer: i128, common: u128) -> Option<String> {
    if common == 0 || 1 << 127 <= common {
        return None;
    }
    written(alloc, lowest(short_pair(numer, common)))
}

fn short_step(alloc: Global, numer: i128, common: u128, step: &str) -> Option<String> {
    let (more, denom) = parted(step, "/");
    let (more, denom) = (number(more)?, number(denom)?);
    if denom == 0 {
        return None;
    }
    match add_short(numer, common, more, denom) {
        Some((sum, common)) => format!(in alloc; "{sum}/{common}").ok(),
        None => written(alloc, "none"),
    }
}

fn ordered(call: &str, asked: Asked<'_>, list: &[Slot], other: &str) -> Option<String> {
    let other = slots(asked.alloc, other)?;
    match call {
        "digits_of_order" => written(asked.alloc, digits_of_order(list, other.as_slice())),
        "order_of" => order(asked, list, other.as_slice()),
        _ => None,
    }
}

fn order(asked: Asked<'_>, list: &[Slot], other: &[Slot]) -> Option<String> {
    let (between, room) = parted(asked.args, " ");
    let (mut between, mut room) = (slots(asked.alloc, between)?, digits(asked.alloc, room)?);
    let found = order_of(list, other, between.as_mut_slice(), room.as_mut_slice());
    said_order(asked.alloc, found)
}

fn read(call: &str, asked: Asked<'_>, list: &[Slot]) -> Option<String> {
    match call {
        "digits_of_read" => written(asked.alloc, digits_of_read(list)),
        "digits_of_multiple" => written(asked.alloc, digits_of_multiple(list)),
        "mean_of" => mean(asked, list),
        _ => read_in_room(call, asked, list),
    }
}

fn mean(asked: Asked<'_>, list: &[Slot]) -> Option<String> {
    let (count, room) = parted(asked.args, " ");
    let mut room = digits(asked.alloc, room)?;
    said_lowest(
        asked.alloc,
        mean_of(list, number(count)?, room.as_mut_slice()),
    )
}

fn read_in_room(call: &str, asked: Asked<'_>, list: &[Slot]) -> Option<String> {
    let mut digits = digits(asked.alloc, asked.args)?;
    let room = digits.as_mut_slice();
    match call {
        "read_slots" => match read_slots(list, room) {
            Ok(read) => over_common(asked.alloc, read, room),
            Err(why) => refused(asked.alloc, why),
        },
        "sum_of" => said_lowest(asked.alloc, sum_of(list, room)),
        "float_of" => said_bits(asked.alloc, float_of(list, room)),
        "sign_of" => said_order(asked.alloc, sign_of(list, room)),
        _ => None,
    }
}

// Both numbers by their digits without leading zeros: `-[110]/[252]`.
fn over_common(alloc: Global, read: OverCommon, room: &[u64]) -> Option<String> {
    let numer = room.get(..read.numer_digits)?;
    let denom = room.get(read.numer_digits..)?.get(..read.denom_digits)?;
    let sign = if read.negative { "-" } else { "" };
    let (numer, denom) = (trimmed(numer), trimmed(denom));
    format!(in alloc; "{sign}{numer:?}/{denom:?}").ok()
}

fn rounded(call: &str, asked: Asked<'_>, list: &[Slot]) -> Option<String> {
    let (rule, (first, others)) = (asked.rule?, parted(asked.args, " "));
    match call {
        "integer_of" => {
            let mut room = digits(asked.alloc, first)?;
            said_number(asked.alloc, integer_of(list, rule, room.as_mut_slice()))
        }
        "multiple_of" => multiple(asked, list, rule, number(first)?, others),
        "put_decimal_of" => decimal(asked, list, rule, number(first)?, others),
        "put_bounded_of" => bounded(asked, list, rule, number(first)?, others),
        _ => None,
    }
}

fn multiple(
    asked: Asked<'_>,
    list: &[Slot],
    rule: Rounding,
    parts: u64,
    room: &str,
) -> Option<String> {
    let mut room = digits(asked.alloc, room)?;
    if parts == 0 {
        return None;
    }
    said_lowest(
        asked.alloc,
        multiple_of(list, parts, rule, room.as_mut_slice()),
    )
}

fn decimal(
    asked: Asked<'_>,
    list: &[Slot],
    rule: Rounding,
    places: u32,
    rooms: &str,
) -> Option<String> {
    let (room, buf) = parted(rooms, " ");
    let (mut room, mut buf) = (digits(asked.alloc, room)?, bytes(asked.alloc, buf)?);
    let start = put_decimal_of(list, places, rule, room.as_mut_slice(), buf.as_mut_slice());
    text(asked.alloc, start, buf.as_slice())
}

fn bounded(
    asked: Asked<'_>,
    list: &[Slot],
    rule: Rounding,
    places: u32,
    rooms: &str,
) -> Option<String> {
    let (room, buf) = parted(rooms, " ");
    let (mut room, mut buf) = (digits(asked.alloc, room)?, bytes(asked.alloc, buf)?);
    match put_bounded_of(list, places, rule, room.as_mut_slice(), buf.as_mut_slice()) {
        Ok(None) => written(asked.alloc, "none"),
        Ok(Some(start)) => text::<u64>(asked.alloc, Ok(start), buf.as_slice()),
        Err(why) => refused(asked.alloc, why),
    }
}

// Finds the place of a denominator, or puts a fraction in.
fn changed(call: &str, asked: Asked<'_>, list: &mut [Slot]) -> Option<String> {
    match call {
        "find" => written(asked.alloc, of_number(find(list, number(asked.args)?))),
        "put_loose" => put(asked, list),
        _ => None,
    }
}

// Puts a fraction in, and writes the slot that has its denominator then. A refusal changes nothing.
fn put(asked: Asked<'_>, list: &mut [Slot]) -> Option<String> {
    let (numer, denom) = fraction::<i128>(asked.args)?;
    let denom = u64::try_from(denom).ok()?;
    if denom == 0 {
        return None;
    }
    match put_loose(list, numer, denom) {
        Ok(()) => {
            let held = list.get(find(list, denom)?)?;
            format!(in asked.alloc; "{}/{}", held.numer(), held.denom()).ok()
        }
        Err(why) if is_kept(slots(asked.alloc, asked.words)?.as_slice(), list) => {
            refused(asked.alloc, why)
        }
        Err(_) => written(asked.alloc, "changed"),
    }
}

fn is_kept(before: &[Slot], after: &[Slot]) -> bool {
    before.iter().zip(after.iter()).all(|(old, new)| old.denom() == new.denom()
        && old.numer() == new.numer())
}
