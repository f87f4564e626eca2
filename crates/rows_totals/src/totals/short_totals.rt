//! Calls of `ratio_totals::Total`: `i8 4 +1/36 -1/28` is a total over `i8` with four slots. In place of steps stands a list, whose
//! total it is, or two lists, whose products go in. Behind ` with ` stands another total, whose words `merge` and `take_out` put it
//! into the first one, or take it out. Behind ` moved_to ` stand the slots for the first one.
use super::changes::read_step;
use super::lists::{bytes, digits, fractions, one_fraction, push_fields, slots};
use super::numbers::number;
use super::said::{
    done, refused, said_bits, said_fraction, said_number, said_order, text, written,
};
use super::{Asked, parted};
use num_rational::Reduced;
use ratio_slots::numerator_in;
use ratio_totals::{Short, Slot, Total, dot, total_of};
use std::alloc::Global;
use std::fmt::Display;

/// Makes the call over the type that the first word names.
pub fn answer(call: &str, asked: Asked<'_>) -> Option<String> {
    let (type_name, words) = parted(asked.words, " ");
    let asked = Asked { words, ..asked };
    match type_name {
        "i8" => built::<i8>(call, asked),
        "i16" => built::<i16>(call, asked),
        "i32" => built::<i32>(call, asked),
        "i64" => built::<i64>(call, asked),
        "isize" => built::<isize>(call, asked),
        "u8" => built::<u8>(call, asked),
        "u16" => built::<u16>(call, asked),
        "u32" => built::<u32>(call, asked),
        "u64" => built::<u64>(call, asked),
        "usize" => built::<usize>(call, asked),
        _ => None,
    }
}

// Builds both totals, and makes the call.
fn built<T: Short + Display>(call: &str, asked: Asked<'_>) -> Option<String> {
    let (own, others) = parted(asked.words, " with ");
    let (own, moved) = parted(own, " moved_to ");
    let (count, steps) = parted(own, " ");
    let mut room = slots(asked.alloc, count)?;
    if call == "dot" || call == "total_of" {
        return counted_list::<T>(asked, steps, room.as_mut_slice());
    }
    let mut total = begun::<T>(asked.alloc, steps, room.as_mut_slice())?;
    let others = if others.is_empty() { "0" } else { others };
    let (count, steps) = parted(others, " ");
    let mut other_room = slots(asked.alloc, count)?;
    let mut other = Total::new(other_room.as_mut_slice());
    for word in steps.split_ascii_whitespace() {
        take_other(asked.alloc, &mut total, &mut other, word)?;
    }
    if moved.is_empty() {
        return ask(call, asked, &mut total, &other);
    }
    let (count, steps) = parted(moved, " ");
    let mut more = slots(asked.alloc, count)?;
    let mut total = total.moved_to(more.as_mut_slice()).ok()?;
    take_steps(asked.alloc, &mut total, steps)?;
    ask(call, asked, &mut total, &other)
}

// How many fractions the total of a list has in these slots, or the total of the products of two lists.
fn counted_list<T: Short>(asked: Asked<'_>, lists: &str, room: &mut [Slot]) -> Option<String> {
    let (xs, ys) = parted(lists, " ");
    let xs = fractions::<T>(asked.alloc, xs)?;
    if ys.is_empty() {
        return match total_of(xs.as_slice(), room) {
            Ok(total) => written(asked.alloc, total.count()),
            Err(why) => refused(asked.alloc, why),
        };
    }
    let ys = fractions::<T>(asked.alloc, ys)?;
    match dot(xs.as_slice(), ys.as_slice(), room) {
        Ok(total) => written(asked.alloc, total.count()),
        Err(why) => refused(asked.alloc, why),
    }
}

// The total of steps, of a list, or of the products of two lists.
fn begun<'a, T: Short>(alloc: Global, words: &str, room: &'a mut [Slot]) -> Option<Total<'a, T>> {
    if !words.starts_with('[') {
        let mut total = Total::new(room);
        take_steps(alloc, &mut total, words)?;
        return Some(total);
    }
    let (xs, ys) = parted(words, " ");
    let xs = fractions::<T>(alloc, xs)?;
    if ys.is_empty() {
        return total_of(xs.as_slice(), room).ok();
    }
    let ys = fractions::<T>(alloc, ys)?;
    dot(xs.as_slice(), ys.as_slice(), room).ok()
}

fn take_steps<T: Short>(alloc: Global, total: &mut Total<'_, T>, steps: &str) -> Option<()> {
    for word in steps.split_ascii_whitespace() {
        take_step(alloc, total, word)?;
    }
    Some(())
}

// Takes a step, which is refused if its word says so.
fn take_step<T: Short>(alloc: Global, total: &mut Total<'_, T>, word: &str) -> Option<()> {
    let step = read_step(word)?;
    if let Some(factor) = step.factor {
        let (x, y) = (one_fraction(step.fraction)?, one_fraction(factor)?);
        return step.agrees(total.add_product(&x, &y).is_err());
    }
    let mut all = Vec::new(alloc);
    push_fields::<T>(&mut all, step.fraction)?;
    for &(numer, denom) in all.iter() {
        let x = Reduced::checked_new(numer, denom)?;
        let changed = if step.adds {
            total.add(&x)
        } else {
            total.subtract(&x)
        };
        step.agrees(changed.is_err())?;
    }
    Some(())
}

// Takes a step of the other total, or puts it into the first one.
fn take_other<T: Short>(
    alloc: Global,
    total: &mut Total<'_, T>,
    other: &mut Total<'_, T>,
    word: &str,
) -> Option<()> {
    match word {
        "merge" => total.merge(other).ok(),
        "take_out" => total.take_out(other).ok(),
        "!merge" => total.merge(other).err().map(|_| ()),
        "!take_out" => total.take_out(other).err().map(|_| ()),
        _ => take_step(alloc, other, word),
    }
}

fn ask<T: Short + Display>(
    call: &str,
    asked: Asked<'_>,
    total: &mut Total<'_, T>,
    other: &Total<'_, T>,
) -> Option<String> {
    counted(call, asked, total)
        .or_else(|| read(call, asked, total))
        .or_else(|| rounded(call, asked, total))
        .or_else(|| compared(call, asked, total, other))
        .or_else(|| changed(call, asked, total, other))
}

fn counted<T: Short>(call: &str, asked: Asked<'_>, total: &Total<'_, T>) -> Option<String> {
    let count = match call {
        "count" => return written(asked.alloc, total.count()),
        "numerator_in" => return numerator(asked, total),
        "read_digits" => total.read_digits(),
        "multiple_digits" => total.multiple_digits(),
        "decimal_digits" => total.decimal_digits(number(asked.args)?),
        "decimal_bytes" => total.decimal_bytes(number(asked.args)?),
        _ => return None,
    };
    format!(in asked.alloc; "{count}").ok()
}

// The numerator over a denominator, in the slots of the total.
fn numerator<T: Short>(asked: Asked<'_>, total: &Total<'_, T>) -> Option<String> {
    let denom = number::<u64>(asked.args)?;
    if denom == 0 {
        return None;
    }
    written(asked.alloc, numerator_in(total.slots, denom))
}

// The reads that take only a room.
fn read<T: Short + Display>(call: &str, asked: Asked<'_>, total: &Total<'_, T>) -> Option<String> {
    let mut digits = digits(asked.alloc, asked.args)?;
    let room = digits.as_mut_slice();
    match call {
        "sum" => said_fraction(asked.alloc, total.sum(room)),
        "mean" => said_fraction(asked.alloc, total.mean(room)),
        "sign" => said_order(asked.alloc, total.sign(room)),
        "to_f64" => said_bits(asked.alloc, total.to_f64(room)),
        _ => None,
    }
}

fn rounded<T: Short + Display>(
    call: &str,
    asked: Asked<'_>,
    total: &Total<'_, T>,
) -> Option<String> {
    let (first, others) = parted(asked.args, " ");
    let rule = asked.rule?;
    if call == "to_integer" {
        let mut room = digits(asked.alloc, first)?;
        let number = total.to_integer(rule, room.as_mut_slice());
        return said_number(asked.alloc, number);
    }
    let (room, buf) = parted(others, " ");
    let mut digits = digits(asked.alloc, room)?;
    let room = digits.as_mut_slice();
    if call == "put_decimal" {
        let mut buf = bytes(asked.alloc, buf)?;
        let start = total.put_decimal(number(first)?, rule, room, buf.as_mut_slice());
        return text(asked.alloc, start, buf.as_slice());
    }
    let parts = number::<T>(first)?;
    if call == "round_to" && T::ZERO < parts {
        let multiple = total.round_to(parts, rule, room);
        return said_fraction(asked.alloc, multiple);
    }
    None
}

fn compared<T: Short>(
    call: &str,
    asked: Asked<'_>,
    total: &Total<'_, T>,
    other: &Total<'_, T>,
) -> Option<String> {
    let (first, others) = parted(asked.args, " ");
    if call == "compare" {
        let (mut between, mut room) = (slots(asked.alloc, first)?, digits(asked.alloc, others)?);
        let found = total.compare(other, between.as_mut_slice(), room.as_mut_slice());
        return said_order(asked.alloc, found);
    }
    if call == "compare_with" {
        let x = one_fraction(first)?;
        let (between, room) = parted(others, " ");
        let (mut between, mut room) = (slots(asked.alloc, between)?, digits(asked.alloc, room)?);
        let found = total.compare_with(&x, between.as_mut_slice(), room.as_mut_slice());
        return said_order(asked.alloc, found);
    }
    None
}

fn changed<T: Short>(
    call: &str,
    asked: Asked<'_>,
    total: &mut Total<'_, T>,
    other: &Total<'_, T>,
) -> Option<String> {
    let (first, second) = parted(asked.args, " ");
    match call {
        "add" => done(asked.alloc, total.add(&one_fraction(first)?)),
        "subtract" => done(asked.alloc, total.subtract(&one_fraction(first)?)),
        "add_product" => {
            let (x, y) = (one_fraction(first)?, one_fraction(second)?);
            done(asked.alloc, total.add_product(&x, &y))
        }
        "merge" => done(asked.alloc, total.merge(other)),
        "take_out" => done(asked.alloc, total.take_out(other)),
        "moved_to" => {
            let mut more = slots(asked.alloc, first)?;
            match total.moved_to(more.as_mut_slice()) {
                Ok(moved) => written(asked.alloc, moved.count()),
                Err(why) => refused(asked.alloc, why),
            }
        }
        _ => None,
    }
}
