//! Calls of `ratio_totals::WideTotal`: `i128 2 [7*14] [7*22] +1/36` is a total with two digits for its common denominator, in the
//! first room; the second list has the spare digits. A list before the steps goes in at once. Behind ` with ` stands another total with
//! its digits and its room, whose words `merge` and `take_out` do what `tables` says; behind ` then ` the steps of the first one go on.
//! Behind ` moved_to ` stand the digits and the room for the first one.
use super::changes::{Step, read_step};
use super::lists::{bytes, digits, fractions, one_fraction, push_fields};
use super::numbers::number;
use super::said::{
    done, refused, said_bits, said_fraction, said_number, said_order, text, written,
};
use super::{Asked, parted};
use num_rational::Reduced;
use ratio_integer::Primitive;
use ratio_totals::{WideTotal, wide_total_of};
use rows::answer::of_number;
use std::alloc::Global;
use std::fmt::Display;

/// Makes the call over the type that the first word names.
pub fn answer(call: &str, asked: Asked<'_>) -> Option<String> {
    let (type_name, words) = parted(asked.words, " ");
    let asked = Asked { words, ..asked };
    match type_name {
        "i8" => built::<i8>(call, asked),
        "i128" => built::<i128>(call, asked),
        "u128" => built::<u128>(call, asked),
        _ => None,
    }
}

// Builds both totals, and makes the call.
fn built<T: Primitive + Display>(call: &str, asked: Asked<'_>) -> Option<String> {
    let (own, others) = parted(asked.words, " with ");
    let (own, moved) = parted(own, " moved_to ");
    let (count, own) = parted(own, " ");
    let (room, own) = parted(own, " ");
    let (count, mut room) = (number(count)?, digits(asked.alloc, room)?);
    if call == "new" {
        let made = match WideTotal::<T>::new(count, room.as_mut_slice()) {
            Some(total) => Some(total.count()),
            None => None,
        };
        return written(asked.alloc, of_number(made));
    }
    let (spare, steps) = parted(own, " ");
    let mut spare = digits(asked.alloc, spare)?;
    let spare = spare.as_mut_slice();
    let mut total = begun::<T>(asked.alloc, count, room.as_mut_slice(), spare, steps)?;
    if !moved.is_empty() {
        let (count, moved) = parted(moved, " ");
        let (room, steps) = parted(moved, " ");
        let mut room = digits(asked.alloc, room)?;
        let mut total = total.moved_to(number(count)?, room.as_mut_slice()).ok()?;
        take_steps(asked.alloc, &mut total, spare, steps)?;
        return ask(call, asked, &mut total);
    }
    if others.is_empty() {
        return ask(call, asked, &mut total);
    }
    with_other(call, asked, &mut total, spare, others)
}

// Builds the other total, whose steps may change the first one, and makes the call.
fn with_other<T: Primitive + Display>(
    call: &str,
    asked: Asked<'_>,
    total: &mut WideTotal<'_, T>,
    spare: &mut [u64],
    others: &str,
) -> Option<String> {
    let (others, last_steps) = parted(others, " then ");
    let (count, others) = parted(others, " ");
    let (room, steps) = parted(others, " ");
    let mut room = digits(asked.alloc, room)?;
    let (items, steps) = list_first(steps);
    let mut other = begun::<T>(
        asked.alloc,
        number(count)?,
        room.as_mut_slice(),
        spare,
        items,
    )?;
    for word in steps.split_ascii_whitespace() {
        take_other(asked.alloc, total, &mut other, spare, word)?;
    }
    take_steps(asked.alloc, total, spare, last_steps)?;
    both(call, asked, total, &other).or_else(|| ask(call, asked, total))
}

// The calls on two totals, which take only free or spare digits.
fn both<T: Primitive + Display>(
    call: &str,
    asked: Asked<'_>,
    total: &mut WideTotal<'_, T>,
    other: &WideTotal<'_, T>,
) -> Option<String> {
    let mut digits = digits(asked.alloc, asked.args)?;
    let free = digits.as_mut_slice();
    match call {
        "merge" => done(asked.alloc, total.merge(other, free)),
        "take_out" => done(asked.alloc, total.take_out(other, free)),
        "compare" => said_order(asked.alloc, total.compare(other, free)),
        _ => None,
    }
}

// The list that the words begin with, if they do, and the other words.
fn list_first(words: &str) -> (&str, &str) {
    if words.starts_with('[') {
        parted(words, " ")
    } else {
        ("", words)
    }
}

// The total of a list and of steps.
fn begun<'a, T: Primitive>(
    alloc: Global,
    count: usize,
    room: &'a mut [u64],
    spare: &mut [u64],
    words: &str,
) -> Option<WideTotal<'a, T>> {
    let (list, steps) = list_first(words);
    let mut total = if list.is_empty() {
        WideTotal::new(count, room)?
    } else {
        let items = fractions::<T>(alloc, list)?;
        wide_total_of(items.as_slice(), count, room, spare).ok()?
    };
    take_steps(alloc, &mut total, spare, steps)?;
    Some(total)
}

fn take_steps<T: Primitive>(
    alloc: Global,
    total: &mut WideTotal<'_, T>,
    spare: &mut [u64],
    steps: &str,
) -> Option<()> {
    for word in steps.split_ascii_whitespace() {
        take_step(alloc, total, spare, word)?;
    }
    Some(())
}

// Takes a step, which is refused if its word says so.
fn take_step<T: Primitive>(
    alloc: Global,
    total: &mut WideTotal<'_, T>,
    spare: &mut [u64],
    word: &str,
) -> Option<()> {
    let step = read_step(word)?;
    if let Some(factor) = step.factor {
        return take_product(total, spare, step, factor);
    }
    let mut all = Vec::new(alloc);
    push_fields::<T>(&mut all, step.fraction)?;
    for &(numer, denom) in all.iter() {
        let x = Reduced::checked_new(numer, denom)?;
        let changed = if step.adds {
            total.add(&x, spare)
        } else {
            total.subtract(&x, spare)
        };
        step.agrees(changed.is_err())?;
    }
    Some(())
}

fn take_product<T: Primitive>(
    total: &mut WideTotal<'_, T>,
    spare: &mut [u64],
    step: Step<'_>,
    factor: &str,
) -> Option<()> {
    let (x, y) = (one_fraction(step.fraction)?, one_fraction(factor)?);
    let changed = if step.adds {
        total.add_product(&x, &y, spare)
    } else {
        total.subtract_product(&x, &y, spare)
    };
    step.agrees(changed.is_err())
}

// Takes a step of the other total, or puts it into the first one.
fn take_other<T: Primitive>(
    alloc: Global,
    total: &mut WideTotal<'_, T>,
    other: &mut WideTotal<'_, T>,
    spare: &mut [u64],
    word: &str,
) -> Option<()> {
    match word {
        "merge" => total.merge(other, spare).ok(),
        "take_out" => total.take_out(other, spare).ok(),
        _ => take_step(alloc, other, spare, word),
    }
}

fn ask<T: Primitive + Display>(
    call: &str,
    asked: Asked<'_>,
    total: &mut WideTotal<'_, T>,
) -> Option<String> {
    if call == "count" {
        return written(asked.alloc, total.count());
    }
    read(call, asked, total)
        .or_else(|| rounded(call, asked, total))
        .or_else(|| changed(call, asked, total))
}

// The reads that take only free digits.
fn read<T: Primitive + Display>(
    call: &str,
    asked: Asked<'_>,
    total: &WideTotal<'_, T>,
) -> Option<String> {
    let mut free = digits(asked.alloc, asked.args)?;
    let free = free.as_mut_slice();
    match call {
        "sum" => said_fraction(asked.alloc, total.sum(free)),
        "mean" => said_fraction(asked.alloc, total.mean(free)),
        "sign" => said_order(asked.alloc, total.sign(free)),
        "to_f64" => said_bits(asked.alloc, total.to_f64(free)),
        _ => None,
    }
}

fn rounded<T: Primitive + Display>(
    call: &str,
    asked: Asked<'_>,
    total: &WideTotal<'_, T>,
) -> Option<String> {
    let (first, others) = parted(asked.args, " ");
    let rule = asked.rule?;
    if call == "to_integer" {
        let mut free = digits(asked.alloc, first)?;
        let number = total.to_integer(rule, free.as_mut_slice());
        return said_number(asked.alloc, number);
    }
    let (room, buf) = parted(others, " ");
    let mut free = digits(asked.alloc, room)?;
    let free = free.as_mut_slice();
    if call == "put_decimal" {
        let mut buf = bytes(asked.alloc, buf)?;
        let start = total.put_decimal(number(first)?, rule, free, buf.as_mut_slice());
        return text(asked.alloc, start, buf.as_slice());
    }
    let parts = number::<T>(first)?;
    if call == "round_to" && T::ZERO < parts {
        let multiple = total.round_to(parts, rule, free);
        return said_fraction(asked.alloc, multiple);
    }
    None
}

fn changed<T: Primitive + Display>(
    call: &str,
    asked: Asked<'_>,
    total: &mut WideTotal<'_, T>,
) -> Option<String> {
    let (first, others) = parted(asked.args, " ");
    if call == "moved_to" {
        let mut room = digits(asked.alloc, others)?;
        return match total.moved_to(number(first)?, room.as_mut_slice()) {
            Ok(moved) => written(asked.alloc, moved.count()),
            Err(why) => refused(asked.alloc, why),
        };
    }
    let x = one_fraction(first)?;
    if let Some((factor, spare)) = others.split_once(' ') {
        let (y, mut spare) = (one_fraction(factor)?, digits(asked.alloc, spare)?);
        return match call {
            "add_product" => done(asked.alloc, total.add_product(&x, &y, spare.as_mut_slice())),
            "subtract_product" => {
                done(
                    asked.alloc,
                    total.subtract_product(&x, &y, spare.as_mut_slice()),
                )
            }
            _ => None,
        };
    }
    let mut spare = digits(asked.alloc, others)?;
    let spare = spare.as_mut_slice();
    match call {
        "add" => done(asked.alloc, total.add(&x, spare)),
        "subtract" => done(asked.alloc, total.subtract(&x, spare)),
        "compare_with" => said_order(asked.alloc, total.compare_with(&x, spare)),
        _ => None,
    }
}
