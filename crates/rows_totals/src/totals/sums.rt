//! Sums of lists, and splits: `i8 [1/36,1/28]` is a list, and `i64 100 [1/3*3]` an amount with its shares.
use super::lists::{digits, filled, fractions, slots};
use super::numbers::number;
use super::said::{refused, said_fraction};
use super::{Asked, parted};
use num_rational::split;
use ratio_integer::Primitive;
use ratio_totals::{Short, checked_sum_in, checked_wide_sum_in, split_in};
use std::alloc::Global;
use std::fmt::Display;

/// Makes the call over the type that the first word names.
pub fn answer(call: &str, asked: Asked<'_>) -> Option<String> {
    let (type_name, words) = parted(asked.words, " ");
    let asked = Asked { words, ..asked };
    match type_name {
        "i8" => short::<i8>(call, asked),
        "i64" => short::<i64>(call, asked),
        "u64" => short::<u64>(call, asked),
        "i128" => long::<i128>(call, asked),
        "u128" => long::<u128>(call, asked),
        _ => None,
    }
}

// The sums over types of at most 64 bits, or what all types have.
fn short<T: Short + Display>(call: &str, asked: Asked<'_>) -> Option<String> {
    if call == "checked_sum_in" {
        let items = fractions::<T>(asked.alloc, asked.words)?;
        let (list, room) = parted(asked.args, " ");
        let (mut list, mut room) = (slots(asked.alloc, list)?, digits(asked.alloc, room)?);
        let sum = checked_sum_in(items.as_slice(), list.as_mut_slice(), room.as_mut_slice());
        return said_fraction(asked.alloc, sum);
    }
    long::<T>(call, asked)
}

fn long<T: Primitive + Display>(call: &str, asked: Asked<'_>) -> Option<String> {
    if call == "split" || call == "split_in" {
        return divided::<T>(call, asked);
    }
    let items = fractions::<T>(asked.alloc, asked.words)?;
    let (count, others) = parted(asked.args, " ");
    let (room, spare) = parted(others, " ");
    let (mut room, mut spare) = (digits(asked.alloc, room)?, digits(asked.alloc, spare)?);
    if call != "checked_wide_sum_in" {
        return None;
    }
    let sum = checked_wide_sum_in(
        items.as_slice(),
        number(count)?,
        room.as_mut_slice(),
        spare.as_mut_slice(),
    );
    said_fraction(asked.alloc, sum)
}

// The parts of an amount in so many places, which were 7 before. `8 2 [7*30] [7*54]` has eight places, and two digits in a room.
fn divided<T: Primitive + Display>(call: &str, asked: Asked<'_>) -> Option<String> {
    let (amount, shares) = parted(asked.words, " ");
    let shares = fractions::<T>(asked.alloc, shares)?;
    let (places, room) = parted(asked.args, " ");
    let seven = number::<T>("7")?;
    let mut parts = filled(asked.alloc, seven, number::<usize>(places)?)?;
    let (amount, shares) = (number(amount)?, shares.as_slice());
    let refusal = if call == "split" {
        let why = split(amount, shares, parts.as_mut_slice()).err();
        why.map(|it| refused(asked.alloc, it))
    } else {
        let (count, room) = parted(room, " ");
        let (room, spare) = parted(room, " ");
        let (mut room, mut spare) = (digits(asked.alloc, room)?, digits(asked.alloc, spare)?);
        let why = split_in(
            amount,
            shares,
            parts.as_mut_slice(),
            number(count)?,
            room.as_mut_slice(),
            spare.as_mut_slice(),
        );
        why.err().map(|it| refused(asked.alloc, it))
    };
    match refusal {
        None => spaced(asked.alloc, parts.as_slice()),
        Some(text) if parts.iter().all(|it| *it == seven) => text,
        Some(_) => None,
    }
}

// The parts with spaces between them.
fn spaced<T: Primitive + Display>(alloc: Global, parts: &[T]) -> Option<String> {
    let mut text = String::new(alloc);
    for (i, part) in parts.iter().enumerate() {
        let mark = if i == 0 { "" } else { " " };
        let word = format!(in alloc; "{mark}{part}").ok()?;
        text.push_str(word.as_str()).ok()?;
    }
    Some(text)
}
