//! Calls of `ratio_slots::Joined`, which is a sum in a room: `2 1 [16,0*3,252,0*5]` has two fractions, one digit for the common
//! denominator, and this room; `-1/36` is one fraction; `6 +1/36 -1/28` has six digits, and its fractions went in one by one.
use super::changes::read_step;
use super::lists::{bytes, digits, filled, push_fields, slots};
use super::numbers::{fraction, number};
use super::said::{lowest, refused, said_bits, said_lowest, said_order, text, trimmed, written};
use super::wide_rooms::wide_read;
use super::{Asked, parted};
use ratio_slots::{AddRefusal, Joined};
use std::alloc::Global;

/// Makes the call on the sums in their rooms, or makes a sum.
pub fn answer(call: &str, asked: Asked<'_>) -> Option<String> {
    if let Some(text) = begun(call, asked) {
        return Some(text);
    }
    let (own, other) = parted(asked.words, " with ");
    let (joined, mut room) = held(asked.alloc, own, 7)?;
    if !other.is_empty() {
        return with_other(call, asked, joined, room.as_mut_slice(), (own, other));
    }
    read(call, asked, joined, room.as_mut_slice())
        .or_else(|| wide_read(call, asked, joined, room.as_mut_slice()))
        .or_else(|| stepped(call, asked, joined, room.as_mut_slice()))
}

// The count of fractions and of digits.
fn counts(alloc: Global, joined: Option<Joined>) -> Option<String> {
    match joined {
        Some(joined) => format!(in alloc; "{} {}", joined.done, joined.digits).ok(),
        None => written(alloc, "none"),
    }
}

fn begun(call: &str, asked: Asked<'_>) -> Option<String> {
    if call != "begin" && call != "zero" && call != "of" {
        return None;
    }
    let mut digits = digits(asked.alloc, asked.args)?;
    let room = digits.as_mut_slice();
    match call {
        "begin" => {
            let list = slots(asked.alloc, asked.words)?;
            counts(asked.alloc, Joined::begin(list.as_slice(), room))
        }
        "zero" => counts(asked.alloc, Joined::zero(number(asked.words)?, room)),
        _ => counts(asked.alloc, fraction_in(asked.words, room)?),
    }
}

// The sum of one fraction in this room. Its sign stands alone: `-0/5` is negative.
fn fraction_in(word: &str, room: &mut [u64]) -> Option<Option<Joined>> {
    let (negative, word) = match word.strip_prefix('-') {
        Some(word) => (true, word),
        None => (false, word),
    };
    let (numer, denom) = fraction::<u128>(word)?;
    if denom == 0 {
        return None;
    }
    Some(Joined::of(negative, numer, denom, room))
}

// The sum that the words say, in a room that has this digit everywhere before.
fn held(alloc: Global, words: &str, fill: u64) -> Option<(Joined, Vec<u64>)> {
    let (first, others) = parted(words, " ");
    if others.is_empty() {
        let mut room = filled(alloc, fill, 14)?;
        let joined = fraction_in(first, room.as_mut_slice())??;
        return Some((joined, room));
    }
    if let Some((digits_word, room)) = others.split_once(" [") {
        let (done, digits_count) = (number(first)?, number(digits_word)?);
        let list = format!(in alloc; "[{room}").ok()?;
        let joined = Joined {
            done,
            digits: digits_count,
        };
        return Some((joined, digits(alloc, list.as_str())?));
    }
    let mut room = filled(alloc, 7, 36)?;
    let mut joined = Joined::zero(number(first)?, room.as_mut_slice())?;
    for word in others.split(' ') {
        joined = added(alloc, joined, room.as_mut_slice(), word)?;
    }
    Some((joined, room))
}

// The sum with the fractions of one step more.
fn added(alloc: Global, sum: Joined, room: &mut [u64], word: &str) -> Option<Joined> {
    let step = read_step(word)?;
    let mut fractions = Vec::new(alloc);
    push_fields::<u128>(&mut fractions, step.fraction)?;
    let mut sum = sum;
    for &(numer, denom) in fractions.iter() {
        if denom == 0 {
            return None;
        }
        let mut other_room = [9; 14];
        let other = Joined::of(!step.adds, numer, denom, &mut other_room)?;
        sum = sum.merge(room, other, &other_room, &mut [5; 54]).ok()?;
    }
    Some(sum)
}

fn with_other(
    call: &str,
    asked: Asked<'_>,
    joined: Joined,
    room: &mut [u64],
    (own, other): (&str, &str),
) -> Option<String> {
    let (other, other_room) = held(asked.alloc, other, 9)?;
    let mut free = digits(asked.alloc, asked.args)?;
    let (others, free) = (other_room.as_slice(), free.as_mut_slice());
    if call == "compare" {
        let found = joined.compare(room, other, others, free);
        return said_order(asked.alloc, found);
    }
    let changed = match call {
        "merge" => joined.merge(room, other, others, free),
        "take_out" => joined.take_out(room, other, others, free),
        _ => return None,
    };
    let (_, before) = held(asked.alloc, own, 7)?;
    after_change(asked.alloc, changed, room, before.as_slice())
}

// The counts, the three numbers in the room and the sum, or the refusal, which changed nothing.
fn after_change(
    alloc: Global,
    changed: Result<Joined, AddRefusal>,
    room: &mut [u64],
    before: &[u64],
) -> Option<String> {
    match changed {
        Ok(next) => {
            let numbers = numbers(alloc, next.digits, room)?;
            let (numbers, sum) = (numbers.as_str(), lowest(next.sum(room).ok()?));
            format!(in alloc; "{} {} {numbers} {sum}", next.done, next.digits).ok()
        }
        Err(why) if *room == *before => refused(alloc, why),
        Err(_) => written(alloc, "changed"),
    }
}

// The three numbers in a room with this many digits for the common denominator.
fn numbers(alloc: Global, digits: usize, room: &[u64]) -> Option<String> {
    let length = digits.saturating_add(3);
    let positive = trimmed(room.get(..length)?);
    let others = room.get(length..)?;
    let common = trimmed(others.get(..digits)?);
    let negative = trimmed(others.get(digits..)?.get(..length)?);
    format!(in alloc; "{positive:?} {common:?} {negative:?}").ok()
}

fn read(call: &str, asked: Asked<'_>, joined: Joined, room: &mut [u64]) -> Option<String> {
    match call {
        "sum" => said_lowest(asked.alloc, joined.sum(room)),
        "mean" => {
            let mean = joined.mean(number(asked.args)?, room);
            said_lowest(asked.alloc, mean)
        }
        "sign" => said_order(asked.alloc, joined.sign(room)),
        "to_f64" => said_bits(asked.alloc, joined.to_f64(room)),
        "put_decimal" => {
            let (places, buf) = parted(asked.args, " ");
            let mut buf = bytes(asked.alloc, buf)?;
            let start = joined.put_decimal(number(places)?, asked.rule?, room, buf.as_mut_slice());
            text(asked.alloc, start, buf.as_slice())
        }
        _ => None,
    }
}

fn stepped(call: &str, asked: Asked<'_>, joined: Joined, room: &mut [u64]) -> Option<String> {
    let (first, second) = parted(asked.args, " ");
    match call {
        "go_on" => {
            let list = slots(asked.alloc, first)?;
            match joined.go_on(list.as_slice(), number(second)?, room) {
                Ok(next) => counts(asked.alloc, Some(next)),
                Err(why) => refused(asked.alloc, why),
            }
        }
        "moved_to" => {
            let mut other = digits(asked.alloc, second)?;
            match joined.moved_to(room, number(first)?, other.as_mut_slice()) {
                Some(moved) => after_change(asked.alloc, Ok(moved), other.as_mut_slice(), room),
                None => counts(asked.alloc, None),
            }
        }
        _ => None,
    }
}
