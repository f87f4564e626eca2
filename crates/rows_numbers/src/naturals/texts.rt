//! Numbers and fractions as decimal texts, and texts as numbers.
use crate::naturals::digits::{Printed, digits, of_digits, used_room};
use ratio_decimal::naturals::{put_decimal as put_long_decimal, put_places};
use ratio_natural::{is_zero, put_decimal, put_last_digits, read_decimal};
use rows::answer::{Answer, of_text};
use rows::notation::{rule, text};
use std::alloc::Global;

/// The number of a text, in so many digits, which had something in them.
pub fn read(alloc: Global, length: &str, quoted: &str) -> Option<Answer<u64>> {
    let length = length.parse::<u8>().ok()? as usize;
    let bytes = text(quoted)?.as_bytes();
    if bytes.len() > 19 * length {
        return None;
    }
    let mut room = used_room(alloc, length).ok()?;
    Some(match read_decimal(room.as_mut_slice(), bytes) {
        Some(()) => of_digits(alloc, &room),
        None => Answer::Nothing,
    })
}

fn of_bytes(alloc: Global, bytes: &[u8]) -> Option<Answer<u64>> {
    let text = str::from_utf8(bytes).ok()?;
    Some(of_text(format!(in alloc; "\"{text}\"")))
}

/// The text of a number.
pub fn of_number(alloc: Global, number: &str) -> Option<Answer<u64>> {
    let mut a = digits(alloc, number)?;
    if a.len() > 3 {
        return None;
    }
    let mut buf = [b' '; 61];
    let start = put_decimal(a.as_mut_slice(), &mut buf);
    of_bytes(alloc, &buf[start..])
}

/// The last digits of a number, as all that was written into spaces, and the number without them.
pub fn last_digits(alloc: Global, number: &str, count: &str) -> Option<Answer<u64>> {
    let mut a = digits(alloc, number)?;
    let count = count.parse::<usize>().ok()?;
    if count > 26 {
        return None;
    }
    let mut buf = [b' '; 26];
    put_last_digits(a.as_mut_slice(), count, &mut buf);
    let text = str::from_utf8(&buf).ok()?.trim_start();
    let digits = Printed(&a);
    Some(of_text(format!(in alloc; "\"{text}\" {digits}")))
}

/// A number over a power of 10.
pub fn places(alloc: Global, below: bool, words: &str) -> Option<Answer<u64>> {
    let (number, places) = words.split_once(' ')?;
    let mut a = digits(alloc, number)?;
    let places = places.parse::<usize>().ok()?;
    if a.len() > 2 || places > 40 {
        return None;
    }
    let mut buf = [b' '; 90];
    let start = put_places(a.as_mut_slice(), places, below, &mut buf);
    of_bytes(alloc, &buf[start..])
}

/// A fraction rounded to some places by a rule, in room that was used before.
pub fn decimal(alloc: Global, below: bool, words: &str) -> Option<Answer<u64>> {
    let mut words = words.split(' ');
    let numer = digits(alloc, words.next()?)?;
    let denom = digits(alloc, words.next()?)?;
    let places = words.next()?.parse::<usize>().ok()?;
    let rule = rule(words.next()?)?;
    if numer.len() > 3 || is_zero(&denom) || denom.len() > 6 || places > 40 {
        return None;
    }
    let (mut scaled, mut quotient, mut buf) = ([5; 6], [7; 7], [b' '; 190]);
    let start = put_long_decimal(
        &numer,
        &denom,
        below,
        places,
        rule,
        &mut scaled,
        &mut quotient,
        &mut buf,
    );
    of_bytes(alloc, &buf[start..])
}
