//! Amounts are split, converted, read and printed, and voices play in exact beats.
use crate::digest::Digest;
use crate::made::{Made, Turns, fraction};
use num_rational::{Reduced, Reduced64, Rounding, split, split_by_weights};
use ratio_uses::beats::{Voice, next_beat};
use std::alloc::{AllocError, Global};

/// So many times: splits, conversions, texts and beats.
pub(crate) fn run(alloc: Global, made: &mut Made, count: u32) -> Result<u64, AllocError> {
    let mut digest = Digest::new();
    let mut text = String::new(alloc);
    let mut wholes = Turns::new(made);
    let mut tempos = Turns::new(made);
    for _ in 0..count {
        for _ in 0..100 {
            let amount = in_parts(made, next_whole(&mut wholes), 100);
            split_shares(alloc, made, &mut digest, amount)?;
            split_weights(alloc, made, &mut digest, amount)?;
        }
        for _ in 0..10_000 {
            let whole = next_whole(&mut wholes);
            let amount = in_parts(made, whole, 100);
            convert(made, &mut digest, amount);
            round_products(made, &mut digest, amount, whole);
            add_up(made, &mut digest, amount);
            read_and_print(made, &mut digest, &mut text, whole)?;
        }
        for _ in 0..4 {
            play(alloc, made, &mut digest, &mut tempos)?;
        }
    }
    Ok(digest.value())
}

// A whole number of units that no other amount has. It is odd, so that no two amounts are rounded to the same decimal.
fn next_whole(wholes: &mut Turns) -> i64 {
    wholes.next(1_000_000) as i64 * 2 + 1
}

// So many whole units and a part of one, in parts of which `parts` make a unit, with a sign now and then.
fn in_parts(made: &mut Made, whole: i64, parts: i64) -> i64 {
    let part = made.below(parts.unsigned_abs().max(1)) as i64;
    let all = whole.wrapping_mul(parts).wrapping_add(part);
    if made.below(8) == 0 {
        made.signed(all)
    } else {
        all
    }
}

// From 1.00 to 134,217,727.99 in cents.
fn any_cents(made: &mut Made) -> i64 {
    let whole = made.any_length(27);
    in_parts(made, whole, 100)
}

// An amount by shares whose denominator is the sum of their weights.
fn split_shares(
    alloc: Global,
    made: &mut Made,
    digest: &mut Digest,
    amount: i64,
) -> Result<(), AllocError> {
    let count = made.below(99) + 2;
    let most = made.one_of(&[1, 3, 12, 100, 1000, 99_999]).unsigned_abs();

    let mut weights = Vec::new(alloc);
    let mut total = 0i64;
    for _ in 0..count {
        let weight = (made.any() % (most % 100_000 + 1)) as i64;
        total = total.wrapping_add(weight);
        weights.push(weight)?;
    }
    let mut shares = Vec::new(alloc);
    for weight in &weights {
        shares.push(fraction(*weight, total))?;
    }
    let mut parts = vec![in alloc; 0i64; shares.len()]?;
    match split(amount, shares.as_slice(), parts.as_mut_slice()) {
        Ok(()) => digest.add(1),
        Err(why) => digest.add_refusal(why as u64),
    }
    for part in &parts {
        digest.add_signed(*part);
    }
    Ok(())
}

fn split_weights(
    alloc: Global,
    made: &mut Made,
    digest: &mut Digest,
    amount: i64,
) -> Result<(), AllocError> {
    let count = made.below(99) + 2;
    let mut weights = Vec::new(alloc);
    for _ in 0..count {
        weights.push(made.below(1000) as i64)?;
    }
    let mut parts = vec![in alloc; 0i64; weights.len()]?;
    match split_by_weights(amount, weights.as_slice(), parts.as_mut_slice()) {
        Ok(()) => digest.add(1),
        Err(why) => digest.add_refusal(why as u64),
    }
    for part in &parts {
        digest.add_signed(*part);
    }
    Ok(())
}

// A rate: of units, in percent, of a currency, or a share.
fn made_rate(made: &mut Made, kind: u64) -> Reduced64 {
    match kind % 8 {
        0 => fraction(made.below(5000) as i64 + 1, 5000),
        1 => fraction(made.below(1250) as i64 + 1, 1250),
        2 => fraction(made.below(100_000_000) as i64 + 1, 100_000_000),
        3 => fraction(made.below(99) as i64 + 1, 100),
        4 => fraction(made.below(300_000) as i64 + 10_000, 100_000),
        5 => fraction(made.below(11) as i64 + 1, 12),
        6 => fraction(made.below(1000) as i64 + 1, made.below(1000) as i64 + 1001),
        _ => fraction(made.any_length(31), made.any_length(31)),
    }
}

fn any_rate(made: &mut Made) -> Reduced64 {
    let kind = made.below(8);
    made_rate(made, kind)
}

// An amount by rates of four kinds, one after the other, and all at once. Now and then a step does not fit.
fn convert(made: &mut Made, digest: &mut Digest, cents: i64) {
    let amount = fraction(cents, 100);
    let kind = made.below(8);
    let rates = [
        amount,
        made_rate(made, kind),
        made_rate(made, kind + 3),
        made_rate(made, kind + 6),
        made_rate(made, kind + 9),
    ];
    let mut converted = Some(amount);
    for rate in &rates[1..] {
        converted = match converted {
            Some(x) => {
                if made.below(2) == 0 {
                    x.checked_mul(rate)
                } else {
                    x.checked_div(rate)
                }
            }
            None => None,
        };
    }
    digest.add_any(&converted);
    let mut room = [0i64; 16];
    digest.add_any(&Reduced::checked_product_of(&rates, &mut room));
}

fn made_rule(made: &mut Made) -> Rounding {
    match made.below(6) {
        0 => Rounding::HalfEven,
        1 => Rounding::HalfAway,
        2 => Rounding::Up,
        3 => Rounding::Floor,
        4 => Rounding::Ceil,
        _ => Rounding::Down,
    }
}

// Products and multiples that are rounded to whole cents.
fn round_products(made: &mut Made, digest: &mut Digest, cents: i64, whole: i64) {
    let amount = fraction(cents, 1);
    let rate = any_rate(made);
    let rule = made_rule(made);
    digest.add_number(amount.checked_mul_round(&rate, rule));
    let parts = made.any_length(20);
    let price = fraction(in_parts(made, whole, parts), parts);
    digest.add_any(&price.round_to(100, made_rule(made)));
}

// Sums and differences of an amount with others of four kinds.
fn add_up(made: &mut Made, digest: &mut Digest, cents: i64) {
    let mut sum = fraction(cents, 100);
    let first = made.below(4);
    for i in 0..4 {
        let more = match (first + i) % 4 {
            0 => fraction(any_cents(made), 100),
            1 => fraction(any_cents(made), 1),
            2 => fraction(any_cents(made), made.one_of(&[3, 7, 12, 30, 360, 365])),
            _ => any_rate(made),
        };
        let next = if made.below(3) == 0 {
            sum.checked_sub(&more)
        } else {
            sum.checked_add(&more)
        };
        digest.add_any(&next);
        sum = next.unwrap_or(sum);
    }
}

// A decimal, a mixed number and a percentage, printed and read again.
fn read_and_print(
    made: &mut Made,
    digest: &mut Digest,
    text: &mut String,
    whole: i64,
) -> Result<(), AllocError> {
    let parts = made.one_of(&[1, 100, 100, 1000, 8, 3]);
    let amount = fraction(in_parts(made, whole, parts), parts);
    let places = made.below(5) as u32;
    let decimal = amount.decimal(places, made_rule(made));
    digest.add_bytes(decimal.as_str().as_bytes());
    match Reduced64::from_decimal(decimal.as_str()) {
        Ok(read) => digest.add_fraction(&read),
        Err(why) => digest.add_refusal(why as u64),
    }
    text.clear();
    text.push_str(amount.base_ten_text().as_str())?;
    if made.below(2) == 0 {
        text.clear();
        text.push_str(decimal.as_str())?;
        text.push_str("%")?;
    }
    match Reduced64::from_text(text.as_str()) {
        Ok(read) => digest.add_fraction(&read),
        Err(why) => digest.add_refusal(why as u64),
    }
    Ok(())
}

// Up to 64 voices for a thousand beats. The first one has a tempo of its own, from 40 to 299 beats a minute.
fn play(
    alloc: Global,
    made: &mut Made,
    digest: &mut Digest,
    tempos: &mut Turns,
) -> Result<(), AllocError> {
    let count = made.one_of(&[2, 3, 4, 8, 16, 64]).unsigned_abs();
    let mut voices = Vec::new(alloc);
    let period = fraction(60, tempos.next(260) as i64 + 40);
    voices.push(Voice { period, count: 0 })?;
    for _ in 1..count % 100 {
        let period = fraction(
            made.below(8) as i64 + 1,
            made.one_of(&[1, 2, 3, 4, 5, 6, 7, 8, 12, 16]),
        );
        voices.push(Voice { period, count: 0 })?;
    }
    for _ in 0..1000 {
        digest.add_any(&next_beat(voices.as_mut_slice()));
    }
    Ok(())
}
