//! A ledger is added up and read: columns of cents, of shares of them, of days, and of fractions of any kind.
use crate::digest::Digest;
use crate::made::{Made, fraction};
use num_rational::{Reduced64, Rounding};
use ratio_totals::{ReadRefusal, Slot, Total, checked_sum, dot, total_of};
use std::alloc::{AllocError, Global};

/// So many times: a column of each kind, added up whole, in groups of 20 rows and row by row, and an awkward one.
pub(crate) fn run(
    alloc: Global,
    made: &mut Made,
    count: u32,
    rows: u32,
) -> Result<u64, AllocError> {
    let mut digest = Digest::new();
    let mut room = vec![in alloc; 0u64; 20_000]?;
    let mut slots = vec![in alloc; Slot::EMPTY; 4096]?;
    let mut text = vec![in alloc; 0u8; 400_000]?;
    for _ in 0..count {
        for kind in 0..5 {
            let column = made_column(alloc, made, kind, rows)?;
            let other = made_column(alloc, made, 1, rows)?;
            read_whole(
                &mut digest,
                column.as_slice(),
                slots.as_mut_slice(),
                room.as_mut_slice(),
                text.as_mut_slice(),
            );
            read_groups(alloc, &mut digest, column.as_slice());
            add_and_take_out(
                &mut digest,
                column.as_slice(),
                slots.as_mut_slice(),
                room.as_mut_slice(),
            );
            read_products(
                &mut digest,
                column.as_slice(),
                other.as_slice(),
                slots.as_mut_slice(),
                room.as_mut_slice(),
            );
        }
        let column = made_column(alloc, made, 5, rows / 20)?;
        read_whole(
            &mut digest,
            column.as_slice(),
            slots.as_mut_slice(),
            room.as_mut_slice(),
            text.as_mut_slice(),
        );
    }
    Ok(digest.value())
}

// Cents, thirds of cents, days over the length of a year, fractions over up to 1,000, mixed ones, and denominators of up to 62 bits.
fn made_row(made: &mut Made, kind: u64) -> Reduced64 {
    match kind {
        0 => fraction(made.below(2_000_000) as i64 - 1_000_000, 100),
        1 => fraction(made.below(6_000_000) as i64 - 3_000_000, 300),
        2 => fraction(made.below(4000) as i64, made.one_of(&[360, 365, 366])),
        3 => fraction(
            made.below(200_000) as i64 - 100_000,
            made.below(1000) as i64 + 1,
        ),
        4 => fraction(
            made.below(200_000) as i64 - 100_000,
            made.one_of(&[1, 2, 3, 4, 6, 7, 8, 12, 25, 60, 100, 1000]),
        ),
        _ => fraction(made.of_length(40), made.of_length(62)),
    }
}

fn made_column(
    alloc: Global,
    made: &mut Made,
    kind: u64,
    rows: u32,
) -> Result<Vec<Reduced64>, AllocError> {
    let mut column = Vec::new(alloc);
    for _ in 0..rows {
        column.push(made_row(made, kind))?;
    }
    Ok(column)
}

// Adds the column up, and reads the total in each way.
fn read_whole(
    digest: &mut Digest,
    column: &[Reduced64],
    slots: &mut [Slot],
    room: &mut [u64],
    text: &mut [u8],
) {
    match total_of(column, slots) {
        Ok(total) => {
            add_sum(digest, total.sum(room));
            add_sum(digest, total.mean(room));
            add_number(digest, total.to_integer(Rounding::HalfEven, room));
            add_sum(digest, total.round_to(100, Rounding::HalfAway, room));
            add_float(digest, total.to_f64(room));
            add_decimal(digest, &total, room, text);
        }
        Err(why) => digest.add_refusal(why as u64),
    }
}

fn add_decimal(digest: &mut Digest, total: &Total<'_, i64>, room: &mut [u64], text: &mut [u8]) {
    match total.put_decimal(20, Rounding::HalfEven, room, text) {
        Ok(start) => {
            if start <= text.len() {
                digest.add_bytes(&text[start..]);
            }
        }
        Err(why) => digest.add_refusal(why as u64),
    }
}

// The sum of each 20 rows, as a query with groups gives it.
fn read_groups(alloc: Global, digest: &mut Digest, column: &[Reduced64]) {
    let mut slots = [Slot::EMPTY; 32];
    let mut room = [0u64; 256];
    for (i, group) in column.chunks(20).enumerate() {
        if i % 2 == 0 {
            match total_of(group, &mut slots) {
                Ok(total) => add_sum(digest, total.sum(&mut room)),
                Err(why) => digest.add_refusal(why as u64),
            }
        } else {
            match checked_sum(alloc, group) {
                Ok(sum) => digest.add_any(&sum),
                Err(why) => digest.add_refusal(why as u64),
            }
        }
    }
}

// Adds each row, and takes each second one out again.
fn add_and_take_out(
    digest: &mut Digest,
    column: &[Reduced64],
    slots: &mut [Slot],
    room: &mut [u64],
) {
    let mut total = Total::new(slots);
    for row in column {
        if let Err(why) = total.add(row) {
            digest.add_refusal(why as u64);
        }
    }
    for (i, row) in column.iter().enumerate() {
        if i % 2 == 0 {
            if let Err(why) = total.subtract(row) {
                digest.add_refusal(why as u64);
            }
        }
    }
    add_sum(digest, total.sum(room));
}

// The total of the products of two columns, such as shares and prices.
fn read_products(
    digest: &mut Digest,
    column: &[Reduced64],
    other: &[Reduced64],
    slots: &mut [Slot],
    room: &mut [u64],
) {
    match dot(column, other, slots) {
        Ok(total) => add_sum(digest, total.sum(room)),
        Err(why) => digest.add_refusal(why as u64),
    }
}

fn add_sum(digest: &mut Digest, sum: Result<Option<Reduced64>, ReadRefusal>) {
    match sum {
        Ok(sum) => digest.add_any(&sum),
        Err(why) => digest.add_refusal(why as u64),
    }
}

fn add_number(digest: &mut Digest, number: Result<Option<i64>, ReadRefusal>) {
    match number {
        Ok(number) => digest.add_number(number),
        Err(why) => digest.add_refusal(why as u64),
    }
}

fn add_float(digest: &mut Digest, x: Result<f64, ReadRefusal>) {
    match x {
        Ok(x) if x.is_nan() => digest.add(7),
        Ok(x) => digest.add(x.to_bits()),
        Err(why) => digest.add_refusal(why as u64),
    }
}
