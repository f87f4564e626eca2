//! A file of lines is answered.
use crate::digest::Digest;
use crate::made::Made;
use ratio_lines::calculator::run as answer;
use ratio_lines::counted::Counted;
use std::alloc::{AllocError, Global};

/// So many files, each of so many lines.
pub(crate) fn run(
    alloc: Global,
    made: &mut Made,
    count: u32,
    lines: u32,
) -> Result<u64, AllocError> {
    let mut digest = Digest::new();
    for _ in 0..count {
        let file = made_file(alloc, made, lines)?;
        let mut reader = Counted::new(file.as_slice());
        let mut writer = Counted::new(Vec::new(alloc));
        match answer(&mut reader, &mut writer) {
            Ok(()) => digest.add(1),
            Err(why) => digest.add_refusal(why as u64),
        }
        digest.add_bytes(writer.into_inner().as_slice());
    }
    Ok(digest.value())
}

/// Operands of the lines of one file. To make each anew would take as long as to answer it.
#[derive(Drop)]
struct Operands {
    /// Fractions of up to two digits a number.
    short: Vec<Vec<u8>>,
    /// Fractions of up to 18 digits a number.
    long: Vec<Vec<u8>>,
}

fn made_file(alloc: Global, made: &mut Made, lines: u32) -> Result<Vec<u8>, AllocError> {
    let operands = Operands {
        short: made_operands(alloc, made, 1000, 2)?,
        long: made_operands(alloc, made, 1000, 18)?,
    };
    let mut file = Vec::new(alloc);
    for _ in 0..lines {
        put_line(made, &operands, &mut file)?;
    }
    Ok(file)
}

fn made_operands(
    alloc: Global,
    made: &mut Made,
    count: u32,
    digits: u64,
) -> Result<Vec<Vec<u8>>, AllocError> {
    let mut operands = Vec::new(alloc);
    for _ in 0..count {
        let mut operand = Vec::new(alloc);
        let most = made.below(digits.max(1)) as usize + 1;
        put_fraction(made, &mut operand, most)?;
        operands.push(operand)?;
    }
    Ok(operands)
}

// A line of a bill, a plain one, a chain, a refusal, or now and then an awkward one.
fn put_line(made: &mut Made, operands: &Operands, file: &mut Vec<u8>) -> Result<(), AllocError> {
    match made.below(100) {
        0..=39 => put_terms(made, &operands.short, file, 1)?,
        40..=79 => put_terms(made, &operands.long, file, 1)?,
        80..=96 => {
            let count = made.below(12) + 2;
            put_terms(made, &operands.short, file, count)?;
        }
        97..=98 => put_refusal(made, file)?,
        _ => put_awkward(made, file)?,
    }
    file.push(b'\n')?;
    Ok(())
}

// An operand, and so many times an operator and an operand.
fn put_terms(
    made: &mut Made,
    operands: &Vec<Vec<u8>>,
    file: &mut Vec<u8>,
    count: u64,
) -> Result<(), AllocError> {
    put_operand(made, operands, file)?;
    for _ in 0..count {
        put_operator(made, file)?;
        put_operand(made, operands, file)?;
    }
    Ok(())
}

fn put_operand(
    made: &mut Made,
    operands: &Vec<Vec<u8>>,
    file: &mut Vec<u8>,
) -> Result<(), AllocError> {
    match operands.get((made.any() % 1000) as usize) {
        Some(operand) => file.extend_from_slice(operand.as_slice()),
        None => Ok(()),
    }
}

// A denominator of 0, or a product that does not fit.
fn put_refusal(made: &mut Made, file: &mut Vec<u8>) -> Result<(), AllocError> {
    put_number(made, file, 18)?;
    if made.below(2) == 0 {
        file.extend_from_slice(b"/0 + 1")?;
        return Ok(());
    }
    file.extend_from_slice(b"7 * ")?;
    put_number(made, file, 18)
}

// Leading zeros, up to a line of 1,000 bytes.
fn put_awkward(made: &mut Made, file: &mut Vec<u8>) -> Result<(), AllocError> {
    for _ in 0..made.below(62) {
        file.extend_from_slice(b"0000000000000000")?;
    }
    put_fraction(made, file, 2)?;
    file.extend_from_slice(b" cmp 1/3")
}

fn put_operator(made: &mut Made, file: &mut Vec<u8>) -> Result<(), AllocError> {
    match made.below(9) {
        0..=2 => file.extend_from_slice(b" + "),
        3..=4 => file.extend_from_slice(b" - "),
        5..=7 => file.extend_from_slice(b" * "),
        _ => file.extend_from_slice(b" / "),
    }
}

// A whole number now and then. One in eight is below 0.
fn put_fraction(made: &mut Made, file: &mut Vec<u8>, digits: usize) -> Result<(), AllocError> {
    let kind = made.below(32);
    if kind % 8 == 0 {
        file.push(b'-')?;
    }
    put_number(made, file, digits)?;
    if kind < 24 {
        file.push(b'/')?;
        put_number(made, file, digits)?;
    }
    Ok(())
}

// A number above 0 of up to so many decimal digits, at most 18.
fn put_number(made: &mut Made, file: &mut Vec<u8>, most: usize) -> Result<(), AllocError> {
    let mut left = made.below(most.clamp(1, 18) as u64) as usize + 1;
    let mut digits = eight_digits(made.any());
    if digits[0] == b'0' {
        digits[0] = b'7';
    }
    for _ in 0..3 {
        let count = left.min(8);
        file.extend_from_slice(&digits[..count])?;
        left -= count;
        if left == 0 {
            break;
        }
        digits = eight_digits(made.any());
    }
    Ok(())
}

// Each byte of the word as a decimal digit.
fn eight_digits(word: u64) -> [u8; 8] {
    let low = word & 0x0707_0707_0707_0707;
    let more = (word >> 3) & 0x0101_0101_0101_0101;
    let last = (word >> 4) & 0x0101_0101_0101_0101;
    low.wrapping_add(more)
        .wrapping_add(last)
        .wrapping_add(0x3030_3030_3030_3030)
        .to_le_bytes()
}
