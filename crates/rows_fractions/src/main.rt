//! A test program that makes the calls of its rows anew: on fractions (`Ratio`, `Reduced` and `BigFraction`), and on what a person types.
//!
//! | Module | What is in it |
//! |---|---|
//! | `big` | Calls of `BigFraction`. |
//! | `big::harmonic` | The sum of the fractions from 1/1 to 1/n. |
//! | `big::lists` | Lists of digits, slots and fractions: `[0,1]`, `[1/36,0/0]`, `[4,2,6]`. |
//! | `big::made` | Calls that make a fraction of texts, numbers, digits, floats and slots, and one that writes it behind a text. |
//! | `big::one` | Calls on one fraction. |
//! | `big::rules` | Calls with a rule of rounding. |
//! | `big::two` | Calls on two fractions, and powers. |
//! | `big::written` | Fractions of any size as rows write them: `-3/2`, and `9223372036854775808 long` where a number does not fit an `i64`. |
//! | `ratios` | Calls that `Ratio` and `Reduced` share, over the twelve types. |
//! | `ratios::lowest_terms` | The lowest terms of two fields, by every call that makes them. |
//! | `ratios::order` | The order of two fractions, by every call and operator that compares. |
//! | `ratios::texts` | Texts of fractions, read and written. |
//! | `reduced` | Calls of `Reduced`, and of the functions beside it that take lists of fractions or of numbers, over the twelve types. |
//! | `reduced::by_rule` | Calls that take a rule of rounding. |
//! | `reduced::casts` | A fraction over another type: `Reduced::cast i64 i8 1/127` has the type that it comes from first. |
//! | `reduced::floats` | The bits of the nearest floats, such as `0x3fd5555555555555` for 1/3, also of a `Ratio` that is not in lowest terms. |
//! | `reduced::lists` | Calls on a list, and lists as a row writes them: `[1,-2]`, `[1/2,1/3]`, `[]`. |
//! | `reduced::on_one` | Calls on one fraction: its whole part, all of its digits and its continued fraction. |
//! | `reduced::on_two` | Calls on two fractions, in each form: the right operand by value and by reference, and as a number if it is whole. |
//! | `reduced::read` | Calls that read a fraction: from a decimal, from what a person types, or from a float. |
//! | `reduced::splits` | Amounts split by shares or by weights. |
//! | `reduced::within` | The simplest fraction within two bounds: `>=1/3 <1/2` has 1/3 and all that is below 1/2, and `>5/2 any` all that is above 5/2. |
//! | `subjects` | The subject of a call by the first part of its name: `BigFraction` of `BigFraction::floor`. |
//! | `typed` | Calls of `ratio_expressions`: texts that a person types. |
//! | `typed::replies` | Replies to lines, in each form: `Both "7/12"`, `Decimal 4 "17/12"`. |
//! | `typed::texts` | Texts with escapes, as a row writes them. |
//! | `typed::trees` | The trees of texts. |
//! | `typed::values` | What texts are worth, and how their slashes are read. |
#![tactic(auto)]

mod big;
mod ratios;
mod reduced;
mod subjects;
mod typed;

use rows::row::Row;
use std::io;
use std::io::{BufRead, BufReader, BufWriter, Write};
use subjects::Subjects;

fn main(rt: HostRuntime) -> io::Result<()> {
    let mut out = BufWriter::new(rt.alloc(), io::writer(&rt))?;
    for line in BufReader::new(rt.alloc(), rt.reader())?.lines(rt.alloc()) {
        let line = line?;
        let row = Row {
            alloc: rt.alloc(),
            line: line.as_str(),
            calls: Subjects,
        };
        writeln!(out, "{row}")?;
    }
    out.flush()
}
