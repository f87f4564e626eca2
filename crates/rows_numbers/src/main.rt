//! A test program that makes the calls of its rows anew: on integers, on the fields of fractions, and on natural numbers of any length.
//!
//! | Module | What is in it |
//! |---|---|
//! | `fields` | Calls on integers and on the fields of fractions: those of `ratio_integer`, `ratio_core`, `ratio_approximation` and `ratio_decimal`, over the twelve types. |
//! | `fields::approximations` | The nearest fraction, and the simplest one between two or within bounds. |
//! | `fields::decimals` | Fractions rounded by a rule, decimals and floats. |
//! | `fields::integers` | The calls of `Integer` and `Primitive`. |
//! | `fields::list_of_codes` | The codes by which a fraction is hashed, kept in a list. |
//! | `fields::order` | The order of two fractions by all three comparisons, the codes of one, and the divisions that both stand on. |
//! | `fields::reducing` | Lowest terms of one fraction and of two. |
//! | `fields::rounding` | The whole numbers of a fraction, and what is left of it without them. |
//! | `fields::signed` | Calls on signs, and those of `SignedInteger`, over the six types with negative numbers. |
//! | `fields::sums` | Sums, differences, products, quotients, remainders and powers of the fields of fractions, and the parts of these calls. |
//! | `fields::texts` | Fields as texts, and texts as fields. |
//! | `naturals` | Calls on natural numbers of any length, by their digits: those of `ratio_natural`, and those of `ratio_decimal` on their fractions. |
//! | `naturals::digits` | Natural numbers by their digits of 64 bits, the lowest one first: `[0,1]` is 2^64. |
//! | `naturals::floats` | The floats nearest to fractions of long numbers, by their bits. |
//! | `naturals::one_number` | Calls on a number and one or two digits. |
//! | `naturals::rounding` | Fractions of long numbers rounded to whole numbers. |
//! | `naturals::texts` | Numbers and fractions as decimal texts, and texts as numbers. |
//! | `naturals::two_numbers` | Calls on two numbers, and on two numbers and a digit. |
//! | `subjects` | The subject of a call by the first part of its name: `ratio_natural` of `ratio_natural::gcd_wide`. |
#![tactic(auto)]

mod fields;
mod naturals;
mod subjects;

use rows::row::Row;
use std::io;
use std::io::{BufRead, BufReader, BufWriter, Write};
use subjects::Subjects;

fn main(rt: HostRuntime) -> io::Result<()> {
    let mut out = BufWriter::new(rt.alloc(), io::writer(&rt))?;
    for line in BufReader::new(rt.alloc(), rt.reader())?.lines(rt.alloc()) {
        let line = line?;
        let row = Row {
            alloc: rt.alloc(),
            line: line.as_str(),
            calls: Subjects,
        };
        writeln!(out, "{row}")?;
    }
    out.flush()
}
