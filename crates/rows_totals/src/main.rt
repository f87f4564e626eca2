//! A test program that makes the calls of its rows anew: on totals, and on lists that are added up or split.
//!
//! | Module | What is in it |
//! |---|---|
//! | `totals` | Calls of `ratio_slots` and `ratio_totals`, and splits. |
//! | `totals::growth` | Calls for a total that grows: in `12 4 6 in 100` 12 slots are taken, 4 more denominators come, the chance is 6, and there are at most 100 slots; `[1/36,0/28]` is a table. |
//! | `totals::listed_slots` | Calls of `ratio_slots` on lists of slots: `[1/36,0/0,1/28]` has an empty slot in its middle. |
//! | `totals::lists` | Lists, as a row writes them: digits `[7\*64]`, slots `[1/36,0/0]` and fractions `[1/2\*3,1/1..9]`. |
//! | `totals::numbers` | Whole numbers and fractions, as rows of totals write them: `-7/2`, or `1/2^64-59` and `-2^127` by a power of 2. |
//! | `totals::refusals` | What refusals of totals print where no other row has them: `ratio_slots::Refusal::fmt TooMany`. |
//! | `totals::rooms` | Calls of `ratio_slots::Joined`, which is a sum in a room: `2 1 [16,0\*3,252,0\*5]` has two fractions, one digit for the common denominator, and this room; `-1/36` is one fraction; `6 +1/36 -1/28` has six digits, and its fractions went in one by one. |
//! | `totals::said` | What calls of totals return, as rows write it. |
//! | `totals::short_totals` | Calls of `ratio_totals::Total`: `i8 4 +1/36 -1/28` is a total over `i8` with four slots. |
//! | `totals::changes` | Steps of a total: `+1/2` adds, `-1/2` takes out, `+1/2x2/3` adds a product. |
//! | `totals::sums` | Sums of lists, and splits: `i8 [1/36,1/28]` is a list, and `i64 100 [1/3\*3]` an amount with its shares. |
//! | `totals::wide_rooms` | Reads of a sum in a room whose numbers have up to 128 bits. |
//! | `totals::wide_totals` | Calls of `ratio_totals::WideTotal`: `i128 2 [7\*14] [7\*22] +1/36` is a total with two digits for its common denominator, in the first room; the second list has the spare digits. |
//! | `subjects` | The subject of a call by the first parts of its name: `ratio_totals::Total` of `ratio_totals::Total::put_decimal`. |
#![tactic(auto)]

mod subjects;
mod totals;

use rows::row::Row;
use std::io;
use std::io::{BufRead, BufReader, BufWriter, Write};
use subjects::Subjects;

fn main(rt: HostRuntime) -> io::Result<()> {
    let mut out = BufWriter::new(rt.alloc(), io::writer(&rt))?;
    for line in BufReader::new(rt.alloc(), rt.reader())?.lines(rt.alloc()) {
        let line = line?;
        let row = Row {
            alloc: rt.alloc(),
            line: line.as_str(),
            calls: Subjects,
        };
        writeln!(out, "{row}")?;
    }
    out.flush()
}
