//! Calls of `ratio_slots` and `ratio_totals`, and splits.
//!
//! A row has the words of a total, then what the call takes behind ` in `, and then the rule behind ` by `:
//! `ratio_totals::Total::put_decimal i64 4 +1/36 +1/28 in 4 [7*64] x*400 by Down = "0.0634"`. The rule `each` stands for all six.
pub mod changes;
pub mod growth;
pub mod listed_slots;
pub mod lists;
pub mod numbers;
pub mod refusals;
pub mod rooms;
pub mod said;
pub mod short_totals;
pub mod sums;
pub mod wide_rooms;
pub mod wide_totals;

use num_rational::Rounding;
use std::alloc::Global;

/// What a row asks: the words before ` in `, those behind it, and the rule.
#[derive(Clone, Copy)]
pub struct Asked<'a> {
    pub alloc: Global,
    pub words: &'a str,
    pub args: &'a str,
    pub rule: Option<Rounding>,
}

/// The words before and behind the mark. There are none behind it if the mark is not there.
pub fn parted<'a>(words: &'a str, mark: &str) -> (&'a str, &'a str) {
    words.split_once(mark).unwrap_or((words, ""))
}
