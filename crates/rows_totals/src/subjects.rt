//! The subject of a call by the first parts of its name: `ratio_totals::Total` of `ratio_totals::Total::put_decimal`.
use crate::totals::{
    Asked, growth, listed_slots, parted, refusals, rooms, short_totals, sums, wide_totals,
};
use num_rational::Rounding;
use rows::notation::rule;
use rows::row::Calls;
use std::alloc::Global;
use std::fmt;

/// The calls of this program.
#[derive(Clone, Copy, Drop)]
pub struct Subjects;

impl Calls for Subjects {
    /// Makes the call by each rule that the row says.
    fn write_answer<W: fmt::Write>(
        &self,
        alloc: Global,
        name: &str,
        words: &str,
        f: &mut fmt::Formatter<W>,
    ) -> fmt::Result {
        let (words, name_of_rule) = parted(words, " by ");
        let (words, args) = parted(words, " in ");
        let mut asked = Asked {
            alloc,
            words,
            args,
            rule: rule(name_of_rule),
        };
        if name_of_rule != "each" {
            return write_one(name, asked, f);
        }
        for (i, &rule) in RULES.iter().enumerate() {
            if 0 < i {
                f.write_str(" ")?;
            }
            asked.rule = Some(rule);
            write_one(name, asked, f)?;
        }
        Ok(())
    }
}

const RULES: [Rounding; 6] = [
    Rounding::HalfAway,
    Rounding::HalfEven,
    Rounding::Down,
    Rounding::Up,
    Rounding::Floor,
    Rounding::Ceil,
];

fn write_one<W: fmt::Write>(
    name: &str,
    asked: Asked<'_>,
    f: &mut fmt::Formatter<W>,
) -> fmt::Result {
    match answer(name, asked) {
        Some(text) => f.write_str(text.as_str()),
        None => f.write_str("bad row"),
    }
}

fn answer(name: &str, asked: Asked<'_>) -> Option<String> {
    let (library, call) = name.split_once("::")?;
    let (about, method) = parted(call, "::");
    match (library, about) {
        (_, refusal) if method == "fmt" => refusals::answer(refusal, asked),
        ("ratio_slots", "Joined") => rooms::answer(method, asked),
        ("ratio_slots", "numerator_in") => short_totals::answer(about, asked),
        ("ratio_slots", "next_length" | "leave_zeros") => growth::answer(about, asked),
        ("ratio_slots", call) => listed_slots::answer(call, asked),
        (_, "Total") => short_totals::answer(method, asked),
        (_, "WideTotal") => wide_totals::answer(method, asked),
        (_, "dot" | "total_of") => short_totals::answer(about, asked),
        (_, call) => sums::answer(call, asked),
    }
}
