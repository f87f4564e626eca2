//! A row: its place, its call and its words.
//!
//! `sums.rows:12: Ratio::checked_add i64 1/2 1/3 = 5/6` is line 12 of a file. The place ends with the first `: `, and the answer is
//! behind the first ` = `. A text in quotes, which ends what is asked, may have a ` = ` of its own.
use std::alloc::Global;
use std::fmt;
use std::fmt::Display;

/// The calls that a program makes.
pub trait Calls {
    /// Makes the call with this name on these words, and writes its answer.
    fn write_answer<W: fmt::Write>(
        &self,
        alloc: Global,
        name: &str,
        words: &str,
        f: &mut fmt::Formatter<W>,
    ) -> fmt::Result;
}

/// A line of the input. It is written with the answer that its call returns now.
#[derive(Drop)]
pub struct Row<'a, C> {
    pub alloc: Global,
    pub line: &'a str,
    pub calls: C,
}

impl<C: Calls> Display for Row<'_, C> {
    fn fmt<W: fmt::Write>(&self, f: &mut fmt::Formatter<W>) -> fmt::Result {
        let asked = asked(self.line);
        write!(f, "{asked} = ")?;
        match call_of(asked) {
            Some((name, words)) => self.calls.write_answer(self.alloc, name, words, f),
            None => f.write_str("bad row"),
        }
    }
}

// What a row asks, as `sums.rows:12: Ratio::checked_add i64 1/2 1/3`.
fn asked(line: &str) -> &str {
    match line.split_once(" = ") {
        Some((asked, _)) if asked.contains('"') => match line.find("\" = ") {
            Some(at) => line.get(..=at).unwrap_or(line),
            None => line,
        },
        Some((asked, _)) => asked,
        None => line,
    }
}

// The name of the call and its words, as `Ratio::checked_add` and `i64 1/2 1/3`, of what a row asks.
fn call_of(asked: &str) -> Option<(&str, &str)> {
    let call = match asked.split_once(": ") {
        Some((_, call)) => call,
        None => asked,
    };
    call.split_once(' ')
}
