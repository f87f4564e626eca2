//! The subject of a call by the first part of its name: `ratio_natural` of `ratio_natural::gcd_wide`.
use crate::{fields, naturals};
use rows::row::Calls;
use std::alloc::Global;
use std::fmt;

/// The calls of this program.
#[derive(Clone, Copy, Drop)]
pub struct Subjects;

impl Calls for Subjects {
    fn write_answer<W: fmt::Write>(
        &self,
        alloc: Global,
        name: &str,
        words: &str,
        f: &mut fmt::Formatter<W>,
    ) -> fmt::Result {
        let Some((subject, call)) = name.split_once("::") else {
            return f.write_str("bad row");
        };
        match subject {
            "ratio_natural" | "naturals" | "leading" => {
                naturals::write_answer(alloc, subject, call, words, f)
            }
            _ => fields::write_answer(alloc, subject, call, words, f),
        }
    }
}
