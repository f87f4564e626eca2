//! The subject of a call by the first part of its name: `BigFraction` of `BigFraction::floor`.
use crate::ratios::Ratios;
use crate::reduced::ReducedCalls;
use crate::{big, typed};
use rows::row::Calls;
use rows::types;
use std::alloc::Global;
use std::fmt;

/// The calls of this program.
#[derive(Clone, Copy, Drop)]
pub struct Subjects;

impl Calls for Subjects {
    fn write_answer<W: fmt::Write>(
        &self,
        alloc: Global,
        name: &str,
        words: &str,
        f: &mut fmt::Formatter<W>,
    ) -> fmt::Result {
        let Some((subject, call)) = name.split_once("::") else {
            return f.write_str("bad row");
        };
        match subject {
            "Both" => types::write_answer(&Ratios, alloc, call, words, f),
            "Ratio" => types::write_answer(&ReducedCalls, alloc, name, words, f),
            "BigFraction" => big::write_answer(alloc, call, words, f),
            "expr" | "replies" => typed::write_answer(alloc, call, words, f),
            _ => types::write_answer(&ReducedCalls, alloc, call, words, f),
        }
    }
}
