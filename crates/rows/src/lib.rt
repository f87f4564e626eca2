//! Reading and writing rows of tests, which are calls of the libraries with their answers, as data. The programs `rows_numbers`,
//! `rows_fractions` and `rows_totals` read rows, make each call anew, and write the row with the answer that they got. So their output is
//! their input if each row is right.
//!
//! | Module | What is in it |
//! |---|---|
//! | `answer` | What a call returned, as a row writes it. |
//! | `row` | A row: its place, its call and its words. |
//! | `types` | Calls over the type that a row names: `i64` of `Ratio::checked_add i64 1/2 1/3`. |
//! | `notation` | Numbers, fractions, lists and texts, as a row writes them: `-7`, `-7/2`, `[1/2,1/3]`, `"1 1/2"`. |
#![tactic(auto)]

pub mod answer;
pub mod notation;
pub mod row;
pub mod types;
