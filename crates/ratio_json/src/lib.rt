//! `BigFraction` as JSON, as people and JavaScript read it: a list of two whole numbers, `[-1,3]`.
//!
//! Most programs read a JSON number as a float, which has room for each whole number up to 2^53. So a number beyond 2^53 is written as a
//! text: `[1,"18446744073709551616"]`.
//!
//! For the text `-1/3` this writes `[-1,3]`:
//!
//! ```rattle
//! let Ok(fraction) = BigFraction::from_str(alloc, text)? else {
//!     return Ok(false);
//! };
//! let value = to_json(alloc, &fraction)?;
//! let json = value.to_string(alloc)?;
//! ```
//!
//! | Module | What is in it |
//! |---|---|
//! | `writing` | The JSON value of a fraction. |
//! | `reading` | The fraction of a JSON value, from the numbers or texts of a list of two. |
//! | `integers` | The whole numbers that JSON values are, and which values are none. |
//! | `laws` | The law that what is written reads back as the same fraction. |
//! | `tests` | Rows of JSON values, from outside: 2^53 is 9007199254740992, and 2^64 is 18446744073709551616. |
#![tactic(auto)]

mod integers;
pub mod laws;
mod reading;
#[cfg(test)]
mod tests;
mod writing;

pub use reading::from_json;
pub use writing::to_json;
