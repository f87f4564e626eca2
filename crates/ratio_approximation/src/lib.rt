//! Fractions near others, given by numerator and denominator: the nearest one with a bounded denominator, the simplest one between two
//! others, and the one with a given continued fraction.
//!
//! Calls with the type, the operands and what they return, as the tests write them:
//!
//! ```text
//! nearest::nearest i64 3141592653/1000000000 10 = 22/7
//! nearest::nearest i64 3141592653/1000000000 100 = 311/99
//! nearest::nearest i64 3141592653/1000000000 1000 = 355/113
//! simplest::simplest_between i8 1/3 1/2 = 2/5
//! ```
//!
//! | Module | What is in it |
//! |---|---|
//! | `nearest` | The nearest fraction whose denominator is at most a bound. |
//! | `nearest::neighbour` | A `Neighbour`: in the search for the nearest fraction, one close to it, the steps that bring two of them nearer, and which of two comes first. |
//! | `simplest` | The simplest fraction strictly between two fractions, and within two bounds. |
//! | `simplest::search` | The search for the simplest fraction, between two neighbours around both ends. |
//! | `simplest::side` | A `Side`: in the search for the simplest fraction, one on one side of both ends, the steps that bring two of them nearer, and the fraction beyond these steps. |
//! | `simplest::whole_between` | Whole numbers between two ends: the last one below an end, and the one nearest to 0. |
//! | `simplest::within` | The simplest fraction within two bounds. |
//! | `simplest::within::end` | An `End` of a range of fractions: a bound, or the type's least or greatest number in place of an open one. |
//! | `simplest::within::choice` | The simpler one of what was found within bounds and of an included end. |
//! | `from_quotients` | The fraction of a list of quotients, as a continued fraction has them, and whether a quotient can follow others. |
#![tactic(auto)]

pub mod from_quotients;
pub mod nearest;
pub mod simplest;
