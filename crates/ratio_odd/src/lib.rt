//! Integer types for tests, which meet the laws of `Integer` and are not primitive: three small ranges, and the numbers of `i8` with
//! counted divisions.
//!
//! | Module | What is in it |
//! |---|---|
//! | `sym5` | `Sym5`, a type whose least number is the negative of its greatest one. |
//! | `nat2` | `Nat2`, the smallest lawful type. |
//! | `two3` | `Two3`, the smallest type whose least number has no negative. |
//! | `watch8` | `Watched`, a type that counts how often its numbers are divided, and how often they are added or subtracted. |
#![tactic(auto)]

mod nat2;
mod sym5;
mod two3;
mod watch8;

pub use nat2::Nat2;
pub use sym5::Sym5;
pub use two3::Two3;
pub use watch8::{Counter, HalvedWatch8, Halving, Watch8, Watched};
