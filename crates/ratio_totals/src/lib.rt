//! `Total` and `WideTotal`, which add up many fractions `Reduced` and lose nothing, and exact sums of lists, in room that the caller gives.
//!
//! A `Total<T>` takes fractions `Reduced<T>` over a type of at most 64 bits, and no step of it can fail to fit.
//! `Total::sum` returns a `Reduced<T>` where the sum fits, however large the totals on the way were: over `i8`,
//! 127/1 + 1/127 - 1/127 is 127/1.
//!
//! The same holds of a list, where `of` makes fractions over `i8`:
//!
//! ```rattle
//! let most = of(&rt, 127i8, 1);
//! let tiny = of(&rt, 1i8, 127);
//! let less = of(&rt, -1i8, 127);
//! assert_eq!(rt;
//!     checked_sum(rt.alloc(), &[most, tiny, less]),
//!     Ok(Some(most))
//! );
//! assert_eq!(rt; checked_sum(rt.alloc(), &[most, tiny]), Ok(None));
//! ```
//!
//! A `WideTotal<T>` takes fractions over any primitive type, also `i128` and `u128`. It is one sum over the common denominator, which has
//! as many digits as the caller gives.
//!
//! | Module | What is in it |
//! |---|---|
//! | `total` | The struct `Total`, a total of fractions over a type of at most 64 bits, which loses nothing: how it begins, counts, and moves to more slots. |
//! | `total_changes` | Fractions, products of two, lists of both and all of another total that go into a total and out of it. |
//! | `total_reads` | The reads of a total, and the room that each needs: the sum and the mean as fractions, a decimal, a whole number, a multiple of `1/parts` and a float, the sign, and the order of two totals or of a total and a fraction. |
//! | `list_sums` | The sum of a list of fractions that loses nothing, in room that the caller gives: quickly, or by a total. |
//! | `in_memory` | The sum of a list that loses nothing, with memory for the room that it needs. |
//! | `numbers` | The numbers of a fraction as totals take them, with a sign or as a sign and a magnitude, and back. |
//! | `short` | The trait `Short`: primitive types of at most 64 bits. |
//! | `wide_total` | The struct `WideTotal`, a total of fractions over any primitive type, which loses nothing: how it begins, counts, and moves to another room. |
//! | `wide_changes` | Fractions over any primitive type and products of two that go into a wide total, and out of it, one by one or all of another total. |
//! | `wide_reads` | The reads of a wide total: the sum and the mean as fractions, a whole number, a multiple of `1/parts`, a float and a decimal, the sign, and the order of two wide totals or of a wide total and a fraction. |
//! | `splitting` | An amount split by shares, whose sums, the marks, lie in a room that the caller gives. |
//! | `texts` | What the refusals of totals of fractions print. |
#![tactic(auto)]

mod in_memory;
mod list_sums;
mod numbers;
mod short;
mod splitting;
mod texts;
mod total;
mod total_changes;
mod total_reads;
mod wide_changes;
mod wide_reads;
mod wide_total;

pub use in_memory::{SumFailure, checked_sum};
pub use list_sums::{SumRefusal, checked_sum_in, checked_wide_sum_in};
pub use ratio_slots::{CompareRefusal, Joined, MOST_DIGITS, ReadRefusal, Refusal, Slot};
pub use short::Short;
pub use splitting::{RoomSplitRefusal, split_in};
pub use total::Total;
pub use total_changes::{DotRefusal, ProductRefusal, dot, total_of};
pub use wide_changes::{WideProductRefusal, WideRefusal, wide_total_of};
pub use wide_total::{ShortRoom, WideTotal};
