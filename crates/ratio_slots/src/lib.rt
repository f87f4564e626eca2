//! Slots, one for each denominator, with the sum of the numerators over it: what totals are made of, so that they lose nothing. The
//! caller gives the room. Fractions and whole tables go in and out again; a refusal changes nothing.
//!
//! 1/36 - 1/28 takes two slots, one for the denominator 36 and one for 28. Adding 5/36 changes one number: the first slot
//! then says 6/36. No gcd is computed, and no addition overflows.
//!
//! ```rattle
//! let mut slots = [Slot::EMPTY; 2];
//! assert!(rt; put_loose(&mut slots, 1, 36) == Ok(()));
//! assert!(rt; put_loose(&mut slots, -1, 28) == Ok(()));
//! assert!(rt; put_loose(&mut slots, 5, 36) == Ok(()));
//! assert!(rt; put_loose(&mut slots, 1, 12) == Err(LooseRefusal::MoreRoom));
//! // 6/36 - 1/28
//! assert!(rt; sum_of(&slots, &mut [7; 14]) == Ok(Some((11, 84))));
//! ```
//!
//! A read puts the sum over its common denominator: `read_slots`. `sum_of` returns it in lowest terms where these fit 64 bits, and
//! `mean_of` returns the mean. `compare_tables` and `sign_of` are exact where these do not fit.
//!
//! | Module | What is in it |
//! |---|---|
//! | `tally` | The struct `Tally`, which stands beside the slots of a total, and the enum `Refusal`: why the slots took nothing. |
//! | `slots` | The struct `Slot`, which holds a denominator and the sum of the numerators over it, and tables of slots: emptied, searched for a denominator, and counted. |
//! | `changes` | What goes into slots and out of them: one fraction, those of another table, all of a table that moves, and one fraction where the slots may hold anything. |
//! | `growth` | How a total grows: the length of its next table, and the slots that move there. |
//! | `common` | The slots of a table joined one after another: their common denominator, which is the least common multiple of the denominators, and the sums over it. |
//! | `reading` | Any slots read over their common denominator, in room that the caller gives, and how many digits that needs. |
//! | `short_sums` | Sums in machine numbers, where 128 bits are enough on the way: of a table, or of two fractions. |
//! | `lowest` | The sum and the mean of any slots, and of what a read left in the room, in lowest terms, where these fit 64 bits. |
//! | `rounding` | The sum of any slots rounded to a whole number, to a multiple of `1/parts` such as cents, and to the nearest float, and the room that this needs. |
//! | `decimal` | The sum of any slots as a decimal, and the room that this needs: in machine numbers where it is short, else from its bounds where both are rounded to the same number, and else from its common denominator. |
//! | `bounds` | Bounds of the sum of a table, in one pass: each quotient is cut to a whole number of parts of 1, and what is cut is counted. |
//! | `orders` | The sign of the sum of any slots, and the order of the sums of two lists of slots, such as those that a program in C hands over, from their difference. |
//! | `comparing` | The order of the sums of two tables, from their difference. |
//! | `joined` | The struct `Joined`: a read of a total in steps, and the reads of the numbers that the steps leave in the room. |
//! | `rooms` | Sums in rooms: no fraction or one as such a sum, one sum added to another one, taken out of it, moved to another room, or compared with another one. |
//! | `sums` | The struct `Sum`: the three numbers of a sum, found in its room, and exchanged where a sum goes out. |
//! | `wide_reads` | The reads of a sum in a room whose numbers have up to 128 bits: the fraction in lowest terms, divided by a count, and rounded to a multiple of `1/parts`. |
//! | `texts` | What the refusals of totals print. |
//! | `laws` | The laws of totals. |
#![tactic(auto)]

mod bounds;
mod changes;
mod common;
mod comparing;
mod decimal;
mod growth;
mod joined;
pub mod laws;
mod lowest;
mod orders;
mod reading;
mod rooms;
mod rounding;
mod short_sums;
mod slots;
mod sums;
mod tally;
mod texts;
mod wide_reads;

pub use changes::{LooseRefusal, merge_slots, move_slots, put, put_loose};
pub use comparing::{CompareRefusal, compare_tables};
pub use decimal::{decimal_bytes_of, decimal_digits_of, put_bounded_of, put_decimal_of};
pub use growth::{leave_zeros, next_length};
pub use joined::{JoinRefusal, Joined, NoSum};
pub use lowest::{mean_of, sum_of};
pub use orders::{OrderRefusal, digits_of_order, order_of, sign_of};
pub use reading::{MOST_DIGITS, OverCommon, ReadRefusal, digits_of_read, read_slots};
pub use rooms::AddRefusal;
pub use rounding::{digits_of_multiple, float_of, integer_of, multiple_of};
pub use short_sums::{add_short, short_pair};
pub use slots::{Slot, clear, count_free, find, numerator_in};
pub use tally::{MOST_WEIGHT, Refusal, Tally};
pub use wide_reads::WideFraction;
