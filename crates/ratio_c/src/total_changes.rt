//! The calls for C that change a total: fractions go in or out, and so do the slots of another total; and for one that grows, the length of
//! its next table, and the slots that move there.
ghost use Rattle.std.specs.Prelude.{◌+◌};
ghost use Rattle.ratio_slots.specs.Growth.{LeavesZeros, SumStays, length_by};
ghost use Rattle.ratio_slots.specs.TotalLaws.{SameNumerators};
ghost use Rattle.ratio_c.specs.Totals.{ChangesOne, GoUntil, IsLengthWithin, Merges, piece_of_fraction};

use crate::numbers64::Fraction64;
use crate::totals::{Total64, Way, gather, pour};
use ratio_slots::{Slot, leave_zeros, next_length};

/// The fractions go into the total.
#[unsafe(no_mangle)]
pub extern "C" fn ratio_total_add_i64(
    asked: &[Fraction64],
    total: &mut [Total64],
    slots: &mut [Slot],
) -> u32
    ensures { ChangesOne (GoUntil piece_of_fraction Way.In asked.now) total.old total.new slots.old slots.new result }
{
    gather(Way::In, asked, total, slots)
}

/// The fractions go out of the total.
#[unsafe(no_mangle)]
pub extern "C" fn ratio_total_subtract_i64(
    asked: &[Fraction64],
    total: &mut [Total64],
    slots: &mut [Slot],
) -> u32
    ensures { ChangesOne (GoUntil piece_of_fraction Way.Out asked.now) total.old total.new slots.old slots.new result }
{
    gather(Way::Out, asked, total, slots)
}

/// The slots and the count of another total go into the total.
#[unsafe(no_mangle)]
pub extern "C" fn ratio_total_merge_i64(
    asked: &[Slot],
    count: i64,
    total: &mut [Total64],
    slots: &mut [Slot],
) -> u32
    ensures { ChangesOne (Merges Way.In asked.now count) total.old total.new slots.old slots.new result }
{
    pour(Way::In, asked, count, total, slots)
}

/// The slots and the count of another total go out of the total. A slot with the numerator -2^127 cannot go out, unless it is empty.
#[unsafe(no_mangle)]
pub extern "C" fn ratio_total_unmerge_i64(
    asked: &[Slot],
    count: i64,
    total: &mut [Total64],
    slots: &mut [Slot],
) -> u32
    ensures { ChangesOne (Merges Way.Out asked.now count) total.old total.new slots.old slots.new result }
{
    pour(Way::Out, asked, count, total, slots)
}

/// How many slots the next table of a total has; 0 where it would have more than `most`.
#[unsafe(no_mangle)]
pub extern "C" fn ratio_total_next_length_i64(taken: u64, more: u64, chance: u64, most: u64) -> u64
    ensures { IsLengthWithin most (length_by (taken + more) chance) result }
{
    match next_length(taken, more, chance, most) {
        Some(length) => length,
        None => 0,
    }
}

/// Leaves out the fractions that are 0, moves the others to the front, and returns how many these are.
#[unsafe(no_mangle)]
pub extern "C" fn ratio_total_leave_zeros_i64(slots: &mut [Slot]) -> u64
    ensures left { LeavesZeros slots.old slots.new result }
    ensures numerators { SameNumerators slots.old slots.new }
    ensures sum { SumStays slots.old slots.new }
{
    leave_zeros(slots) as u64
}
