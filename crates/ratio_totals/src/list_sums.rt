//! The sum of a list of fractions that loses nothing, in room that the caller gives: quickly, or by a total.
ghost use Rattle.std.specs.Prelude.{◌<◌, ◌^◌, length, IfErr, IfOk, IfSome, OnOk};
ghost use Rattle.ratio_natural.specs.Number.{base};
ghost use Rattle.ratio_slots.specs.ShortSum.{IsShortSum};
ghost use Rattle.ratio_slots.specs.SumOrder.{HasShortCommon};
ghost use Rattle.ratio_totals.specs.ListSums.{IsSumRefusedFor, table_of};
ghost use Rattle.ratio_totals.specs.Values.{ChecksReducedTerms, pair_of, sum_of_items};
ghost use Rattle.ratio_totals.specs.WideSums.{HasSumRoom, IsWideSumRefusedFor};

use crate::numbers::{fraction, parts};
use crate::short::Short;
use crate::total_changes::total_of;
use crate::wide_changes::{WideRefusal, wide_total_of};
use crate::wide_total::ShortRoom;
use num_rational::Reduced;
use ratio_integer::Primitive;
use ratio_slots::{ReadRefusal, Refusal, Slot, add_short, short_pair};

/// Why a sum of a list was not computed.
#[derive(Clone, Copy, PartialEq, Eq, Debug)]
pub enum SumRefusal {
    /// The items have more denominators than there are slots.
    MoreSlots,
    /// The room has fewer numbers than a read of the total needs.
    MoreRoom,
    /// The items are more than 2^63 - 1.
    TooMany,
    /// The common denominator is 2^(2^20) or more.
    TooLong,
}

/// The sum of the items: 4/63 for 1/36 and 1/28, and 0/1 for no fraction. It is `None` exactly if its lowest terms do not fit the
/// type. No partial sum has to fit: over `i8`, 127/1 + 1/127 - 1/127 is 127/1.
///
/// If the common denominator has at most 64 bits, and no numerator over it more than 128, the call needs no room. Else it needs a
/// slot for each denominator, and numbers of room as `Total::sum` does. The slots and the room may have anything afterwards.
pub fn checked_sum_in<T: Short>(
    items: &[Reduced<T>],
    slots: &mut [Slot],
    room: &mut [u64],
) -> Result<Option<Reduced<T>>, SumRefusal>
    ensures sum { IfOk result (λ sum. ChecksReducedTerms (sum_of_items pair_of items.now) sum) }
    ensures refused { IfErr result (IsSumRefusedFor pair_of items.now (length slots.old) (length room.old)) }
{
    if let Some((numer, denom)) = quick_sum(items) {
        return Ok(reduced(numer, denom));
    }
    total_sum(items, slots, room)
}

/// The sum by a total.
pub(crate) fn total_sum<T: Short>(
    items: &[Reduced<T>],
    slots: &mut [Slot],
    room: &mut [u64],
) -> Result<Option<Reduced<T>>, SumRefusal>
    ensures sum { IfOk result (λ sum. ChecksReducedTerms (sum_of_items pair_of items.now) sum) }
    ensures refused { IfErr result (IsSumRefusedFor pair_of items.now (length slots.old) (length room.old)) }
{
    match total_of(items, slots) {
        Err(Refusal::MoreRoom) => Err(SumRefusal::MoreSlots),
        Err(Refusal::TooMany) => Err(SumRefusal::TooMany),
        Ok(total) => match total.sum(room) {
            Err(ReadRefusal::MoreRoom) => Err(SumRefusal::MoreRoom),
            Err(ReadRefusal::TooLong) => Err(SumRefusal::TooLong),
            Ok(sum) => Ok(sum),
        },
    }
}

/// The sum of the items over their common denominator, not reduced: 16/252 for 1/36 and 1/28. It is `None` if a number on the
/// way needs more than 128 bits, or if the common denominator is 2^64 or more.
pub(crate) fn quick_sum<T: Short>(items: &[Reduced<T>]) -> Option<(i128, u64)>
    ensures { IfSome result (λ sum. IsShortSum (table_of pair_of items.now) sum.0 sum.1) }
{
    let mut sum = 0;
    let mut common = 1;
    'adding: for x in items {
        let (numer, denom) = parts(x);
        let (new, next) = add_short(sum, common as u128, numer, denom)?;
        if next >= 1 << 64 {
            return None;
        }
        sum = new;
        common = next as u64;
    }
    Some((sum, common))
}

/// The lowest terms of the fraction, or `None` if they do not fit the type.
pub(crate) fn reduced<T: Short>(numer: i128, denom: u64) -> Option<Reduced<T>>
    requires { 0 < denom }
    ensures { ChecksReducedTerms (numer, denom) result }
{
    let (p, q) = short_pair(numer, denom as u128)?;
    fraction(p, q)
}

/// The sum of the items: 4/63 for 1/36 and 1/28, and 0/1 for no fraction. It is `None` exactly if its lowest terms do not fit the
/// type. Its rooms and its refusals are those of `wide_total_of`.
pub fn checked_wide_sum_in<T: Primitive>(
    items: &[Reduced<T>],
    digits: usize,
    room: &mut [u64],
    spare: &mut [u64],
) -> Result<Option<Reduced<T>>, WideRefusal>
    ensures sum { IfOk result (λ sum. ChecksReducedTerms (sum_of_items pair_of items.now) sum) }
    ensures rooms { OnOk result (HasSumRoom digits (length room.old) (length spare.old)) }
    ensures short { OnOk result (HasShortCommon (table_of pair_of items.now) (base ^ digits)) }
    ensures refused { IfErr result (IsWideSumRefusedFor pair_of items.now digits (length room.old) (length spare.old)) }
{
    let total = wide_total_of(items, digits, room, spare)?;
    match total.sum(spare) {
        Ok(sum) => Ok(sum),
        Err(ShortRoom) => unreachable!(),
    }
}
