//! The total of a bill, of which no sum on the way has to fit.
ghost use Rattle.std.specs.Prelude.{IfErr, IfOk, length};
ghost use Rattle.ratio_totals.specs.ListSums.{IsSumRefusedFor};
ghost use Rattle.ratio_totals.specs.Values.{ChecksReducedTerms, pair_of, sum_of_items};

use num_rational::Reduced64;
use ratio_slots::Slot;
use ratio_totals::{SumRefusal, checked_sum_in};

/// The total of a bill, or `Ok(None)` exactly where it does not fit in 64 bits. No sum on the way has to fit.
pub fn bill_total(
    amounts: &[Reduced64],
    slots: &mut [Slot],
    room: &mut [u64],
) -> Result<Option<Reduced64>, SumRefusal>
    ensures sum { IfOk result (λ sum. ChecksReducedTerms (sum_of_items pair_of amounts.now) sum) }
    ensures refused { IfErr result (IsSumRefusedFor pair_of amounts.now (length slots.old) (length room.old)) }
{
    checked_sum_in(amounts, slots, room)
}
