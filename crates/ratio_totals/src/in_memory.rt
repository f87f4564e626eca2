//! The sum of a list that loses nothing, with memory for the room that it needs.
ghost use Rattle.std.specs.Fmt.{padded};
ghost use Rattle.std.specs.Prelude.{◌≡◌, IfErr, IfOk, Some};
ghost use Rattle.ratio_totals.specs.Failures.{IsSumFailureFor, sum_failure_text};
ghost use Rattle.ratio_totals.specs.ListSums.{IsSumRefusedFor, digits_for};
ghost use Rattle.ratio_totals.specs.Values.{ChecksReducedTerms, pair_of, sum_of_items};

use crate::list_sums::{SumRefusal, quick_sum, reduced, total_sum};
use crate::short::Short;
use num_rational::Reduced;
use ratio_slots::{MOST_DIGITS, Slot};
use std::alloc::{AllocError, Global};
use std::error::Error;
use std::fmt;

/// Why a sum of a list was not computed, where the call takes memory.
#[derive(Clone, Copy, PartialEq, Eq, Debug)]
pub enum SumFailure {
    /// An allocation failed.
    NoMemory,
    /// The items are more than 2^63 - 1.
    TooMany,
    /// The common denominator is 2^(2^20) or more.
    TooLong,
}

impl fmt::Display for SumFailure {
    ghost output = { λ why. Some (sum_failure_text why) };

    ghost styled_output = { λ why options. Some (padded options (sum_failure_text why)) };

    fn fmt<W: fmt::Write>(&self, f: &mut fmt::Formatter<W>) -> fmt::Result {
        f.pad(match self {
            SumFailure::NoMemory => "an allocation failed",
            SumFailure::TooMany => "the items are more than 2^63 - 1",
            SumFailure::TooLong => "the common denominator is not below 2^(2^20)",
        })
    }
}

/// The most slots of the first try. Few lists have more denominators.
const FEW_SLOTS: usize = 1024;

/// The sum of the items: 4/63 for 1/36 and 1/28, and 0/1 for no fraction. It is `None` exactly if its lowest terms do not fit the
/// type. No partial sum has to fit: over `i8`, 127/1 + 1/127 - 1/127 is 127/1.
///
/// If the common denominator has at most 64 bits, and no numerator over it more than 128, the call takes no memory. `NoMemory` means
/// that an allocation failed, which no contract can say.
pub fn checked_sum<T: Short>(
    alloc: Global,
    items: &[Reduced<T>],
) -> Result<Option<Reduced<T>>, SumFailure>
    ensures sum { IfOk result (λ sum. ChecksReducedTerms (sum_of_items pair_of items.now) sum) }
    ensures failed { IfErr result (IsSumFailureFor pair_of items.now) }
{
    if let Some((numer, denom)) = quick_sum(items) {
        return Ok(reduced(numer, denom));
    }
    // A slot for each item and as many empty ones are enough: more would only cost time.
    let count = items.len().saturating_mul(2).min(FEW_SLOTS);
    match sum_with(alloc, items, count) {
        Err(_) => Err(SumFailure::NoMemory),
        Ok(Ok(sum)) => Ok(sum),
        Ok(Err(SumRefusal::TooMany)) => Err(SumFailure::TooMany),
        Ok(Err(SumRefusal::TooLong)) => Err(SumFailure::TooLong),
        Ok(Err(SumRefusal::MoreSlots)) => sum_of_many(alloc, items),
        Ok(Err(SumRefusal::MoreRoom)) => sum_of_many(alloc, items),
    }
}

// The sum by a total that has a slot for each item, even if each has a denominator of its own. As many again are empty, so that
// no search is long.
fn sum_of_many<T: Short>(
    alloc: Global,
    items: &[Reduced<T>],
) -> Result<Option<Reduced<T>>, SumFailure>
    ensures sum { IfOk result (λ sum. ChecksReducedTerms (sum_of_items pair_of items.now) sum) }
    ensures failed { IfErr result (IsSumFailureFor pair_of items.now) }
{
    match sum_with(alloc, items, items.len().saturating_mul(2)) {
        Err(_) => Err(SumFailure::NoMemory),
        Ok(Ok(sum)) => Ok(sum),
        Ok(Err(SumRefusal::TooMany)) => Err(SumFailure::TooMany),
        Ok(Err(SumRefusal::TooLong)) => Err(SumFailure::TooLong),
        Ok(Err(SumRefusal::MoreSlots)) => unreachable!(),
        Ok(Err(SumRefusal::MoreRoom)) => unreachable!(),
    }
}

// The sum by a total with so many slots. The error means that an allocation failed.
fn sum_with<T: Short>(
    alloc: Global,
    items: &[Reduced<T>],
    count: usize,
) -> Result<Result<Option<Reduced<T>>, SumRefusal>, AllocError>
    ensures sum { IfOk result (λ said. IfOk said (λ sum. ChecksReducedTerms (sum_of_items pair_of items.now) sum)) }
    ensures refused { IfOk result (λ said. IfErr said (IsSumRefusedFor pair_of items.now count (digits_for count))) }
{
    let mut room = vec![in alloc; 0u64; room_for(count)]?;
    let mut slots = vec![in alloc; Slot::EMPTY; count]?;
    Ok(total_sum(items, slots.as_mut_slice(), room.as_mut_slice()))
}

// The numbers of room for a read of so many denominators.
fn room_for(count: usize) -> usize
    ensures { result ≡ digits_for count }
{
    4 * count.min(MOST_DIGITS).max(1) + 6
}

impl Error for SumFailure {}
