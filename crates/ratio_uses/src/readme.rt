//! The functions that `docs/CALLING.md` shows first: the total of shares, a third of a text's fraction, and the faster
//! rate.
ghost use Rattle.std.specs.Prelude.{◌≡◌};
ghost use Rattle.num_rational.specs.Comparison.{order_of};
ghost use Rattle.num_rational.specs.Folds.{ChecksExactSumOf};
ghost use Rattle.num_rational.specs.Reduced.{lowest_numbers, ratio_in, ratio_of};
ghost use Rattle.ratio_uses.specs.Callers.{ReadsThird};

use num_rational::{ParseRatioError, Reduced64};
use std::cmp::Ordering;

/// The total of the shares, or `None` exactly where a sum on the way does not fit.
pub fn total(shares: &[Reduced64]) -> Option<Reduced64>
    ensures { ChecksExactSumOf lowest_numbers shares.now (ratio_in result) }
{
    let mut sum = Reduced64::zero();
    for share in shares {
        sum = sum.checked_add(share)?;
    }
    Some(sum)
}

/// A third of the fraction in a text, or `None` exactly where that does not fit. An error exactly where `from_str`
/// refuses the text.
pub fn third_of(text: &str) -> Result<Option<Reduced64>, ParseRatioError>
    ensures { ReadsThird text.now result }
{
    let whole = Reduced64::from_str(text)?;
    Ok(whole.checked_div(3))
}

/// The order of two rates: `Less` where the left one is the slower. No product overflows.
pub fn faster(left: &Reduced64, right: &Reduced64) -> Ordering
    ensures { result ≡ order_of (ratio_of left.now) (ratio_of right.now) }
{
    left.cmp(right)
}
