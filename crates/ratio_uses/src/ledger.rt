//! A rent split among tenants by their days, over the library's `split` and `split_by_weights`, so that no cent is lost.
mod cents;

ghost use Rattle.std.specs.Prelude.{◌≡◌, length, IfErr, OnErr, OnOk};
ghost use Rattle.ratio_integer.specs.SignedBits.{greatest64, least64};
ghost use Rattle.num_rational.specs.Split.{IsSplitBy};
ghost use Rattle.num_rational.specs.Weights.{CanSplitByWeights, RefusesWeights, share_of};

pub use cents::{Refusal, in_cents, split_to};
use num_rational::{WeightRefusal, split_by_weights};

/// What each tenant owes of a rent in whole cents, by the days that each was there: of 1000.00, for 10, 10 and 11 days,
/// 322.58, 322.58 and 354.84. The parts add up to the rent. At a refusal no part has changed.
pub fn rent(cents: i64, days: &[i64], owed: &mut [i64]) -> Result<(), WeightRefusal>
    ensures ok { OnOk result (CanSplitByWeights (λ n. n) least64 greatest64 days.now (length owed.old)
        × IsSplitBy (share_of (λ n. n) days.now) (λ n. n) cents days.now owed.new) }
    ensures refused { IfErr result (λ why. RefusesWeights (λ n. n) least64 greatest64 days.now (length owed.old) why) }
    ensures unchanged { OnErr result (owed.new ≡ owed.old) }
{
    split_by_weights(cents, days, owed)
}
