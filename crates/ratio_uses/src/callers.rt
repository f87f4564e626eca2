//! Callers of `Reduced`: the greatest amount, the mean of two, and places between, before and after others.
ghost use Rattle.std.specs.Prelude.{◌≡◌, ◌≢◌, ◌↔◌, [], All, IfSome};
ghost use Rattle.std.specs.List.{Contains};
ghost use Rattle.std.specs.declared.cmp.Ordering.TheVariants.{Greater};
ghost use Rattle.std.specs.declared.ops.Bound.TheVariants.{Excluded, Unbounded};
ghost use Rattle.num_rational.specs.Bounds.{ChecksSimplestWithinBounds};
ghost use Rattle.num_rational.specs.Comparison.{order_of};
ghost use Rattle.num_rational.specs.In64Bits.{ChecksMean};
ghost use Rattle.num_rational.specs.Reduced.{ChecksSimplestBetween, lowest_numbers, ratio_of};

use num_rational::Reduced64;
use std::ops::Bound;

/// The greatest amount, or `None` exactly where there is no amount.
pub fn greatest(amounts: &[Reduced64]) -> Option<Reduced64>
    ensures none { (result ≡ None) ↔ (amounts.now ≡ []) }
    ensures one_of_them { IfSome result (λ most. Contains amounts.now most) }
    ensures none_above { IfSome result (λ most. All (λ amount. order_of (ratio_of amount) (ratio_of most) ≢ Greater) amounts.now) }
{
    amounts.iter().copied().max()
}

/// The mean of two amounts, or `None` exactly where their sum or its half does not fit in 64 bits.
pub fn mean(left: &Reduced64, right: &Reduced64) -> Option<Reduced64>
    ensures { ChecksMean (lowest_numbers left.now) (lowest_numbers right.now) result }
{
    left.checked_add(right)?.checked_div(2)
}

/// The place of a new item between two others, in an order that a user arranges. No other place changes. `None` exactly where
/// 64 bits hold no fraction between the two.
pub fn place_between(before: &Reduced64, after: &Reduced64) -> Option<Reduced64>
    ensures { ChecksSimplestBetween before.now after.now result }
{
    Reduced64::simplest_between(before, after)
}

/// The place of a new item after the last one. `None` exactly where 64 bits hold no fraction above it.
pub fn place_after(last: &Reduced64) -> Option<Reduced64>
    ensures { ChecksSimplestWithinBounds (Excluded (lowest_numbers last.now)) Unbounded result }
{
    Reduced64::simplest_within(Bound::Excluded(*last), Bound::Unbounded)
}

/// The place of a new item before the first one. `None` exactly where 64 bits hold no fraction below it.
pub fn place_before(first: &Reduced64) -> Option<Reduced64>
    ensures { ChecksSimplestWithinBounds Unbounded (Excluded (lowest_numbers first.now)) result }
{
    Reduced64::simplest_within(Bound::Unbounded, Bound::Excluded(*first))
}
