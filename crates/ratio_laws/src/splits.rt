//! The laws of amounts split by shares or by weights. Each function changes nothing: its contract is the law, for the split that it is
//! given.
ghost use Rattle.num_rational.specs.Split.{IsSplitBy, share_numbers};
ghost use Rattle.num_rational.specs.Weights.{share_of};
ghost use Rattle.ratio_laws.specs.SplitLaws.{EqualSharesAreNear, EqualWeightsAreNear, MarksOfOneFit, SplitsAgree};

use num_rational::Reduced;
use ratio_integer::Integer;

/// Equal shares get parts that differ by at most 1.
pub fn equal_shares<T: Copy + Integer>(amount: T, shares: &[Reduced<T>], parts: &[T])
    ensures { IsSplitBy share_numbers T.value (T.value amount) shares.now parts.now
        → EqualSharesAreNear share_numbers T.value shares.now parts.now }
{}

/// Equal weights get parts that differ by at most 1.
pub fn equal_weights<T: Copy + Integer>(amount: T, weights: &[T], parts: &[T])
    ensures { IsSplitBy (share_of T.value weights.now) T.value (T.value amount) weights.now parts.now
        → EqualWeightsAreNear T.value T.value weights.now parts.now }
{}

/// Of shares that are not below 0 and add up to 1, each mark lies between 0 and the amount. So `split` refuses an amount with
/// `NotHeld` only where a sum of the first shares does not fit.
pub fn marks_of_one<T: Copy + Integer>(amount: T, shares: &[Reduced<T>])
    ensures { MarksOfOneFit share_numbers T.lo T.hi (T.value amount) shares.now }
{
    let _ = amount.held();
}

/// An amount has only one split by the same shares. So `ratio_totals::split_in` gives what `split` gives.
pub fn one_split<T: Copy + Integer>(amount: T, shares: &[Reduced<T>], parts: &[T], others: &[T])
    ensures { SplitsAgree share_numbers T.value (T.value amount) shares.now parts.now others.now }
{}
