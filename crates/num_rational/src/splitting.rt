//! An amount split by shares (the trait `Share`) or by weights, so that nothing is lost: at marks, which are the amount times the sums of
//! the first shares, rounded.
ghost use Rattle.std.specs.Prelude.{◌≡◌, ◌↔◌, ◌≤◌, ◌<ℤ◌, ◌≤ℤ◌, ◌*ℤ◌, length, pos, take, IfErr, IfSome, IsTrue, MatchResult, OnErr, OnOk, Some, ℤ};
ghost use Rattle.std.specs.Fmt.{padded};
ghost use Rattle.ratio_integer.specs.Arithmetic.{sum_of};
ghost use Rattle.ratio_integer.specs.Fraction.{IsLowestTermsOf, SameValue};
ghost use Rattle.ratio_integer.specs.Range.{Checks};
ghost use Rattle.ratio_core.specs.Rounding.{IsRounded};
ghost use Rattle.num_rational.specs.Common.{AreSharesOver, FirstMarksFit, IsPartOver, IsSumOver, IsTotalOver};
ghost use Rattle.num_rational.specs.Split.{CanBeSplit, ChecksNextMark, IsSplitBy, MarksFit, NoShareIsBelowZero, RefusesToSplit, SharesMakeOne, SharesOverPositive, SumsRefuse, share_numbers, split_refusal_text, total_of, total_of_shares};
ghost use Rattle.num_rational.specs.Weights.{CanSplitByWeights, NoWeightIsBelowZero, RefusesWeights, share_of, weight_refusal_text};

use crate::reduced::Reduced;
use ratio_core::sign::is_below_zero;
use ratio_decimal::rounded_product;
use ratio_decimal::rounding_rule::Rounding;
use ratio_integer::{Integer, both_held, lowest_terms};
use std::error::Error;
use std::fmt;

/// Why an amount is not split: the first of these that applies.
#[derive(Clone, Copy, Debug, PartialEq)]
pub enum SplitRefusal {
    /// The number of parts is not the number of shares.
    Length,
    /// A share is below 0.
    BelowZero,
    /// A sum of the first shares does not fit the type, or the amount times such a sum, rounded.
    NotHeld,
    /// The shares do not add up to 1.
    NotOne,
}

impl fmt::Display for SplitRefusal {
    ghost output = { λ why. Some (split_refusal_text why) };

    ghost styled_output = { λ why options. Some (padded options (split_refusal_text why)) };

    fn fmt<W: fmt::Write>(&self, f: &mut fmt::Formatter<W>) -> fmt::Result {
        f.pad(match self {
            SplitRefusal::Length => "the number of parts is not the number of shares",
            SplitRefusal::BelowZero => "a share is below 0",
            SplitRefusal::NotHeld => {
                "a sum of the first shares, or the amount times this sum, rounded, does not fit the type"
            }
            SplitRefusal::NotOne => "the shares do not add up to 1",
        })
    }
}

impl Error for SplitRefusal {}

/// Why an amount is not split by weights: the first of these that applies.
#[derive(Clone, Copy, Debug, PartialEq)]
pub enum WeightRefusal {
    /// The number of parts is not the number of weights.
    Length,
    /// A weight is below 0.
    BelowZero,
    /// The sum of the weights does not fit the type.
    NotHeld,
    /// The weights add up to 0. Those of an empty list do, too.
    AllZero,
}

impl fmt::Display for WeightRefusal {
    ghost output = { λ why. Some (weight_refusal_text why) };

    ghost styled_output = { λ why options. Some (padded options (weight_refusal_text why)) };

    fn fmt<W: fmt::Write>(&self, f: &mut fmt::Formatter<W>) -> fmt::Result {
        f.pad(match self {
            WeightRefusal::Length => "the number of parts is not the number of weights",
            WeightRefusal::BelowZero => "a weight is below 0",
            WeightRefusal::NotHeld => "the sum of the weights does not fit the type",
            WeightRefusal::AllZero => "no weight is above 0",
        })
    }
}

impl Error for WeightRefusal {}

/// A share of an amount: a fraction in any terms.
pub trait Share<T: Copy + Integer> {
    ghost two_numbers: { Self → ℤ × ℤ };

    /// Its numerator.
    fn numer(&self) -> T
        ensures { T.value result ≡ (two_numbers self.now).0 };

    /// Its lowest terms, if its denominator is positive. Otherwise the result may be any fraction.
    fn lowest(&self) -> Reduced<T>
        ensures { pos 0 <ℤ (two_numbers self.now).1 →
            IsLowestTermsOf (two_numbers self.now).0 (two_numbers self.now).1 (share_numbers result).0 (share_numbers result).1 };
}

impl<T: Copy + Integer> Share<T> for Reduced<T> {
    ghost two_numbers = { share_numbers };

    #[inline(always)]
    fn numer(&self) -> T {
        *self.numer()
    }

    #[inline(always)]
    fn lowest(&self) -> Reduced<T> {
        *self
    }
}

/// Splits the amount by the shares into the parts. The parts add up to the amount exactly, and each is less than
/// 1 away from the amount times its share. For example, 100 split by 1/3, 1/3 and 1/3 is 33, 34 and 33. At a
/// refusal no part has changed. The sums of the first shares, times the amount, are rounded with a half away from
/// 0. A part is the difference of two neighbours. No product has to fit: 10,000,000,000 is split by shares over
/// 9,999,999,999, too.
pub fn split<T: Copy + Integer>(
    amount: T,
    shares: &[Reduced<T>],
    parts: &mut [T],
) -> Result<(), SplitRefusal>
    ensures ok { OnOk result (CanBeSplit share_numbers T.lo T.hi (T.value amount) shares.now (length parts.old) × IsSplitBy share_numbers T.value (T.value amount) shares.now parts.new) }
    ensures refused { IfErr result (λ why. RefusesToSplit share_numbers T.lo T.hi (T.value amount) shares.now (length parts.old) why) }
    ensures unchanged { OnErr result (parts.new ≡ parts.old) }
{
    split_shares(amount, shares, parts)
}

/// Splits the amount as `split` does, by shares that need not be in lowest terms. Their denominators are above 0.
pub fn split_shares<T: Copy + Integer, S: Share<T>>(
    amount: T,
    shares: &[S],
    parts: &mut [T],
) -> Result<(), SplitRefusal>
    requires { SharesOverPositive S.two_numbers shares.now }
    ensures ok { OnOk result (CanBeSplit S.two_numbers T.lo T.hi (T.value amount) shares.now (length parts.old) × IsSplitBy S.two_numbers T.value (T.value amount) shares.now parts.new) }
    ensures refused { IfErr result (λ why. RefusesToSplit S.two_numbers T.lo T.hi (T.value amount) shares.now (length parts.old) why) }
    ensures unchanged { OnErr result (parts.new ≡ parts.old) }
{
    if parts.len() != shares.len() {
        return Err(SplitRefusal::Length);
    }
    if !none_is_below_zero(shares) {
        return Err(SplitRefusal::BelowZero);
    }
    let (count, sum, common) = total_over(amount, shares);
    if count < shares.len() {
        check_marks(amount, shares, count, lowest_over(sum, common))?;
        write_parts(amount, shares, parts);
        return Ok(());
    }
    if sum == common {
        write_parts_over::<T, S, Fractions>(amount, shares, common, parts);
        Ok(())
    } else {
        Err(SplitRefusal::NotOne)
    }
}

fn none_is_below_zero<T: Copy + Integer, S: Share<T>>(shares: &[S]) -> bool
    ensures { IsTrue result ↔ NoShareIsBelowZero S.two_numbers shares.now }
{
    shares.iter().all(|share| !is_below_zero(share.numer()))
}

// The sum with one more share, and the amount times it, rounded.
fn next_mark<T: Copy + Integer>(
    amount: T,
    sum: &Reduced<T>,
    share: &Reduced<T>,
) -> Option<(Reduced<T>, T)>
    ensures { ChecksNextMark (T.value amount) (sum_of (share_numbers sum.now).0 (share_numbers sum.now).1 (share_numbers share.now).0 (share_numbers share.now).1) result }
{
    let sum = sum.checked_add(share)?;
    let mark = sum.checked_mul_round(amount, Rounding::HalfAway)?;
    Some((sum, mark))
}

// The lowest terms of a fraction over a positive denominator.
fn lowest_over<T: Copy + Integer>(n: T, d: T) -> Reduced<T>
    requires { pos 0 <ℤ T.value d }
    ensures { IsLowestTermsOf (T.value n) (T.value d) (share_numbers result).0 (share_numbers result).1 }
{
    both_held(n, d);
    match Reduced::checked_new(n, d) {
        Some(lowest) => lowest,
        None => unreachable!(),
    }
}

// Whether each sum of the first shares and its mark fit, and the last sum is 1. It begins behind the first `count` shares, for
// which this is known, with their sum.
fn check_marks<T: Copy + Integer, S: Share<T>>(
    amount: T,
    shares: &[S],
    count: usize,
    begun: Reduced<T>,
) -> Result<(), SplitRefusal>
    requires positive { SharesOverPositive S.two_numbers shares.now }
    requires within { count ≤ length shares.now }
    requires none_below { NoShareIsBelowZero S.two_numbers shares.now }
    requires fit { FirstMarksFit S.two_numbers T.lo T.hi (T.value amount) shares.now count }
    requires sum { IsLowestTermsOf (total_of_shares S.two_numbers (take count shares.now)).0 (total_of_shares S.two_numbers (take count shares.now)).1 (share_numbers begun).0 (share_numbers begun).1 }
    ensures { MatchResult result
        (λ _. MarksFit S.two_numbers T.lo T.hi (T.value amount) shares.now × SharesMakeOne S.two_numbers shares.now)
        (SumsRefuse (MarksFit S.two_numbers T.lo T.hi (T.value amount) shares.now) (SharesMakeOne S.two_numbers shares.now)) }
{
    let mut sum = begun;
    for i in count..shares.len() {
        match next_mark(amount, &sum, &shares[i].lowest()) {
            Some((next, _)) => sum = next,
            None => return Err(SplitRefusal::NotHeld),
        }
    }
    if *sum.numer() == *sum.denom() {
        Ok(())
    } else {
        Err(SplitRefusal::NotOne)
    }
}

// Writes the parts. It requires that no refusal applies.
fn write_parts<T: Copy + Integer, S: Share<T>>(amount: T, shares: &[S], parts: &mut [T])
    requires positive { SharesOverPositive S.two_numbers shares.now }
    requires can { CanBeSplit S.two_numbers T.lo T.hi (T.value amount) shares.now (length parts.old) }
    ensures { IsSplitBy S.two_numbers T.value (T.value amount) shares.now parts.new }
{
    let mut sum = Reduced::zero();
    let mut mark = T::ZERO;
    for (i, share) in shares.iter().enumerate() {
        let (next, next_mark) = next_mark(amount, &sum, &share.lowest()).unwrap();
        parts[i] = next_mark.minus(mark);
        sum = next;
        mark = next_mark;
    }
}

// Shares over one denominator, a common multiple of theirs, as far as it fits the type.
//
// There the sums of the first shares are whole numbers: 3/6, 5/6 and 6/6 for 1/2, 1/3 and 1/6. So a sum takes no greatest common
// divisor once the denominator is known. As long as the shares add up to at most 1, no sum and no mark is too great for the type:
// each mark lies between 0 and the amount.

// The sum of the first shares over one denominator: how many they are, the numerator and the denominator. It stops before a share of 1
// or more, and where the sum would be above 1, a number would not fit the type, or the amount times the denominator not 128 bits.
fn total_over<T: Copy + Integer, S: Share<T>>(amount: T, shares: &[S]) -> (usize, T, T)
    requires positive { SharesOverPositive S.two_numbers shares.now }
    requires none_below { NoShareIsBelowZero S.two_numbers shares.now }
    ensures within { result.0 ≤ length shares.now }
    ensures total { IsTotalOver S.two_numbers T.lo T.hi (T.value amount) shares.now result.0 (T.value result.1) (T.value result.2) }
{
    let _ = amount.held();
    let mut sum = T::ZERO;
    let mut common = T::ONE;
    for (i, share) in shares.iter().enumerate() {
        let Some(next) = joined(amount, sum, common, share) else {
            return (i, sum, common);
        };
        both_held(next.0, next.1);
        sum = next.0;
        common = next.1;
    }
    (shares.len(), sum, common)
}

// `sum/common` and one more share, and their common denominator. It is `None` where `total_over` stops.
fn joined<T: Copy + Integer, S: Share<T>>(amount: T, sum: T, common: T, share: &S) -> Option<(T, T)>
    requires common { pos 0 <ℤ T.value common }
    requires sum { T.value sum ≤ℤ T.value common }
    requires share { pos 0 <ℤ (S.two_numbers share.now).1 }
    ensures { IfSome result (λ x. IsSumOver (T.value sum, T.value common) (S.two_numbers share.now) (T.value x.0) (T.value x.1) × (T.value x.0 ≤ℤ T.value x.1)) }
{
    if share.numer().is_zero() {
        return Some((sum, common));
    }
    let lowest = share.lowest();
    // Few shares are left then, or none.
    if *lowest.denom() <= *lowest.numer() {
        return None;
    }
    let (next, over) = added(sum, common, &lowest)?;
    if over < next {
        return None;
    }
    // Sums in lowest terms have shorter products.
    let _ = amount.to_i128()?.try_times(over.to_i128()?)?;
    Some((next, over))
}

// `sum/common` and one more share, and their common denominator. It is the same if the share is a whole number over it.
fn added<T: Copy + Integer>(sum: T, common: T, share: &Reduced<T>) -> Option<(T, T)>
    requires { pos 0 <ℤ T.value common }
    ensures { IfSome result (λ x. IsSumOver (T.value sum, T.value common) (share_numbers share.now) (T.value x.0) (T.value x.1)) }
{
    let numer = *share.numer();
    let denom = *share.denom();
    let (times, rest) = common.div_rem(denom);
    if rest.is_zero() {
        return Some((sum.try_plus(numer.try_times(times)?)?, common));
    }
    // If common/denom is u/v in lowest terms, common times v is denom times u.
    let (for_share, for_sum) = lowest_terms(common, denom);
    let left = sum.try_times(for_sum)?;
    let right = numer.try_times(for_share)?;
    Some((left.try_plus(right)?, common.try_times(for_sum)?))
}

// A way to read shares as whole numbers over a common denominator.
trait Numerators<T: Copy + Integer, S> {
    // The two numbers of a share, where the denominator is this one.
    ghost over: { ℤ → S → ℤ × ℤ };

    // The numerator of a share over the denominator.
    fn numer_over(share: &S, common: T) -> T
        requires common { pos 0 <ℤ T.value common }
        requires share { IsPartOver (T.value common) (over (T.value common) share.now) }
        ensures { SameValue (over (T.value common) share.now).0 (over (T.value common) share.now).1 (T.value result) (T.value common) };
}

// Shares that are fractions.
struct Fractions;

impl<T: Copy + Integer, S: Share<T>> Numerators<T, S> for Fractions {
    ghost over = { λ _ share. S.two_numbers share };

    fn numer_over(share: &S, common: T) -> T {
        if share.numer().is_zero() {
            return T::ZERO;
        }
        let lowest = share.lowest();
        let _ = common.held();
        let (times, _) = common.div_rem(*lowest.denom());
        lowest.numer().times(times)
    }
}

// Shares that are weights. The denominator is the sum of all.
struct Weights;

impl<T: Copy + Integer> Numerators<T, T> for Weights {
    ghost over = { λ common weight. (T.value weight, common) };

    fn numer_over(weight: &T, _: T) -> T {
        *weight
    }
}

// Writes the parts of shares over a common denominator. It requires that they add up to 1, and that no share is below 0.
fn write_parts_over<T: Copy + Integer, S, N: Numerators<T, S>>(
    amount: T,
    shares: &[S],
    common: T,
    parts: &mut [T],
)
    requires as_many { length parts.old ≡ length shares.now }
    requires shares { AreSharesOver (N.over (T.value common)) (T.value common) shares.now }
    ensures { IsSplitBy (N.over (T.value common)) T.value (T.value amount) shares.now parts.new }
{
    both_held(amount, common);
    let mut sum = T::ZERO;
    let mut mark = T::ZERO;
    for (i, share) in shares.iter().enumerate() {
        let numer = N::numer_over(share, common);
        if numer.is_zero() {
            parts[i] = T::ZERO;
            continue;
        }
        sum = sum.plus(numer);
        let next = mark_over(amount, sum, common);
        parts[i] = next.minus(mark);
        mark = next;
    }
}

// The amount times `sum/common`, which lies from 0 to 1, rounded.
fn mark_over<T: Copy + Integer>(amount: T, sum: T, common: T) -> T
    requires common { pos 0 <ℤ T.value common }
    requires above { pos 0 ≤ℤ T.value sum }
    requires below { T.value sum ≤ℤ T.value common }
    ensures { IsRounded (T.value amount *ℤ T.value sum) (T.value common) (T.value result) }
{
    if sum == common {
        return amount;
    }
    let _ = amount.held();
    rounded_product(amount, T::ONE, sum, common, Rounding::HalfAway).unwrap()
}

/// Splits the amount by the weights into the parts. The share of a weight is the weight over the sum of all. The parts
/// add up to the amount exactly, and each is less than 1 away from the amount times its share. For example, 100 split
/// by the weights 1, 1 and 1 is 33, 34 and 33. At a refusal no part has changed. The sums of the first shares, times
/// the amount, are rounded with a half away from 0. A part is the difference of two neighbours. No product has to fit.
pub fn split_by_weights<T: Copy + Integer>(
    amount: T,
    weights: &[T],
    parts: &mut [T],
) -> Result<(), WeightRefusal>
    ensures ok { OnOk result (CanSplitByWeights T.value T.lo T.hi weights.now (length parts.old) × IsSplitBy (share_of T.value weights.now) T.value (T.value amount) weights.now parts.new) }
    ensures refused { IfErr result (λ why. RefusesWeights T.value T.lo T.hi weights.now (length parts.old) why) }
    ensures unchanged { OnErr result (parts.new ≡ parts.old) }
{
    if parts.len() != weights.len() {
        return Err(WeightRefusal::Length);
    }
    if !no_weight_is_below_zero(weights) {
        return Err(WeightRefusal::BelowZero);
    }
    let Some(total) = checked_total(weights) else {
        return Err(WeightRefusal::NotHeld);
    };
    if total.is_zero() {
        return Err(WeightRefusal::AllZero);
    }
    write_parts_over::<T, T, Weights>(amount, weights, total, parts);
    Ok(())
}

fn no_weight_is_below_zero<T: Copy + Integer>(weights: &[T]) -> bool
    ensures { IsTrue result ↔ NoWeightIsBelowZero T.value weights.now }
{
    weights.iter().all(|weight| !is_below_zero(*weight))
}

// The sum of the weights, or `None` if it does not fit the type.
fn checked_total<T: Copy + Integer>(weights: &[T]) -> Option<T>
    requires { NoWeightIsBelowZero T.value weights.now }
    ensures { Checks T.value T.lo T.hi (total_of T.value weights.now) result }
{
    let mut sum = T::ZERO;
    for weight in weights {
        sum = sum.try_plus(*weight)?;
    }
    let _ = sum.held();
    Some(sum)
}
