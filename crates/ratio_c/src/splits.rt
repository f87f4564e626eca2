//! The calls for C that split an amount by shares or by weights, so that nothing is lost.
ghost use Rattle.std.specs.Prelude.{◌≡◌, ◌<ℤ◌, pos};
ghost use Rattle.ratio_integer.specs.Fraction.{IsLowestTermsOf};
ghost use Rattle.num_rational.specs.Split.{share_numbers};
ghost use Rattle.ratio_c.specs.Numbers64.{fraction64};
ghost use Rattle.ratio_c.specs.Splits.{SplitsByShares, SplitsByWeights, code_of_shares, code_of_weights};

use crate::code::{
    ALL_ZERO, ANSWERED, BELOW_ZERO, DENOMINATOR_NOT_POSITIVE, NOT_HELD, NOT_ONE, UNLIKE_LENGTHS,
};
use crate::many::are_positive;
use crate::numbers64::Fraction64;
use num_rational::{Reduced, Share, SplitRefusal, WeightRefusal, split_by_weights, split_shares};
use ratio_integer::{Integer, both_held};

impl Share<i64> for Fraction64 {
    ghost two_numbers = { fraction64 };

    #[inline(always)]
    fn numer(&self) -> i64 {
        self.numer
    }

    #[inline(always)]
    fn lowest(&self) -> Reduced<i64> {
        lowest_of(self.numer, self.denom)
    }
}

// The lowest terms of a fraction over a positive denominator, and else any fraction.
fn lowest_of<T: Copy + Integer>(n: T, d: T) -> Reduced<T>
    ensures { pos 0 <ℤ T.value d → IsLowestTermsOf (T.value n) (T.value d) (share_numbers result).0 (share_numbers result).1 }
{
    both_held(n, d);
    match Reduced::checked_new(n, d) {
        Some(lowest) => lowest,
        None => Reduced::zero(),
    }
}

// The code of a split by shares that was refused.
fn code_of_shares(why: SplitRefusal) -> u32
    ensures { result ≡ code_of_shares why }
{
    match why {
        SplitRefusal::Length => UNLIKE_LENGTHS,
        SplitRefusal::BelowZero => BELOW_ZERO,
        SplitRefusal::NotHeld => NOT_HELD,
        SplitRefusal::NotOne => NOT_ONE,
    }
}

// The code of a split by weights that was refused.
fn code_of_weights(why: WeightRefusal) -> u32
    ensures { result ≡ code_of_weights why }
{
    match why {
        WeightRefusal::Length => UNLIKE_LENGTHS,
        WeightRefusal::BelowZero => BELOW_ZERO,
        WeightRefusal::NotHeld => NOT_HELD,
        WeightRefusal::AllZero => ALL_ZERO,
    }
}

/// The amount split by the shares into the parts. The result is the code.
#[unsafe(no_mangle)]
pub extern "C" fn ratio_split_i64(amount: i64, shares: &[Fraction64], parts: &mut [i64]) -> u32
    ensures { SplitsByShares amount shares.now parts.old parts.new result }
{
    if !are_positive(shares) {
        return DENOMINATOR_NOT_POSITIVE;
    }
    match split_shares(amount, shares, parts) {
        Ok(()) => ANSWERED,
        Err(why) => code_of_shares(why),
    }
}

/// The amount split by the weights into the parts. The result is the code.
#[unsafe(no_mangle)]
pub extern "C" fn ratio_split_by_weights_i64(amount: i64, weights: &[i64], parts: &mut [i64]) -> u32
    ensures { SplitsByWeights amount weights.now parts.old parts.new result }
{
    match split_by_weights(amount, weights, parts) {
        Ok(()) => ANSWERED,
        Err(why) => code_of_weights(why),
    }
}
