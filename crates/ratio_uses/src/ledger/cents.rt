//! An amount split by shares into multiples of a unit, such as cents, so that no cent is lost, and an amount rounded to cents.
//!
//! The amount is counted in units, as a number of 128 bits, and this count is split. So no product has to fit in 64 bits.
ghost use Rattle.std.specs.Prelude.{◌≡◌, ◌↔◌, ◌<ℤ◌, length, pos, IfErr, IsTrue, MatchResult, OnErr, OnOk};
ghost use Rattle.ratio_decimal.specs.Decimal.{IsDecimalOf};
ghost use Rattle.ratio_decimal.specs.declared.rounding_rule.Rounding.TheVariants.{HalfEven};
ghost use Rattle.ratio_integer.specs.Arithmetic.{sum_of};
ghost use Rattle.num_rational.specs.Ratio.{ChecksRatio};
ghost use Rattle.num_rational.specs.Reduced.{lowest_numbers, ratio_in};
ghost use Rattle.num_rational.specs.Split.{AreSharesFor, NoShareIsBelowZero, RefusesShares, SharesMakeOne, SumsRefuse};
ghost use Rattle.ratio_uses.specs.Cents.{CanSplitTo, ChecksCount, ChecksNextPart, IsCountSplit, IsSplitTo, PartsFit, RefusesSplitTo};

use num_rational::{DecimalText, Reduced, Reduced64, Rounding, SplitRefusal};
use ratio_decimal::rounded_product;
use ratio_integer::Integer;

/// Why `split_to` does not split an amount: the first of these that applies.
#[derive(Clone, Copy, Debug, PartialEq)]
pub enum Refusal {
    /// The amount is no multiple of the unit.
    NotMultiple,
    /// The shares do not split it. It is `NotHeld` where a sum of the first shares or a part does not fit in 64 bits,
    /// or the amount times such a sum, counted in units and rounded, does not fit in 128 bits.
    Shares(SplitRefusal),
}

/// Splits the amount by the shares into parts that are multiples of `1/unit_parts`, such as cents for 100. The parts
/// add up to the amount exactly, and each is less than `1/unit_parts` away from the amount times its share. In cents,
/// 10 split by 1/3, 1/3 and 1/3 is 3.33, 3.34 and 3.33. The call requires that `unit_parts` is above 0. At a refusal
/// no part has changed. The sums of the first shares, times the amount, are rounded to multiples of `1/unit_parts`,
/// with a half away from 0. A part is the difference of two neighbours.
pub fn split_to(
    amount: &Reduced64,
    shares: &[Reduced64],
    unit_parts: i64,
    parts: &mut [Reduced64],
) -> Result<(), Refusal>
    requires some { pos 0 <ℤ unit_parts }
    ensures ok { OnOk result (CanSplitTo lowest_numbers unit_parts (lowest_numbers amount.now) shares.now (length parts.old)
        × IsSplitTo lowest_numbers unit_parts (lowest_numbers amount.now) shares.now parts.new) }
    ensures refused { IfErr result (λ why. RefusesSplitTo lowest_numbers unit_parts (lowest_numbers amount.now) shares.now (length parts.old) why) }
    ensures unchanged { OnErr result (parts.new ≡ parts.old) }
{
    let Some(count) = count_of(amount, unit_parts) else {
        return Err(Refusal::NotMultiple);
    };
    match split_count(count, shares, unit_parts, parts) {
        Ok(()) => Ok(()),
        Err(why) => Err(Refusal::Shares(why)),
    }
}

/// The amount rounded to cents: `0.33` for 1/3.
pub fn in_cents(amount: &Reduced64) -> DecimalText
    ensures { IsDecimalOf HalfEven 2 (lowest_numbers amount.now).0 (lowest_numbers amount.now).1 result }
{
    amount.decimal(2, Rounding::HalfEven)
}

// How many times `1/unit_parts` the amount is, or `None` if it is no multiple.
fn count_of(amount: &Reduced64, unit_parts: i64) -> Option<i128>
    requires some { pos 0 <ℤ unit_parts }
    ensures { ChecksCount unit_parts (lowest_numbers amount.now) result }
{
    let denom = *amount.denom();
    if unit_parts.is_multiple_of(denom) {
        let numer = *amount.numer();
        rounded_product(
            numer as i128,
            denom as i128,
            unit_parts as i128,
            1,
            Rounding::HalfAway,
        )
    } else {
        None
    }
}

// `split_to` of an amount of so many units.
fn split_count(
    count: i128,
    shares: &[Reduced64],
    unit_parts: i64,
    parts: &mut [Reduced64],
) -> Result<(), SplitRefusal>
    requires some { pos 0 <ℤ unit_parts }
    ensures ok { OnOk result (AreSharesFor lowest_numbers (PartsFit lowest_numbers unit_parts count shares.now) shares.now (length parts.old)
        × IsCountSplit lowest_numbers unit_parts count shares.now parts.new) }
    ensures refused { IfErr result (λ why. RefusesShares lowest_numbers (PartsFit lowest_numbers unit_parts count shares.now) shares.now (length parts.old) why) }
    ensures unchanged { OnErr result (parts.new ≡ parts.old) }
{
    if parts.len() != shares.len() {
        return Err(SplitRefusal::Length);
    }
    if !none_is_below_zero(shares) {
        return Err(SplitRefusal::BelowZero);
    }
    check_parts(count, shares, unit_parts)?;
    write_parts(count, shares, unit_parts, parts);
    Ok(())
}

fn none_is_below_zero(shares: &[Reduced64]) -> bool
    ensures { IsTrue result ↔ NoShareIsBelowZero lowest_numbers shares.now }
{
    shares.iter().all(|share| *share.numer() >= 0)
}

// `count/unit_parts` in lowest terms, or `None` if these do not fit in 64 bits.
fn in_units(count: i128, unit_parts: i64) -> Option<Reduced64>
    requires some { pos 0 <ℤ unit_parts }
    ensures { ChecksRatio (count, unit_parts) (ratio_in result) }
{
    Reduced::checked_new(count, unit_parts as i128)?.cast()
}

// The sum with one more share, the count times it, rounded, and what this is above the last such mark, in units.
fn next_part(
    count: i128,
    unit_parts: i64,
    sum: &Reduced64,
    last: i128,
    share: &Reduced64,
) -> Option<(Reduced64, i128, Reduced64)>
    requires some { pos 0 <ℤ unit_parts }
    ensures { ChecksNextPart unit_parts count last
        (sum_of (lowest_numbers sum.now).0 (lowest_numbers sum.now).1 (lowest_numbers share.now).0 (lowest_numbers share.now).1) result }
{
    let sum = sum.checked_add(share)?;
    let (numer, denom) = (*sum.numer() as i128, *sum.denom() as i128);
    let mark = rounded_product(count, 1, numer, denom, Rounding::HalfAway)?;
    let more = mark.try_minus(last)?;
    let part = in_units(more, unit_parts)?;
    Some((sum, mark, part))
}

// Whether each sum, mark and part fits, and the last sum is 1.
fn check_parts(count: i128, shares: &[Reduced64], unit_parts: i64) -> Result<(), SplitRefusal>
    requires some { pos 0 <ℤ unit_parts }
    ensures { MatchResult result
        (λ _. PartsFit lowest_numbers unit_parts count shares.now × SharesMakeOne lowest_numbers shares.now)
        (SumsRefuse (PartsFit lowest_numbers unit_parts count shares.now) (SharesMakeOne lowest_numbers shares.now)) }
{
    let mut sum = Reduced64::zero();
    let mut mark = 0;
    for share in shares {
        match next_part(count, unit_parts, &sum, mark, share) {
            Some((next, next_mark, _)) => {
                sum = next;
                mark = next_mark;
            }
            None => return Err(SplitRefusal::NotHeld),
        }
    }
    if *sum.numer() == *sum.denom() {
        Ok(())
    } else {
        Err(SplitRefusal::NotOne)
    }
}

// Writes the parts. It requires that no refusal applies.
fn write_parts(count: i128, shares: &[Reduced64], unit_parts: i64, parts: &mut [Reduced64])
    requires some { pos 0 <ℤ unit_parts }
    requires can { AreSharesFor lowest_numbers (PartsFit lowest_numbers unit_parts count shares.now) shares.now (length parts.old) }
    ensures { IsCountSplit lowest_numbers unit_parts count shares.now parts.new }
{
    let mut sum = Reduced64::zero();
    let mut mark = 0;
    for (i, share) in shares.iter().enumerate() {
        let (next, next_mark, part) = next_part(count, unit_parts, &sum, mark, share).unwrap();
        parts[i] = part;
        sum = next;
        mark = next_mark;
    }
}
