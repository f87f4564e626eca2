//! A sale of a part of a share, over fractions of any size: nothing is rounded, and no share is lost.
ghost use Rattle.std.specs.Prelude.{IfOk, OnErr};
ghost use Rattle.ratio_uses.specs.Shareholders.{BuyerGains, HaveSameTotal, IsShortSale, SellerKeeps};

use ratio_big::BigFraction;
use std::alloc::{AllocError, Global};

/// The new shares of the seller and the buyer, after the seller has sold `part` of its share: of 1/2 and 1/3 with the part 1/4, 3/8
/// and 11/24. An error means that an allocation failed.
pub fn sell(
    alloc: Global,
    seller: &BigFraction,
    buyer: &BigFraction,
    part: &BigFraction,
) -> Result<(BigFraction, BigFraction), AllocError>
    ensures seller { IfOk result (λ shares. SellerKeeps seller.now part.now shares.0) }
    ensures buyer { IfOk result (λ shares. BuyerGains buyer.now seller.now part.now shares.1) }
    ensures total { IfOk result (λ shares. HaveSameTotal seller.now buyer.now shares.0 shares.1) }
    ensures memory { OnErr result (¬ (IsShortSale seller.now buyer.now part.now)) }
{
    let sold = seller.multiply(alloc, part)?;
    let rest = seller.subtract(alloc, &sold)?;
    let more = buyer.add(alloc, &sold)?;
    Ok((rest, more))
}
