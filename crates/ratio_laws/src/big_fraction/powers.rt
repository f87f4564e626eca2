//! The laws of powers of `BigFraction`, for all whole numbers as exponents.
ghost use Rattle.ratio_core.specs.Laws.{IsProduct};
ghost use Rattle.ratio_big.specs.Fractions.{big_numbers};
ghost use Rattle.ratio_laws.specs.BigPowerLaws.{HasSmallPowers, IsRefusedByNoPower, SplitsExponentProduct, SplitsExponentSum, SplitsPower, TurnsPower};

use ratio_big::BigFraction;

/// x to the 1 is x, and x to the 0 is 1. The power of a sum of exponents is a product of powers, the power of a product of exponents is the
/// power of a power, and the power of a negative exponent is a reciprocal. Only 0 to an exponent below 0 is `None`.
pub fn exponents(x: &BigFraction)
    ensures first { HasSmallPowers (big_numbers x.now) }
    ensures sum { SplitsExponentSum (big_numbers x.now) }
    ensures product { SplitsExponentProduct (big_numbers x.now) }
    ensures negative { TurnsPower (big_numbers x.now) }
    ensures none { IsRefusedByNoPower (big_numbers x.now) }
{}

/// The power of a product is the product of the powers.
pub fn products(x: &BigFraction, y: &BigFraction)
    ensures { SplitsPower IsProduct (big_numbers x.now) (big_numbers y.now) }
{}
