//! The laws of floors, ceilings and remainders of `BigFraction`.
ghost use Rattle.ratio_core.specs.Rounding.{IsCeiling, IsFloor};
ghost use Rattle.ratio_big.specs.Fractions.{big_numbers};
ghost use Rattle.ratio_laws.specs.BigWholeLaws.{HasCeilingOfNegative, HasRestBelow, HasRestOfSign, IsMultipleAndRest, MovesByWhole};

use ratio_big::BigFraction;

/// The floor of x + n is the floor of x plus n, for a whole number n, and so is the ceiling. The ceiling of x is -floor(-x).
pub fn floors(x: &BigFraction, n: &BigFraction)
    ensures floor { MovesByWhole IsFloor (big_numbers x.now) (big_numbers n.now) }
    ensures ceiling { MovesByWhole IsCeiling (big_numbers x.now) (big_numbers n.now) }
    ensures negative { HasCeilingOfNegative (big_numbers x.now) }
{}

/// x is q * y plus the remainder, for a whole number q. The remainder is nearer to 0 than y, and on the side of x.
pub fn remainders(x: &BigFraction, y: &BigFraction)
    ensures sum { IsMultipleAndRest (big_numbers x.now) (big_numbers y.now) }
    ensures smaller { HasRestBelow (big_numbers x.now) (big_numbers y.now) (big_numbers y.now) }
    ensures side { HasRestOfSign (big_numbers x.now) (big_numbers y.now) (big_numbers x.now) }
{}
