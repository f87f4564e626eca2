//! The laws of negatives and absolute values of `BigFraction`.
ghost use Rattle.std.specs.Prelude.{◌≡◌};
ghost use Rattle.ratio_core.specs.Laws.{IsProduct};
ghost use Rattle.ratio_big.specs.Fractions.{big_numbers};
ghost use Rattle.ratio_big.specs.Values.{negative_pair};
ghost use Rattle.ratio_laws.specs.BigSignLaws.{MeetsTriangleInequality, MovesAbsolute, MovesNegative};

use ratio_big::BigFraction;

/// -(-x) is x, and -x * y is -(x * y).
pub fn negatives(x: &BigFraction, y: &BigFraction)
    ensures twice { negative_pair (negative_pair (big_numbers x.now)) ≡ big_numbers x.now }
    ensures product { MovesNegative IsProduct (big_numbers x.now) (big_numbers y.now) }
{}

/// |x * y| is |x| * |y|, and |x + y| is not above |x| + |y|.
pub fn absolutes(x: &BigFraction, y: &BigFraction)
    ensures product { MovesAbsolute IsProduct (big_numbers x.now) (big_numbers y.now) }
    ensures sum { MeetsTriangleInequality (big_numbers x.now) (big_numbers y.now) }
{}
