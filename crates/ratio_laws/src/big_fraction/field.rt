//! The laws of a field, for `BigFraction`: sums and products in any order and grouping, 0 and 1, negatives and reciprocals. No result is
//! too large, so that they hold of all fractions.
ghost use Rattle.std.specs.Prelude.{pos};
ghost use Rattle.ratio_core.specs.Laws.{IsProduct, IsSum};
ghost use Rattle.ratio_big.specs.Fractions.{big_numbers};
ghost use Rattle.ratio_big.specs.Values.{negative_pair};
ghost use Rattle.ratio_laws.specs.BigFieldLaws.{Associates, Commutes, Distributes, GivesOnly, HasInverse, IsDifferenceOf, IsProductWithReciprocal, IsQuotientOf, IsRefusedByZero, IsSumWithNegative, IsUndone};

use ratio_big::BigFraction;

/// Sums commute and associate. x + 0 is x, and x + (-x) is 0.
pub fn sums(x: &BigFraction, y: &BigFraction, z: &BigFraction)
    ensures commute { Commutes IsSum (big_numbers x.now) (big_numbers y.now) }
    ensures associate { Associates IsSum (big_numbers x.now) (big_numbers y.now) (big_numbers z.now) }
    ensures zero { GivesOnly IsSum (big_numbers x.now) (pos 0, pos 1) (big_numbers x.now) }
    ensures negative { GivesOnly IsSum (big_numbers x.now) (negative_pair (big_numbers x.now)) (pos 0, pos 1) }
{}

/// x - x is 0, and x - y is x + (-y). (x - y) + y and (x + y) - y are x.
pub fn differences(x: &BigFraction, y: &BigFraction)
    ensures itself { GivesOnly IsDifferenceOf (big_numbers x.now) (big_numbers x.now) (pos 0, pos 1) }
    ensures negative { IsSumWithNegative (big_numbers x.now) (big_numbers y.now) }
    ensures difference { IsUndone IsDifferenceOf IsSum (big_numbers x.now) (big_numbers y.now) }
    ensures sum { IsUndone IsSum IsDifferenceOf (big_numbers x.now) (big_numbers y.now) }
{}

/// Products commute and associate, and distribute over sums. x * 1 is x, and x times its reciprocal is 1.
pub fn products(x: &BigFraction, y: &BigFraction, z: &BigFraction)
    ensures commute { Commutes IsProduct (big_numbers x.now) (big_numbers y.now) }
    ensures associate { Associates IsProduct (big_numbers x.now) (big_numbers y.now) (big_numbers z.now) }
    ensures distribute { Distributes IsProduct IsSum (big_numbers x.now) (big_numbers y.now) (big_numbers z.now) }
    ensures one { GivesOnly IsProduct (big_numbers x.now) (pos 1, pos 1) (big_numbers x.now) }
    ensures reciprocal { HasInverse (big_numbers x.now) }
{}

/// Only 0 has no reciprocal and divides nothing. x / y is x times the reciprocal of y. (x / y) * y and (x * y) / y are x.
pub fn quotients(x: &BigFraction, y: &BigFraction)
    ensures zero { IsRefusedByZero (big_numbers x.now) (big_numbers y.now) }
    ensures none { IsRefusedByZero (pos 1, pos 1) (big_numbers y.now) }
    ensures reciprocal { IsProductWithReciprocal (big_numbers x.now) (big_numbers y.now) }
    ensures quotient { IsUndone IsQuotientOf IsProduct (big_numbers x.now) (big_numbers y.now) }
    ensures product { IsUndone IsProduct IsQuotientOf (big_numbers x.now) (big_numbers y.now) }
{}
