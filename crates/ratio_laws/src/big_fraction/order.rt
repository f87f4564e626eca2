//! The laws of the order of `BigFraction`, of `==` and of hashes. Sums and products with a positive fraction keep the order, and negatives
//! turn it.
ghost use Rattle.std.specs.Prelude.{◌≡◌, ◌↔◌, ◌<ℤ◌, pos, IsTrue};
ghost use Rattle.std.specs.declared.cmp.Ordering.TheVariants.{Equal};
ghost use Rattle.ratio_core.specs.Laws.{IsProduct, IsSum};
ghost use Rattle.ratio_big.specs.Fractions.{big_numbers};
ghost use Rattle.ratio_big.specs.Hashing.{big_writes, same_pair};
ghost use Rattle.ratio_big.specs.Values.{negative_pair};
ghost use Rattle.ratio_laws.specs.BigOrderLaws.{KeepsOrder, OrdersTotally, TurnsOrder, pair_order};

use ratio_big::BigFraction;

/// Exactly one of `Less`, `Equal` and `Greater` holds of two fractions, and the order is total. It is `Equal` exactly if both are the same,
/// and `==` returns true exactly there.
pub fn orders(x: &BigFraction, y: &BigFraction)
    ensures total { OrdersTotally }
    ensures equal { (pair_order (big_numbers x.now) (big_numbers y.now) ≡ Equal) ↔ (big_numbers x.now ≡ big_numbers y.now) }
    ensures same { IsTrue (same_pair (big_numbers x.now) (big_numbers y.now)) ↔ (big_numbers x.now ≡ big_numbers y.now) }
{}

/// Two fractions feed a hasher the same exactly if they are the same.
pub fn hashes(x: &BigFraction, y: &BigFraction)
    ensures { (big_writes x.now ≡ big_writes y.now) ↔ (big_numbers x.now ≡ big_numbers y.now) }
{}

/// x + z and y + z have the order of x and y.
pub fn sums(x: &BigFraction, y: &BigFraction, z: &BigFraction)
    ensures { KeepsOrder IsSum (big_numbers x.now) (big_numbers y.now) (big_numbers z.now) }
{}

/// x * z and y * z have the order of x and y for z above 0, and the reverse order for z below 0.
pub fn products(x: &BigFraction, y: &BigFraction, z: &BigFraction)
    ensures above { pos 0 <ℤ (big_numbers z.now).0 → KeepsOrder IsProduct (big_numbers x.now) (big_numbers y.now) (big_numbers z.now) }
    ensures below { (big_numbers z.now).0 <ℤ pos 0 → TurnsOrder IsProduct (big_numbers x.now) (big_numbers y.now) (big_numbers z.now) }
{}

/// -x and -y have the reverse order.
pub fn negatives(x: &BigFraction, y: &BigFraction)
    ensures { pair_order (negative_pair (big_numbers x.now)) (negative_pair (big_numbers y.now)) ≡ pair_order (big_numbers y.now) (big_numbers x.now) }
{}
