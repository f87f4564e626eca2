// Written by templates/write from templates/odd.rt.txt: change that file, and write this one anew.
//! `Nat2`, the smallest lawful type.
ghost use Rattle.std.specs.Prelude.{◌≡◌, ℤ, pos, false};
ghost use Rattle.std.specs.Hash as hash;
ghost use Rattle.std.proofs.Common.{inl, refl};
ghost use Rattle.ratio_integer.specs.Range.{IsHeld};
ghost use Rattle.ratio_odd.specs.Numbers.{laws_of_numbers};

use ratio_integer::Integer;
use std::marker::Model;

/// The whole numbers from 0 to 2, made by `from_i128`.
#[derive(Clone, Copy, PartialEq, Eq, PartialOrd, Ord, Hash)]
pub struct Nat2 {
    n: i8,
}

impl Model for Nat2 {
    ghost Value = { ℤ };

    ghost view = { λ x. x.n };

    ghost invariant = { λ x. IsHeld (pos 0) (pos 2) x.n };

    ghost inverse = { λ z. record { n = z } };
}

impl Integer for Nat2 {
    ghost lo = { pos 0 };

    ghost hi = { pos 2 };

    ghost value = { λ x. x };

    ghost number_hash_input = { hash.i8 };

    ghost ZERO = { pos 0 };

    ghost ONE = { pos 1 };

    ghost MIN = { pos 0 };

    ghost MAX = { pos 2 };

    ghost EXACT_SUMS = { false };

    ghost EXACT_REMAINDERS = { false };

    ghost is_halved = { false };

    ghost one_number = { refl };

    const ZERO: Nat2 = Nat2 { n: 0 };

    const ONE: Nat2 = Nat2 { n: 1 };

    const MIN: Nat2 = Nat2 { n: 0 };

    const MAX: Nat2 = Nat2 { n: 2 };

    const EXACT_SUMS: bool = false;

    const EXACT_REMAINDERS: bool = false;

    fn plus(self, o: Nat2) -> Nat2 {
        Nat2 { n: self.n + o.n }
    }

    fn minus(self, o: Nat2) -> Nat2 {
        Nat2 { n: self.n - o.n }
    }

    fn times(self, o: Nat2) -> Nat2 {
        Nat2 { n: self.n * o.n }
    }

    fn try_times(self, o: Nat2) -> Option<Nat2> {
        let n = self.n * o.n;
        if 0 <= n && n <= 2 {
            Some(Nat2 { n })
        } else {
            None
        }
    }

    fn div_rem(self, o: Nat2) -> (Nat2, Nat2) {
        let (quotient, rest) = self.n.div_rem(o.n);
        (Nat2 { n: quotient }, Nat2 { n: rest })
    }

    fn to_i128(self) -> Option<i128> {
        self.n.to_i128()
    }

    fn to_u128(self) -> Option<u128> {
        self.n.to_u128()
    }

    fn from_i128(n: i128) -> Option<Nat2> {
        if 0 <= n && n <= 2 {
            Some(Nat2 { n: n as i8 })
        } else {
            None
        }
    }

    fn from_u128(n: u128) -> Option<Nat2> {
        if n <= 2 {
            Some(Nat2 { n: n as i8 })
        } else {
            None
        }
    }

    fn half_base() -> Option<Nat2> {
        None
    }

    fn exact_sum(_a: Nat2, _b: Nat2, _c: Nat2, _d: Nat2) -> Option<(Nat2, Nat2)> {
        None
    }

    fn exact_diff(_a: Nat2, _b: Nat2, _c: Nat2, _d: Nat2) -> Option<(Nat2, Nat2)> {
        None
    }

    ghost laws = { laws_of_numbers (pos 0) (pos 2) (λ x. x) (λ z. z) hash.i8
        (record { high = record { le = tt }; low = inl refl }) (λ z. refl) };

    ghost exact_remainders_law = { tt };
}
