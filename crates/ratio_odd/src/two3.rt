// Written by templates/write from templates/odd.rt.txt: change that file, and write this one anew.
//! `Two3`, the smallest type whose least number has no negative.
ghost use Rattle.std.specs.Prelude.{◌≡◌, ℤ, pos, negsuc, false};
ghost use Rattle.std.specs.Hash as hash;
ghost use Rattle.std.proofs.Common.{inl, inr, refl};
ghost use Rattle.ratio_integer.specs.Range.{IsHeld};
ghost use Rattle.ratio_odd.specs.Numbers.{laws_of_numbers};

use ratio_integer::{Integer, SignedInteger};
use std::marker::Model;

/// The whole numbers from -3 to 2, made by `from_i128`.
#[derive(Clone, Copy, PartialEq, Eq, PartialOrd, Ord, Hash)]
pub struct Two3 {
    n: i8,
}

impl Model for Two3 {
    ghost Value = { ℤ };

    ghost view = { λ x. x.n };

    ghost invariant = { λ x. IsHeld (negsuc 2) (pos 2) x.n };

    ghost inverse = { λ z. record { n = z } };
}

impl Integer for Two3 {
    ghost lo = { negsuc 2 };

    ghost hi = { pos 2 };

    ghost value = { λ x. x };

    ghost number_hash_input = { hash.i8 };

    ghost ZERO = { pos 0 };

    ghost ONE = { pos 1 };

    ghost MIN = { negsuc 2 };

    ghost MAX = { pos 2 };

    ghost EXACT_SUMS = { false };

    ghost EXACT_REMAINDERS = { false };

    ghost is_halved = { false };

    ghost one_number = { refl };

    const ZERO: Two3 = Two3 { n: 0 };

    const ONE: Two3 = Two3 { n: 1 };

    const MIN: Two3 = Two3 { n: -3 };

    const MAX: Two3 = Two3 { n: 2 };

    const EXACT_SUMS: bool = false;

    const EXACT_REMAINDERS: bool = false;

    fn plus(self, o: Two3) -> Two3 {
        Two3 { n: self.n + o.n }
    }

    fn minus(self, o: Two3) -> Two3 {
        Two3 { n: self.n - o.n }
    }

    fn times(self, o: Two3) -> Two3 {
        Two3 { n: self.n * o.n }
    }

    fn try_times(self, o: Two3) -> Option<Two3> {
        let n = self.n * o.n;
        if -3 <= n && n <= 2 {
            Some(Two3 { n })
        } else {
            None
        }
    }

    fn div_rem(self, o: Two3) -> (Two3, Two3) {
        let (quotient, rest) = self.n.div_rem(o.n);
        (Two3 { n: quotient }, Two3 { n: rest })
    }

    fn to_i128(self) -> Option<i128> {
        self.n.to_i128()
    }

    fn to_u128(self) -> Option<u128> {
        self.n.to_u128()
    }

    fn from_i128(n: i128) -> Option<Two3> {
        if -3 <= n && n <= 2 {
            Some(Two3 { n: n as i8 })
        } else {
            None
        }
    }

    fn from_u128(n: u128) -> Option<Two3> {
        if n <= 2 {
            Some(Two3 { n: n as i8 })
        } else {
            None
        }
    }

    fn half_base() -> Option<Two3> {
        None
    }

    fn exact_sum(_a: Two3, _b: Two3, _c: Two3, _d: Two3) -> Option<(Two3, Two3)> {
        None
    }

    fn exact_diff(_a: Two3, _b: Two3, _c: Two3, _d: Two3) -> Option<(Two3, Two3)> {
        None
    }

    ghost laws = { laws_of_numbers (negsuc 2) (pos 2) (λ x. x) (λ z. z) hash.i8
        (record { high = record { le = tt }; low = inr (inr refl) }) (λ z. refl) };

    ghost exact_remainders_law = { tt };
}

impl SignedInteger for Two3 {
    ghost below_law = { record { lt = tt } };
}
