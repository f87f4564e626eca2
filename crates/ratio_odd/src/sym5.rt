// Written by templates/write from templates/odd.rt.txt: change that file, and write this one anew.
//! `Sym5`, a type whose least number is the negative of its greatest one. No machine type is like that.
ghost use Rattle.std.specs.Prelude.{◌≡◌, ℤ, pos, negsuc, false};
ghost use Rattle.std.specs.Hash as hash;
ghost use Rattle.std.proofs.Common.{inl, inr, refl};
ghost use Rattle.ratio_integer.specs.Range.{IsHeld};
ghost use Rattle.ratio_odd.specs.Numbers.{laws_of_numbers};

use ratio_integer::{Integer, SignedInteger};
use std::marker::Model;

/// The whole numbers from -5 to 5, made by `from_i128`.
#[derive(Clone, Copy, PartialEq, Eq, PartialOrd, Ord, Hash)]
pub struct Sym5 {
    n: i8,
}

impl Model for Sym5 {
    ghost Value = { ℤ };

    ghost view = { λ x. x.n };

    ghost invariant = { λ x. IsHeld (negsuc 4) (pos 5) x.n };

    ghost inverse = { λ z. record { n = z } };
}

impl Integer for Sym5 {
    ghost lo = { negsuc 4 };

    ghost hi = { pos 5 };

    ghost value = { λ x. x };

    ghost number_hash_input = { hash.i8 };

    ghost ZERO = { pos 0 };

    ghost ONE = { pos 1 };

    ghost MIN = { negsuc 4 };

    ghost MAX = { pos 5 };

    ghost EXACT_SUMS = { false };

    ghost EXACT_REMAINDERS = { false };

    ghost is_halved = { false };

    ghost one_number = { refl };

    const ZERO: Sym5 = Sym5 { n: 0 };

    const ONE: Sym5 = Sym5 { n: 1 };

    const MIN: Sym5 = Sym5 { n: -5 };

    const MAX: Sym5 = Sym5 { n: 5 };

    const EXACT_SUMS: bool = false;

    const EXACT_REMAINDERS: bool = false;

    fn plus(self, o: Sym5) -> Sym5 {
        Sym5 { n: self.n + o.n }
    }

    fn minus(self, o: Sym5) -> Sym5 {
        Sym5 { n: self.n - o.n }
    }

    fn times(self, o: Sym5) -> Sym5 {
        Sym5 { n: self.n * o.n }
    }

    fn try_times(self, o: Sym5) -> Option<Sym5> {
        let n = self.n * o.n;
        if -5 <= n && n <= 5 {
            Some(Sym5 { n })
        } else {
            None
        }
    }

    fn div_rem(self, o: Sym5) -> (Sym5, Sym5) {
        let (quotient, rest) = self.n.div_rem(o.n);
        (Sym5 { n: quotient }, Sym5 { n: rest })
    }

    fn to_i128(self) -> Option<i128> {
        self.n.to_i128()
    }

    fn to_u128(self) -> Option<u128> {
        self.n.to_u128()
    }

    fn from_i128(n: i128) -> Option<Sym5> {
        if -5 <= n && n <= 5 {
            Some(Sym5 { n: n as i8 })
        } else {
            None
        }
    }

    fn from_u128(n: u128) -> Option<Sym5> {
        if n <= 5 {
            Some(Sym5 { n: n as i8 })
        } else {
            None
        }
    }

    fn half_base() -> Option<Sym5> {
        None
    }

    fn exact_sum(_a: Sym5, _b: Sym5, _c: Sym5, _d: Sym5) -> Option<(Sym5, Sym5)> {
        None
    }

    fn exact_diff(_a: Sym5, _b: Sym5, _c: Sym5, _d: Sym5) -> Option<(Sym5, Sym5)> {
        None
    }

    ghost laws = { laws_of_numbers (negsuc 4) (pos 5) (λ x. x) (λ z. z) hash.i8
        (record { high = record { le = tt }; low = inr (inl refl) }) (λ z. refl) };

    ghost exact_remainders_law = { tt };
}

impl SignedInteger for Sym5 {
    ghost below_law = { record { lt = tt } };
}
