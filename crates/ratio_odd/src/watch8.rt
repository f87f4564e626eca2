//! `Watched`, a type that counts how often its numbers are divided, and how often they are added or subtracted.
ghost use Rattle.std.specs.Prelude.{◌≡◌, ◌-◌, ◌^◌, pos, negsuc, Bool, false, true};
ghost use Rattle.std.specs.Hash as hash;
ghost use Rattle.std.specs.Cmp.{partial_order_from_own_ties};
ghost use Rattle.std.specs.Cmp.Rules.{comparing, hashing};
ghost use Rattle.std.specs.Ordering.{as_partial_cmp, int_cmp, int_eq, on};
ghost use Rattle.std.proofs.Common.{inl, inr, lit≤, refl, rules};
ghost use Rattle.ratio_odd.specs.Numbers.{laws_of_numbers};
ghost use Rattle.ratio_odd.specs.Watched.{unwatched, watched_number};

use ratio_integer::Integer;
use std::cell::Cell;
use std::cmp::Ordering;
use std::hash::{Hash, Hasher};

/// A counter that can be raised by one. No contract says how far it got.
pub trait Counter: Copy {
    // Whether the numbers that it watches have a half base.
    ghost halves: { Bool };

    /// Raises the counter by one.
    fn raise(self);

    /// Whether the numbers that it watches have a half base.
    fn has_halves() -> bool
        ensures { result ≡ halves };
}

impl Counter for &Cell<u32> {
    ghost halves = { false };

    /// One more, and 0 after the greatest number.
    fn raise(self) {
        self.set(self.get().wrapping_add(1));
    }

    fn has_halves() -> bool
        ensures { result ≡ false }
    {
        false
    }
}

/// A cell as a counter of numbers that have halves.
#[derive(Clone, Copy)]
pub struct Halving<'a>(pub &'a Cell<u32>);

impl Counter for Halving<'_> {
    ghost halves = { true };

    fn raise(self) {
        self.0.raise();
    }

    fn has_halves() -> bool
        ensures { result ≡ true }
    {
        true
    }
}

/// The numbers of `i8`, watched by two counters. Each division raises one of them; each sum and each
/// difference raises the other. A number made from watched ones is watched. Constants and the numbers
/// that `from_i128` and `from_u128` make are not. Only the numbers count when values are compared or
/// hashed.
#[derive(Clone, Copy)]
pub struct Watched<C: Counter> {
    n: i8,
    counters: Option<Counters<C>>,
}

/// The numbers of `i8`, with two cells as counters.
pub type Watch8<'a> = Watched<&'a Cell<u32>>;

/// Numbers as those of `Watch8`, with halves. A division by 16 gives the halves of a number, and it is counted.
pub type HalvedWatch8<'a> = Watched<Halving<'a>>;

/// The two counters of a watched number.
#[derive(Clone, Copy)]
struct Counters<C: Counter> {
    divs: C,
    sums: C,
}

impl<C: Counter> Watched<C> {
    /// The number `v`. Its divisions raise `divs`; its sums and differences raise `sums`.
    pub fn new(v: i8, divs: C, sums: C) -> Watched<C>
        ensures { watched_number result ≡ v }
    {
        Watched {
            n: v,
            counters: Some(Counters { divs, sums }),
        }
    }

    /// The counters of this number or, if it has none, of the other one.
    fn counters_with(self, o: Watched<C>) -> Option<Counters<C>> {
        match self.counters {
            Some(counters) => Some(counters),
            None => o.counters,
        }
    }

    /// Counts the division that made this number.
    fn count_division(&self) {
        if let Some(counters) = self.counters {
            counters.divs.raise();
        }
    }

    /// Counts the sum or the difference that made this number.
    fn count_sum(&self) {
        if let Some(counters) = self.counters {
            counters.sums.raise();
        }
    }
}

impl<C: Counter> PartialEq for Watched<C> {
    ghost eq = { on watched_number int_eq };

    ghost laws = { Prim.search (comparing, rules) };

    fn eq(&self, other: &Self) -> bool {
        self.n == other.n
    }
}

impl<C: Counter> Eq for Watched<C> {
    ghost laws = { Prim.search (comparing, rules) };
}

impl<C: Counter> PartialOrd for Watched<C> {
    ghost partial_cmp = { as_partial_cmp (on watched_number int_cmp) };

    ghost laws = { partial_order_from_own_ties (Prim.search (comparing, rules)) (Prim.search (comparing, rules)) };

    fn partial_cmp(&self, other: &Self) -> Option<Ordering> {
        Some(self.cmp(other))
    }
}

impl<C: Counter> Ord for Watched<C> {
    ghost cmp = { on watched_number int_cmp };

    ghost total = { Prim.search (comparing, rules) };

    ghost matches_partial_cmp = { Prim.search (comparing, rules) };

    ghost matches_eq = { Prim.search (comparing, rules) };

    fn cmp(&self, other: &Self) -> Ordering {
        self.n.cmp(&other.n)
    }
}

impl<C: Counter> Hash for Watched<C> {
    ghost hash_input = { λ x. hash.i8 (watched_number x) };

    ghost respects_eq = { Prim.search (hashing, rules) };

    fn hash<H: Hasher>(&self, state: &mut H) {
        self.n.hash(state);
    }
}

impl<C: Counter> Integer for Watched<C> {
    ghost lo = { negsuc (2 ^ 7 - 1) };

    ghost hi = { pos (2 ^ 7 - 1) };

    ghost value = { watched_number };

    ghost number_hash_input = { hash.i8 };

    ghost ZERO = { unwatched (pos 0) };

    ghost ONE = { unwatched (pos 1) };

    ghost MIN = { unwatched (negsuc (2 ^ 7 - 1)) };

    ghost MAX = { unwatched (pos (2 ^ 7 - 1)) };

    ghost EXACT_SUMS = { false };

    ghost EXACT_REMAINDERS = { false };

    ghost is_halved = { C.halves };

    ghost one_number = { refl };

    const ZERO: Watched<C> = Watched {
        n: 0,
        counters: None,
    };

    const ONE: Watched<C> = Watched {
        n: 1,
        counters: None,
    };

    const MIN: Watched<C> = Watched {
        n: i8::MIN,
        counters: None,
    };

    const MAX: Watched<C> = Watched {
        n: i8::MAX,
        counters: None,
    };

    const EXACT_SUMS: bool = false;

    const EXACT_REMAINDERS: bool = false;

    fn plus(self, o: Watched<C>) -> Watched<C> {
        let sum = Watched {
            n: self.n + o.n,
            counters: self.counters_with(o),
        };
        sum.count_sum();
        sum
    }

    fn minus(self, o: Watched<C>) -> Watched<C> {
        let difference = Watched {
            n: self.n - o.n,
            counters: self.counters_with(o),
        };
        difference.count_sum();
        difference
    }

    fn times(self, o: Watched<C>) -> Watched<C> {
        Watched {
            n: self.n * o.n,
            counters: self.counters_with(o),
        }
    }

    fn try_times(self, o: Watched<C>) -> Option<Watched<C>> {
        match self.n.checked_mul(o.n) {
            Some(n) => Some(Watched {
                n,
                counters: self.counters_with(o),
            }),
            None => None,
        }
    }

    fn div_rem(self, o: Watched<C>) -> (Watched<C>, Watched<C>) {
        let (n, rest) = self.n.div_rem(o.n);
        let counters = self.counters_with(o);
        let quotient = Watched { n, counters };
        quotient.count_division();
        (quotient, Watched { n: rest, counters })
    }

    fn to_i128(self) -> Option<i128> {
        self.n.to_i128()
    }

    fn to_u128(self) -> Option<u128> {
        self.n.to_u128()
    }

    fn from_i128(n: i128) -> Option<Watched<C>> {
        match i8::from_i128(n) {
            Some(n) => Some(Watched { n, counters: None }),
            None => None,
        }
    }

    fn from_u128(n: u128) -> Option<Watched<C>> {
        match i8::from_u128(n) {
            Some(n) => Some(Watched { n, counters: None }),
            None => None,
        }
    }

    fn half_base() -> Option<Watched<C>> {
        if C::has_halves() {
            Some(Watched {
                n: 16,
                counters: None,
            })
        } else {
            None
        }
    }

    fn exact_sum(
        _a: Watched<C>,
        _b: Watched<C>,
        _c: Watched<C>,
        _d: Watched<C>,
    ) -> Option<(Watched<C>, Watched<C>)> {
        None
    }

    fn exact_diff(
        _a: Watched<C>,
        _b: Watched<C>,
        _c: Watched<C>,
        _d: Watched<C>,
    ) -> Option<(Watched<C>, Watched<C>)> {
        None
    }

    ghost laws = { laws_of_numbers (negsuc (2 ^ 7 - 1)) (pos (2 ^ 7 - 1)) watched_number unwatched hash.i8
        (record { high = record { le = tt }; low = inr (inr refl) }) (λ z. refl) };

    ghost exact_remainders_law = { tt };
}
