//! The traits `Integer` (range, constants, arithmetic, gcd and lcm, halves, conversions such as `to_u128`, laws), `SignedInteger`
//! (negatives) and `Primitive` (bits), and what tells a proof that a number is in range.
ghost use Rattle.std.specs.Prelude.{◌≡◌, ◌≢◌, ◌↔◌, ◌≤◌, ◌≤ℤ◌, ◌<ℤ◌, ◌+ℤ◌, ◌-ℤ◌, ◌*ℤ◌, ◌-◌, ◌^◌, ℕ, ℤ, pos, neg_ℤ, Bool, List, Some, IsFalse, IsNone, IsTrue, MatchOption, int_div, int_rem};
ghost use Rattle.std.specs.Bool.{OnFalse, OnTrue};
ghost use Rattle.std.specs.Ordering.{int_cmp, partial_lt};
ghost use Rattle.ratio_integer.specs.Arithmetic.{difference_of, sum_of};
ghost use Rattle.ratio_integer.specs.Comparison.{Tells, lt_tells};
ghost use Rattle.ratio_integer.specs.Division.{ChecksLcm, IsAboveMax, IsFloored, IsFlooredQuotient, IsFlooredRemainder, IsGcdAboveMax, IsGcdOf, IsLcmOf, IsMultiple, LcmHeld};
ghost use Rattle.ratio_integer.specs.Fraction.{ChecksLowest};
ghost use Rattle.ratio_integer.specs.Halves.{AreHalves, IsBase};
ghost use Rattle.ratio_integer.specs.Laws.{IsLawful};
ghost use Rattle.ratio_integer.specs.Range.{Checks, FitsIn128, IsHeld, IsRange};
ghost use Rattle.ratio_integer.specs.SignedBits.{greatest128, least128};

use std::hash::Hash;

/// A type of the whole numbers from `lo` to `hi`. Each value has one of these numbers. Values are equal,
/// ordered and hashed by their numbers. Values with the same number need not be identical.
pub trait Integer: Copy + Ord + Hash {
    // The least and the greatest number.
    ghost lo: { ℤ };

    ghost hi: { ℤ };

    // The number of a value.
    ghost value: { Self → ℤ };

    // What a value of this number feeds a hasher.
    ghost number_hash_input: { ℤ → List (List ℕ) };

    ghost ZERO: { Self };

    ghost ONE: { Self };

    ghost MIN: { Self };

    ghost MAX: { Self };

    ghost EXACT_SUMS: { Bool };

    ghost EXACT_REMAINDERS: { Bool };

    // Whether there is a half base.
    ghost is_halved: { Bool };

    // The number of `ONE` is 1. A constant fraction over the type can name this fact.
    ghost one_number: { value ONE ≡ pos 1 };

    /// The number 0.
    const ZERO: Self;

    /// The number 1.
    const ONE: Self;

    /// The least number.
    const MIN: Self;

    /// The greatest number.
    const MAX: Self;

    /// Whether `exact_sum` and `exact_diff` compute a result. If not, they always return `None`.
    const EXACT_SUMS: bool;

    /// Whether the remainder of two fractions is exact. It can be if each number of the type fits an `i128`, or
    /// each fits a `u128`.
    const EXACT_REMAINDERS: bool;

    /// The sum. It requires that `try_plus` returns `Some`.
    fn plus(self, o: Self) -> Self
        requires { IsHeld lo hi (value self +ℤ value o) }
        ensures { value result ≡ value self +ℤ value o };

    /// The difference. It requires that `try_minus` returns `Some`.
    fn minus(self, o: Self) -> Self
        requires { IsHeld lo hi (value self -ℤ value o) }
        ensures { value result ≡ value self -ℤ value o };

    /// The product. It requires that `try_times` returns `Some`.
    fn times(self, o: Self) -> Self
        requires { IsHeld lo hi (value self *ℤ value o) }
        ensures { value result ≡ value self *ℤ value o };

    /// The product, or `None` if it does not fit the type.
    fn try_times(self, o: Self) -> Option<Self>
        ensures { Checks value lo hi (value self *ℤ value o) result };

    /// The quotient cut towards zero, and the remainder, which is 0 or has the sign of `self`: -3 and -1 for
    /// -7 by 2. The quotient always fits the type, except for `-hi-1` by -1.
    fn div_rem(self, o: Self) -> (Self, Self)
        requires nonzero { value o ≢ pos 0 }
        requires held { ¬ (IsAboveMax hi (value self) (value o)) }
        ensures quotient { value result.0 ≡ int_div (value self) (value o) }
        ensures remainder { value result.1 ≡ int_rem (value self) (value o) };

    /// The number as an `i128`, or `None` if it does not fit that type. The
    /// contract also says that the number lies from `lo` to `hi`.
    fn to_i128(self) -> Option<i128>
        ensures number { Checks (λ n. n) least128 greatest128 (value self) result }
        ensures range { IsHeld lo hi (value self) };

    /// The number as a `u128`, or `None` if it does not fit that type.
    fn to_u128(self) -> Option<u128>
        ensures { Checks (λ n. pos n) (pos 0) (pos (2 ^ 128 - 1)) (value self) result };

    /// The value with the number `n`, or `None` if `n` does not fit the type.
    fn from_i128(n: i128) -> Option<Self>
        ensures { Checks value lo hi n result };

    /// The value with the number `n`, or `None` if `n` does not fit the type.
    fn from_u128(n: u128) -> Option<Self>
        ensures { Checks value lo hi (pos n) result };

    /// The half base, if dividing by it is quick: the root of the count of the type's numbers, as 2^32 over `i64`. It is even
    /// and at least 6, the greatest number is 1 less than a multiple of it, and at least half of the numbers are not below 0.
    /// `None` if the type has no such base, or no quick way to divide by it.
    fn half_base() -> Option<Self>
        ensures { MatchOption result (IsFalse is_halved) (λ base. IsTrue is_halved × IsBase lo hi (value base)) };

    /// If `EXACT_SUMS` is true, the lowest terms of `a/b + c/d`, or `None` if they do not fit the type. If it is
    /// false, always `None`.
    fn exact_sum(a: Self, b: Self, c: Self, d: Self) -> Option<(Self, Self)>
        requires left_positive { pos 0 <ℤ value b }
        requires right_positive { pos 0 <ℤ value d }
        ensures exact { OnTrue EXACT_SUMS (ChecksLowest (λ r. value r.0) (λ r. value r.1) lo hi
            (sum_of (value a) (value b) (value c) (value d)) result) }
        ensures none { OnFalse EXACT_SUMS (IsNone result) };

    /// If `EXACT_SUMS` is true, the lowest terms of `a/b - c/d`, or `None` if they do not fit the type. If it is
    /// false, always `None`.
    fn exact_diff(a: Self, b: Self, c: Self, d: Self) -> Option<(Self, Self)>
        requires left_positive { pos 0 <ℤ value b }
        requires right_positive { pos 0 <ℤ value d }
        ensures exact { OnTrue EXACT_SUMS (ChecksLowest (λ r. value r.0) (λ r. value r.1) lo hi
            (difference_of (value a) (value b) (value c) (value d)) result) }
        ensures none { OnFalse EXACT_SUMS (IsNone result) };

    /// Always true. The contract says that the number fits the type.
    fn held(self) -> bool
        ensures answer { IsTrue result }
        ensures range { IsHeld lo hi (value self) }
    {
        let _ = self.to_i128();
        true
    }

    /// Whether the number is 0.
    fn is_zero(self) -> bool
        ensures { IsTrue result ↔ (value self ≡ pos 0) }
    {
        self == Self::ZERO
    }

    /// Whether the number is 1.
    fn is_one(self) -> bool
        ensures { IsTrue result ↔ (value self ≡ pos 1) }
    {
        self == Self::ONE
    }

    /// Whether 2 divides the number.
    fn is_even(self) -> bool
        ensures { IsTrue result ↔ IsMultiple (value self) (pos 2) }
    {
        let two = Self::ONE.plus(Self::ONE);
        let (_, left_over) = self.div_rem(two);
        left_over.is_zero()
    }

    /// Whether 2 does not divide the number.
    fn is_odd(self) -> bool
        ensures { IsTrue result ↔ (¬ (IsMultiple (value self) (pos 2))) }
    {
        !self.is_even()
    }

    /// The sum, or `None` if it does not fit the type.
    fn try_plus(self, o: Self) -> Option<Self>
        ensures { Checks value lo hi (value self +ℤ value o) result }
    {
        let _ = self.held();
        let _ = o.held();
        if o < Self::ZERO {
            if self < Self::MIN.minus(o) {
                return None;
            }
        } else if Self::MAX.minus(o) < self {
            return None;
        }
        Some(self.plus(o))
    }

    /// The difference, or `None` if it does not fit the type.
    fn try_minus(self, o: Self) -> Option<Self>
        ensures { Checks value lo hi (value self -ℤ value o) result }
    {
        let _ = self.held();
        let _ = o.held();
        if o < Self::ZERO {
            if Self::MAX.plus(o) < self {
                return None;
            }
        } else if self < Self::MIN.plus(o) {
            return None;
        }
        Some(self.minus(o))
    }

    /// The least common multiple, or `None` if it does not fit the type. It is
    /// never negative, and it is 0 if either number is 0.
    fn try_lcm(self, o: Self) -> Option<Self>
        ensures { ChecksLcm value lo hi (value self) (value o) result }
    {
        if self.is_zero() || o.is_zero() {
            return Some(Self::ZERO);
        }
        let _ = self.held();
        let _ = o.held();
        // The gcd of the least number and itself may not fit the type.
        if self == o {
            return if self < Self::ZERO {
                Self::ZERO.try_minus(self)
            } else {
                Some(self)
            };
        }
        let (part, _) = self.div_rem(self.gcd(o));
        let _ = part.held();
        match part.try_times(o) {
            None => None,
            Some(product) => {
                if product < Self::ZERO {
                    Self::ZERO.try_minus(product)
                } else {
                    Some(product)
                }
            }
        }
    }

    /// The floored quotient, and the remainder, which is 0 or has the sign of `o`: -4 and 1 for -7 by 2. The
    /// quotient always fits the type, except for `-hi-1` by -1.
    fn div_mod_floor(self, o: Self) -> (Self, Self)
        requires nonzero { value o ≢ pos 0 }
        requires held { ¬ (IsAboveMax hi (value self) (value o)) }
        ensures { IsFloored (value self) (value o) (value result.0) (value result.1) }
    {
        let _ = self.held();
        let _ = o.held();
        let (quotient, rest) = self.div_rem(o);
        let other_side = if o < Self::ZERO {
            Self::ZERO < rest
        } else {
            rest < Self::ZERO
        };
        if other_side {
            (quotient.minus(Self::ONE), rest.plus(o))
        } else {
            (quotient, rest)
        }
    }

    /// The floored quotient, which is the greatest whole number that is not above the exact one: -4 for -7 by 2.
    fn div_floor(self, o: Self) -> Self
        requires nonzero { value o ≢ pos 0 }
        requires held { ¬ (IsAboveMax hi (value self) (value o)) }
        ensures { IsFlooredQuotient (value self) (value o) (value result) }
    {
        self.div_mod_floor(o).0
    }

    /// The remainder of a floored division, which is 0 or has the sign of `o`: 1 for -7 by 2.
    fn mod_floor(self, o: Self) -> Self
        requires nonzero { value o ≢ pos 0 }
        requires held { ¬ (IsAboveMax hi (value self) (value o)) }
        ensures { IsFlooredRemainder (value self) (value o) (value result) }
    {
        self.div_mod_floor(o).1
    }

    /// The high and the low half: the floored quotient and the rest by the half base, as -1 and 2^32-5 of -5 over `i64`. The
    /// product of two low halves may not fit the type, but half of it does. Of any other base above 0 nothing is said.
    fn halves(self, base: Self) -> (Self, Self)
        requires { pos 0 <ℤ value base }
        ensures { IsBase lo hi (value base) → AreHalves lo hi (value self) (value result.0) (value result.1) }
    {
        self.div_mod_floor(base)
    }

    /// The greatest common divisor. It is never negative, and for 0 and 0 it is 0. It fits the type, unless
    /// one number is `-hi-1` and the other is `-hi-1` or 0.
    fn gcd(self, o: Self) -> Self
        requires { ¬ (IsGcdAboveMax hi (value self) (value o)) }
        ensures { IsGcdOf (value self) (value o) (value result) }
    {
        let _ = self.held();
        let _ = o.held();
        let mut x = self;
        let mut y = o;
        'steps: while !y.is_zero() {
            // Dividing the least number by -1 may overflow.
            if y < Self::ZERO && y.plus(Self::ONE).is_zero() {
                return Self::ONE;
            }
            let (_, rest) = x.div_rem(y);
            x = y;
            y = rest;
        }
        if x < Self::ZERO {
            Self::ZERO.minus(x)
        } else {
            x
        }
    }

    /// The greatest common divisors of `a` and `b` and of `c` and `d`. A type may compute both in less time than
    /// one after the other.
    fn gcds(a: Self, b: Self, c: Self, d: Self) -> (Self, Self)
        requires left_held { ¬ (IsGcdAboveMax hi (value a) (value b)) }
        requires right_held { ¬ (IsGcdAboveMax hi (value c) (value d)) }
        ensures left { IsGcdOf (value a) (value b) (value result.0) }
        ensures right { IsGcdOf (value c) (value d) (value result.1) }
    {
        (a.gcd(b), c.gcd(d))
    }

    /// The least common multiple. It is never negative, and it is 0 if either
    /// number is 0. The call requires that `try_lcm` returns `Some`.
    fn lcm(self, o: Self) -> Self
        requires { LcmHeld lo hi (value self) (value o) }
        ensures { IsLcmOf (value self) (value o) (value result) }
    {
        match self.try_lcm(o) {
            Some(multiple) => multiple,
            None => unreachable!(),
        }
    }

    /// Whether the number is a whole number times `o`. Of 0, only 0 is a multiple.
    fn is_multiple_of(self, o: Self) -> bool
        ensures { IsTrue result ↔ IsMultiple (value self) (value o) }
    {
        let _ = o.held();
        if o.is_zero() {
            return self.is_zero();
        }
        // Dividing the least number by -1 may overflow.
        if o < Self::ZERO && o.plus(Self::ONE).is_zero() {
            return true;
        }
        let (_, rest) = self.div_rem(o);
        rest.is_zero()
    }

    // All laws at once. An impl proves this one, and the others follow from it.
    ghost laws: { IsLawful Self lo hi value ZERO ONE MIN MAX
        Self.eq Self.cmp Self.partial_cmp Self.hash_input number_hash_input };

    ghost range_law: { IsRange lo hi } = { laws.range };

    // Each number in range is the number of some value.
    ghost every_law: { (z : ℤ) → IsHeld lo hi z → (x : Self) × (value x ≡ z) } = { laws.every };

    ghost zero_law: { value ZERO ≡ pos 0 } = { laws.zero_number };

    ghost one_law: { value ONE ≡ pos 1 } = { laws.one_number };

    ghost min_law: { value MIN ≡ lo } = { laws.min_number };

    ghost max_law: { value MAX ≡ hi } = { laws.max_number };

    // Values are equal, ordered and hashed by their numbers.
    ghost eq_law: { (a b : Self) → IsTrue (Self.eq a b) ↔ (value a ≡ value b) } = { laws.equal };

    ghost cmp_law: { (a b : Self) → Self.cmp a b ≡ int_cmp (value a) (value b) } = { laws.ordered };

    ghost partial_cmp_law: { (a b : Self) → Self.partial_cmp a b ≡ Some (int_cmp (value a) (value b)) } = { laws.partly_ordered };

    // What `<` tells of the numbers.
    ghost lt_law: { (a b : Self) → Tells (partial_lt Self.partial_cmp a b) (value a <ℤ value b) (value b ≤ℤ value a) } = { lt_tells Self.partial_cmp value laws.partly_ordered };

    ghost hash_law: { (a : Self) → Self.hash_input a ≡ number_hash_input (value a) } = { laws.hashed };

    // If remainders are exact, each magnitude fits a `u128`.
    ghost exact_remainders_law: { OnTrue EXACT_REMAINDERS (FitsIn128 lo hi) };
}

/// A type that has the negative of each of its numbers, except perhaps of the least.
pub trait SignedInteger: Integer {
    /// The negative. It requires that `try_negate` returns `Some`.
    fn negate(self) -> Self
        requires { IsHeld Self.lo Self.hi (neg_ℤ (Self.value self)) }
        ensures { Self.value result ≡ neg_ℤ (Self.value self) }
    {
        Self::ZERO.minus(self)
    }

    /// The negative, or `None` if it does not fit the type. That can only be for the least number, such as -128 over `i8`.
    fn try_negate(self) -> Option<Self>
        ensures { Checks Self.value Self.lo Self.hi (neg_ℤ (Self.value self)) result }
    {
        Self::ZERO.try_minus(self)
    }

    ghost below_law: { Self.lo <ℤ pos 0 };
}

/// A type that has every whole number of `BITS` bits, signed or unsigned.
pub trait Primitive: Integer {
    // The width, at most 128.
    ghost BITS: { ℕ };

    const BITS: u32;

    ghost width_law: { (BITS ≤ 128) × (Self.hi +ℤ pos 1 ≡ Self.lo +ℤ pos (2 ^ BITS)) };
}

/// Does nothing at run time. Its contract tells that both numbers lie between the type's least and
/// greatest number: a value in hand is in range, and no law can say that.
#[inline(always)]
pub fn both_held<T: Integer>(first: T, second: T)
    ensures first { IsHeld T.lo T.hi (T.value first) }
    ensures second { IsHeld T.lo T.hi (T.value second) }
{
    let _ = first.held();
    let _ = second.held();
}
