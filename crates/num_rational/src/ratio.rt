//! `Ratio`, the fraction type, and its methods, which the traits hand on to: constructors, `zero` and `one`, fields, conversions such as
//! `to_u128`, order, hash, powers, rounding, the nearest fraction, signs, floats and texts.
//!
//! Operators, folds and JSON have files of their own.
ghost use Rattle.std.specs.Prelude.{◌≡◌, ◌≢◌, ◌↔◌, ◌+◌, ◌++◌, ◌<ℤ◌, ◌-◌, ◌^◌, ◌≤◌, ◌≤ℤ◌, false, fold, length, neg_ℤ, pos, IsTrue, List, ℕ, ℤ};
ghost use Rattle.std.specs.Float.{binary32, binary64};
ghost use Rattle.ratio_integer.specs.Fraction.{Fits, IsLowestTerms};
ghost use Rattle.ratio_integer.specs.Range.{IsHeld};
ghost use Rattle.ratio_integer.specs.SignedBits.{greatest128, greatest64, least128, least64};
ghost use Rattle.ratio_core.specs.ContinuedFraction.{IsCodeCount, IsCodesOf, IsStepCount, TellsApart};
ghost use Rattle.ratio_core.specs.Power.{PowerCondition};
ghost use Rattle.ratio_core.specs.Printing.{ReadsBack, base_of, base_ten_room, text_of};
ghost use Rattle.ratio_core.specs.Reading.{AnswersText, IsFractionText, IsSlashedText};
ghost use Rattle.ratio_core.specs.Rounding.{ChecksTruncation, IsCeiling, IsFloor, IsFractionalPart, IsRounded, IsTruncation};
ghost use Rattle.ratio_core.specs.Signs.{IsAbsolute, IsNegative, IsPositive, IsPositiveDifference, IsSign, PositiveDifferenceCondition};
ghost use Rattle.ratio_core.specs.declared.text.Form.TheVariants.{Decimal};
ghost use Rattle.ratio_approximation.specs.Nearest.{IsNearest};
ghost use Rattle.ratio_decimal.specs.Floats.{nearest_float};

mod traits;

use ratio_core::{
    BaseTenText, CodeList, Exponent, Form, ParseRatioError, RatioText, Steps, checked_new, pow,
    rounding, sign, text,
};
use ratio_decimal::float::nearest;
use ratio_integer::{Integer, Primitive, SignedInteger};
use std::cmp::Ordering;

/// A fraction of two numbers of the type `T`. Its denominator is not 0. The fields are kept as they
/// are given: `new` and most calls return lowest terms with a positive denominator, but `new_raw`
/// takes any numerator, and any denominator except 0.
#[derive(Copy, Debug)]
pub struct Ratio<T: Copy + Integer> {
    pub(crate) numer: T,
    pub(crate) denom: T,
    ghost nonzero: { T.value denom ≢ pos 0 },
}

/// A fraction of two `isize`.
pub type Rational = Ratio<isize>;

/// A fraction of two `i32`.
pub type Rational32 = Ratio<i32>;

/// A fraction of two `i64`.
pub type Rational64 = Ratio<i64>;

impl<T: Copy + Integer> Ratio<T> {
    ghost use Rattle.num_rational.specs.Comparison.{order_of};
    ghost use Rattle.num_rational.specs.Powers.{ChecksRatioPower, GivesPower, GivesReciprocal};
    ghost use Rattle.num_rational.specs.Ratio.{ChecksRatio, ChecksWhole, IsLowestOf, IsReduced, IsWhole, denominator, fields, numerator};

    /// The fraction with these fields, as they are given. They are not reduced, and the denominator
    /// may be negative.
    pub fn new_raw(numer: T, denom: T) -> Ratio<T>
        requires { T.value denom ≢ pos 0 }
        ensures fields { fields result ≡ (numer, denom) }
        ensures numer { numerator result ≡ T.value numer }
        ensures denom { denominator result ≡ T.value denom }
    {
        Ratio { numer, denom }
    }

    /// The numerator and the denominator, as they are.
    pub fn into_raw(self) -> (T, T)
        ensures fields { result ≡ fields self }
        ensures numer { T.value result.0 ≡ numerator self }
        ensures denom { T.value result.1 ≡ denominator self }
    {
        (self.numer, self.denom)
    }

    /// The numerator, as it is.
    pub fn numer(&self) -> &T
        ensures field { result.now ≡ (fields self.now).0 }
        ensures value { T.value result.now ≡ numerator self.now }
    {
        &self.numer
    }

    /// The denominator, as it is. It is not 0, but it may be negative.
    pub fn denom(&self) -> &T
        ensures field { result.now ≡ (fields self.now).1 }
        ensures value { T.value result.now ≡ denominator self.now }
        ensures nonzero { denominator self.now ≢ pos 0 }
    {
        &self.denom
    }

    /// The whole number over 1.
    pub fn from_integer(t: T) -> Ratio<T>
        ensures { IsWhole (T.value t) result }
    {
        Ratio {
            numer: t,
            denom: T::ONE,
        }
    }

    /// The lowest terms of `n/d`, or `None` if `d` is 0 or they do not fit the type. Over `i8`, 2 and
    /// -128 give -1/64, and 1 and -128 give `None`, since 128 does not fit.
    pub fn checked_new(n: T, d: T) -> Option<Ratio<T>>
        ensures { ChecksRatio (T.value n, T.value d) result }
    {
        match checked_new::checked_new(n, d) {
            Some((numer, denom)) => Some(Ratio { numer, denom }),
            None => None,
        }
    }

    /// The lowest terms of `n/d`. It requires that `checked_new` returns `Some`.
    pub fn new(n: T, d: T) -> Ratio<T>
        requires { Fits T.lo T.hi (T.value n) (T.value d) }
        ensures { IsLowestOf (T.value n, T.value d) result }
    {
        Ratio::checked_new(n, d).unwrap()
    }

    /// The lowest terms of a numerator and a denominator. It requires that `checked_new` returns
    /// `Some`.
    pub fn from_pair(pair: (T, T)) -> Ratio<T>
        requires { Fits T.lo T.hi (T.value pair.0) (T.value pair.1) }
        ensures { IsLowestOf (T.value pair.0, T.value pair.1) result }
    {
        Ratio::new(pair.0, pair.1)
    }

    /// The lowest terms of this fraction; reducing twice is the same as reducing once. It requires
    /// that `checked_new` of the fields returns `Some`. That can fail only for a negative
    /// denominator: over `i8`, for 1/-128.
    pub fn reduced(&self) -> Ratio<T>
        requires { Fits T.lo T.hi (numerator self.now) (denominator self.now) }
        ensures lowest { IsLowestOf (numerator self.now, denominator self.now) result }
        ensures twice { IsReduced result }
    {
        Ratio::new(self.numer, self.denom)
    }

    /// The fraction 0/1.
    pub fn zero() -> Ratio<T>
        ensures { IsWhole (pos 0) result }
    {
        Ratio::<T>::ZERO
    }

    /// The fraction 1/1.
    pub fn one() -> Ratio<T>
        ensures { IsWhole (pos 1) result }
    {
        Ratio::<T>::ONE
    }

    /// Becomes 0/1.
    pub fn set_zero(&mut self)
        ensures { IsWhole (pos 0) self.new }
    {
        *self = Ratio::zero();
    }

    /// Becomes 1/1.
    pub fn set_one(&mut self)
        ensures { IsWhole (pos 1) self.new }
    {
        *self = Ratio::one();
    }

    /// Whether the fraction is 0, that is, whether its numerator is 0.
    pub fn is_zero(&self) -> bool
        ensures { IsTrue result ↔ (numerator self.now ≡ pos 0) }
    {
        self.numer.is_zero()
    }

    /// Whether the fraction is 1, that is, whether its fields are equal. 2/2 is 1, too.
    pub fn is_one(&self) -> bool
        ensures { IsTrue result ↔ (numerator self.now ≡ denominator self.now) }
    {
        self.numer == self.denom
    }

    /// Whether the denominator is 1. So it is false for 4/2, as `new_raw` makes it.
    pub fn is_integer(&self) -> bool
        ensures { IsTrue result ↔ (denominator self.now ≡ pos 1) }
    {
        self.denom.is_one()
    }

    // Whole numbers of fixed types.

    /// The whole number over 1, or `None` if it does not fit the type.
    pub fn from_i64(n: i64) -> Option<Ratio<T>>
        ensures { ChecksWhole n result }
    {
        Ratio::from_i128(n as i128)
    }

    /// The whole number over 1, or `None` if it does not fit the type.
    pub fn from_i128(n: i128) -> Option<Ratio<T>>
        ensures { ChecksWhole n result }
    {
        match T::from_i128(n) {
            Some(t) => Some(Ratio::from_integer(t)),
            None => None,
        }
    }

    /// The whole number over 1, or `None` if it does not fit the type.
    pub fn from_u64(n: u64) -> Option<Ratio<T>>
        ensures { ChecksWhole (pos n) result }
    {
        Ratio::from_u128(n as u128)
    }

    /// The whole number over 1, or `None` if it does not fit the type.
    pub fn from_u128(n: u128) -> Option<Ratio<T>>
        ensures { ChecksWhole (pos n) result }
    {
        match T::from_u128(n) {
            Some(t) => Some(Ratio::from_integer(t)),
            None => None,
        }
    }

    // The order and the hash, with their steps.

    /// How this fraction compares with another one. The denominators may have either sign, and the
    /// fractions need not be reduced.
    ///
    /// Both sides of `steps` rise by the same number. It is 0 if both cross products of the fields
    /// fit the type. Else it is the number of rounds of Euclid's algorithm on both fractions side by
    /// side. It is at most twice the number of binary digits of the smaller denominator.
    pub fn cmp_counted(&self, other: &Self, steps: &mut Steps) -> Ordering
        ensures order { result ≡ order_of self.now other.now }
        ensures steps { (k : ℕ) × (steps.new.left ≡ steps.old.left + k)
            × (steps.new.right ≡ steps.old.right + k)
            × IsStepCount T.lo T.hi (numerator self.now) (denominator self.now) (numerator other.now) (denominator other.now) k }
    {
        ratio_core::cmp_counted(self.numer, self.denom, other.numer, other.denom, steps)
    }

    /// Hands the codes of this fraction to `list`: the quotients of its continued fraction, and then
    /// 0. The codes of 7/3 are 2, 3 and 0. The quotient `hi + 1`, which does not fit the type, is
    /// written as the least number, twice.
    ///
    /// Of all fractions over the type, exactly those of the same value have these codes. The left
    /// side of `steps` rises by one for each quotient except `hi + 1`. That is at most twice the
    /// number of binary digits of the denominator.
    pub fn hash_counted<L: CodeList<T>>(&self, list: &mut L, steps: &mut Steps)
        ensures codes { (codes : List ℤ) × IsCodesOf T.lo T.hi (numerator self.now) (denominator self.now) codes
            × TellsApart T.lo T.hi (numerator self.now) (denominator self.now) codes
            × (L.taken list.new ≡ L.taken list.old ++ codes) × (list.new ≡ fold L.after list.old codes) }
        ensures left { (k : ℕ) × (steps.new.left ≡ steps.old.left + k)
            × IsCodeCount T.hi (numerator self.now) (denominator self.now) k }
        ensures right { steps.new.right ≡ steps.old.right }
    {
        ratio_core::hash_counted(self.numer, self.denom, list, steps);
    }

    // Reciprocals and powers.

    /// The reciprocal, with its sign in the numerator: -3/2 for -2/3. It is not reduced. If the
    /// numerator is negative, its negative must fit the type. Over `i8`, only -128 has none.
    pub fn recip(&self) -> Ratio<T>
        requires positive { pos 0 <ℤ denominator self.now }
        requires nonzero { numerator self.now ≢ pos 0 }
        requires held { numerator self.now <ℤ pos 0 → IsHeld T.lo T.hi (neg_ℤ (numerator self.now)) }
        ensures { GivesReciprocal self.now result }
    {
        let (numer, denom) = pow::recip(self.numer, self.denom);
        Ratio::new_raw(numer, denom)
    }

    /// The reciprocal, as `recip` gives it, of a fraction that is passed by value: `num-rational` has both names.
    pub fn inv(self) -> Ratio<T>
        requires positive { pos 0 <ℤ denominator self }
        requires nonzero { numerator self ≢ pos 0 }
        requires held { numerator self <ℤ pos 0 → IsHeld T.lo T.hi (neg_ℤ (numerator self)) }
        ensures { GivesReciprocal self result }
    {
        self.recip()
    }

    /// The power, or `None` if it does not fit the type: see `checked_pow_with`.
    pub fn checked_pow(&self, exponent: i32) -> Option<Ratio<T>>
        requires { pos 0 <ℤ denominator self.now }
        ensures { ChecksRatioPower self.now exponent result }
    {
        self.checked_pow_with(exponent)
    }

    /// The power. It requires that `checked_pow` returns `Some`.
    pub fn pow(&self, exponent: i32) -> Ratio<T>
        requires positive { pos 0 <ℤ denominator self.now }
        requires answered { PowerCondition T.lo T.hi (numerator self.now) (denominator self.now) exponent }
        ensures { GivesPower self.now exponent result }
    {
        self.checked_pow(exponent).unwrap()
    }

    /// The power: each field to the exponent, not reduced. For the exponent 0 it is 1/1, also for
    /// 0/1. For a negative exponent it is the reciprocal of the power with its magnitude: 2/4 to the
    /// -2 is 16/4.
    ///
    /// The call returns `None` exactly if one of the two powers does not fit the type or, for a
    /// negative exponent, if the numerator is 0 or the sign cannot be moved. All powers of 0/1, 1/1
    /// and -1/1 fit, but 0 has no negative power.
    pub fn checked_pow_with<E: Exponent>(&self, exponent: E) -> Option<Ratio<T>>
        requires { pos 0 <ℤ denominator self.now }
        ensures { ChecksRatioPower self.now (E.number exponent) result }
    {
        match pow::checked_pow_with(self.numer, self.denom, exponent) {
            Some((numer, denom)) => Some(Ratio::new_raw(numer, denom)),
            None => None,
        }
    }

    /// The power. It requires that `checked_pow_with` returns `Some`.
    pub fn pow_with<E: Exponent>(&self, exponent: E) -> Ratio<T>
        requires positive { pos 0 <ℤ denominator self.now }
        requires answered { PowerCondition T.lo T.hi (numerator self.now) (denominator self.now) (E.number exponent) }
        ensures { GivesPower self.now (E.number exponent) result }
    {
        self.checked_pow_with(exponent).unwrap()
    }

    // Whole numbers near a fraction, and its fractional part. Each call requires only a positive denominator, and no step overflows.

    /// The greatest whole number that is not above this fraction, over 1: -4/1 for -7/2.
    pub fn floor(&self) -> Ratio<T>
        requires { pos 0 <ℤ denominator self.now }
        ensures floor { IsFloor (numerator self.now) (denominator self.now) (numerator result) }
        ensures whole { denominator result ≡ pos 1 }
    {
        Ratio::from_integer(rounding::floor(self.numer, self.denom))
    }

    /// The least whole number that is not below this fraction, over 1: -3/1 for -7/2.
    pub fn ceil(&self) -> Ratio<T>
        requires { pos 0 <ℤ denominator self.now }
        ensures ceiling { IsCeiling (numerator self.now) (denominator self.now) (numerator result) }
        ensures whole { denominator result ≡ pos 1 }
    {
        Ratio::from_integer(rounding::ceil(self.numer, self.denom))
    }

    /// The whole number nearest to this fraction, over 1. A half is rounded away from zero: 5/2 to
    /// 3/1.
    pub fn round(&self) -> Ratio<T>
        requires { pos 0 <ℤ denominator self.now }
        ensures rounded { IsRounded (numerator self.now) (denominator self.now) (numerator result) }
        ensures whole { denominator result ≡ pos 1 }
    {
        Ratio::from_integer(rounding::round(self.numer, self.denom))
    }

    /// This fraction cut towards zero, over 1: -3/1 for -7/2.
    pub fn trunc(&self) -> Ratio<T>
        requires { pos 0 <ℤ denominator self.now }
        ensures truncation { IsTruncation (numerator self.now) (denominator self.now) (numerator result) }
        ensures whole { denominator result ≡ pos 1 }
    {
        Ratio::from_integer(self.to_integer())
    }

    /// This fraction minus its `trunc`: -1/2 for -7/2. The denominator is kept: 4/2, as `new_raw`
    /// makes it, gives 0/2.
    pub fn fract(&self) -> Ratio<T>
        requires { pos 0 <ℤ denominator self.now }
        ensures part { IsFractionalPart (numerator self.now) (denominator self.now) (numerator result) }
        ensures denom { denominator result ≡ denominator self.now }
    {
        Ratio::new_raw(rounding::fract(self.numer, self.denom), self.denom)
    }

    /// This fraction cut towards zero: -3 for -7/2.
    pub fn to_integer(&self) -> T
        requires { pos 0 <ℤ denominator self.now }
        ensures { IsTruncation (numerator self.now) (denominator self.now) (T.value result) }
    {
        rounding::to_integer(self.numer, self.denom)
    }

    /// This fraction cut towards zero, as an `i64`, or `None` if that does not fit an `i64`.
    pub fn to_i64(&self) -> Option<i64>
        requires { pos 0 <ℤ denominator self.now }
        ensures { ChecksTruncation (λ y. y) least64 greatest64 (numerator self.now) (denominator self.now) result }
    {
        rounding::to_i64(self.numer, self.denom)
    }

    /// This fraction cut towards zero, as an `i128`, or `None` if that does not fit an `i128`.
    pub fn to_i128(&self) -> Option<i128>
        requires { pos 0 <ℤ denominator self.now }
        ensures { ChecksTruncation (λ y. y) least128 greatest128 (numerator self.now) (denominator self.now) result }
    {
        rounding::to_i128(self.numer, self.denom)
    }

    /// This fraction cut towards zero, as a `u64`, or `None` if that does not fit a `u64`. It is 0
    /// for -1/2.
    pub fn to_u64(&self) -> Option<u64>
        requires { pos 0 <ℤ denominator self.now }
        ensures { ChecksTruncation (λ y. pos y) (pos 0) (pos (2 ^ 64 - 1)) (numerator self.now) (denominator self.now) result }
    {
        rounding::to_u64(self.numer, self.denom)
    }

    /// This fraction cut towards zero, as a `u128`, or `None` if that does not fit a `u128`.
    pub fn to_u128(&self) -> Option<u128>
        requires { pos 0 <ℤ denominator self.now }
        ensures { ChecksTruncation (λ y. pos y) (pos 0) (pos (2 ^ 128 - 1)) (numerator self.now) (denominator self.now) result }
    {
        rounding::to_u128(self.numer, self.denom)
    }

    /// The nearest fraction to this one with a denominator from 1 to `most`, in lowest terms. For
    /// 355/113 and 100 it is 311/99. Of two that are as near, it is the one with the smaller
    /// denominator, and of two whole numbers the smaller one: for 1/2 and 1 it is 0/1. It never
    /// fails.
    pub fn nearest(&self, most: T) -> Ratio<T>
        requires positive { pos 0 <ℤ denominator self.now }
        requires room { pos 0 <ℤ T.value most }
        ensures nearest { IsNearest (numerator self.now) (denominator self.now) (T.value most) (numerator result) (denominator result) }
        ensures lowest { IsLowestTerms (numerator result) (denominator result) }
    {
        let (numer, denom) = ratio_approximation::nearest::nearest(self.numer, self.denom, most);
        Ratio::new_raw(numer, denom)
    }
}

impl<T: Copy + SignedInteger> Ratio<T> {
    ghost use Rattle.num_rational.specs.Negation.{IsNegated};
    ghost use Rattle.num_rational.specs.Ratio.{denominator, numerator};

    /// The negative, over the same denominator, also by the symbol `-`. The negative of the numerator
    /// must fit the type. Over `i8`, only -128 has none.
    pub fn neg(self) -> Ratio<T>
        requires { IsHeld T.lo T.hi (neg_ℤ (numerator self)) }
        ensures { IsNegated self result }
    {
        Ratio::new_raw(sign::neg(self.numer), self.denom)
    }

    /// The absolute value, over the same denominator: -1/-2 for 1/-2.
    pub fn abs(&self) -> Ratio<T>
        requires { IsNegative (numerator self.now) (denominator self.now) → IsHeld T.lo T.hi (neg_ℤ (numerator self.now)) }
        ensures numer { IsAbsolute (numerator self.now) (denominator self.now) (numerator result) }
        ensures denom { denominator result ≡ denominator self.now }
    {
        Ratio::new_raw(sign::abs(self.numer, self.denom), self.denom)
    }

    /// The difference in lowest terms if this fraction is above the other one, and else 0/1. If it is
    /// above, the call requires that `checked_sub` returns `Some`.
    pub fn abs_sub(&self, other: &Ratio<T>) -> Ratio<T>
        requires left_positive { pos 0 <ℤ denominator self.now }
        requires right_positive { pos 0 <ℤ denominator other.now }
        requires answered { PositiveDifferenceCondition T.EXACT_SUMS T.lo T.hi (numerator self.now) (denominator self.now)
            (numerator other.now) (denominator other.now) }
        ensures { IsPositiveDifference T.lo T.hi (numerator self.now) (denominator self.now)
            (numerator other.now) (denominator other.now) (numerator result) (denominator result) }
    {
        let (numer, denom) = sign::abs_sub(self.numer, self.denom, other.numer, other.denom);
        Ratio::new_raw(numer, denom)
    }

    /// The sign: -1/1, 0/1 or 1/1.
    pub fn signum(&self) -> Ratio<T>
        ensures sign { IsSign (numerator self.now) (denominator self.now) (numerator result) }
        ensures whole { denominator result ≡ pos 1 }
    {
        Ratio::from_integer(sign::signum(self.numer, self.denom))
    }

    /// Whether the value is above 0.
    pub fn is_positive(&self) -> bool
        ensures { IsTrue result ↔ IsPositive (numerator self.now) (denominator self.now) }
    {
        sign::is_positive(self.numer, self.denom)
    }

    /// Whether the value is below 0.
    pub fn is_negative(&self) -> bool
        ensures { IsTrue result ↔ IsNegative (numerator self.now) (denominator self.now) }
    {
        sign::is_negative(self.numer, self.denom)
    }
}

impl<T: Primitive> Ratio<T> {
    ghost use Rattle.num_rational.specs.Ratio.{ReadsRatio, denominator, numerator};

    /// The fraction of a text in base 10, in lowest terms. The text is `N/D` for two number texts, or
    /// `N`, which means `N/1`: `6/4` gives 3/2. A number text is one or more digits, after an
    /// optional `+`. For a signed type, the sign may be `-`. Leading zeros are allowed, and nothing
    /// else.
    ///
    /// The refusals come in this order: a parse error if a part is not a number text or its number
    /// does not fit the type, a zero denominator, and a parse error if the lowest terms do not fit
    /// the type.
    pub fn from_str(text: &str) -> Result<Ratio<T>, ParseRatioError>
        ensures { ReadsRatio text.now result }
    {
        match text::from_str::<T>(text) {
            Ok((numer, denom)) => Ok(Ratio::new_raw(numer, denom)),
            Err(refusal) => Err(refusal),
        }
    }

    /// The fraction of a text `N/D` in the radix, from 2 to 36, in lowest terms: in base 16, `a/C`
    /// gives 5/6. Number texts are as for `from_str`. The digits above 9 are letters of either case,
    /// and no prefix such as `0x` is allowed. A text without a slash is a parse error. The other
    /// refusals are as for `from_str`.
    pub fn from_str_radix(text: &str, radix: u32) -> Result<Ratio<T>, ParseRatioError>
        requires low { 2 ≤ radix }
        requires high { radix ≤ 36 }
        ensures { AnswersText numerator denominator T.lo T.hi
            (IsSlashedText T.lo T.hi radix text.now) result }
    {
        match text::from_str_radix::<T>(text, radix) {
            Ok((numer, denom)) => Ok(Ratio::new_raw(numer, denom)),
            Err(refusal) => Err(refusal),
        }
    }

    /// The text of the fields as they are: the numerator and, unless the denominator is 1, a slash
    /// and the denominator. With `alternate`, the prefix of the base comes before each number:
    /// `0x2/0x4` for 2/4. Decimal has no prefix.
    ///
    /// Reading the text in base 10 of a fraction with a positive denominator gives its lowest terms. So
    /// does reading a text without prefixes in its base, if no number is below 0 and there is a
    /// slash.
    pub fn text(&self, form: Form, alternate: bool) -> RatioText
        ensures bytes { result
            ≡ text_of T.BITS form alternate (numerator self.now) (denominator self.now) }
        ensures reads_back { form ≡ Decimal → pos 0 <ℤ denominator self.now
            → ReadsBack T.lo T.hi (IsFractionText T.lo T.hi result)
            (numerator self.now) (denominator self.now) }
        ensures reads_back_in_base { alternate ≡ false
            → pos 0 ≤ℤ numerator self.now → pos 0 <ℤ denominator self.now
            → denominator self.now ≢ pos 1
            → ReadsBack T.lo T.hi (IsSlashedText T.lo T.hi (base_of form) result)
            (numerator self.now) (denominator self.now) }
    {
        text::text(self.numer, self.denom, form, alternate)
    }

    /// Writes that text into `text`, in place of what was there. So no array is moved.
    pub fn put_text(&self, form: Form, alternate: bool, text: &mut RatioText)
        ensures { text.new
            ≡ text_of T.BITS form alternate (numerator self.now) (denominator self.now) }
    {
        text::put_text(self.numer, self.denom, form, alternate, text);
    }

    /// The text in base 10, in a smaller array, which takes less time to make.
    pub fn base_ten_text(&self) -> BaseTenText
        ensures bytes { result
            ≡ text_of T.BITS Decimal false (numerator self.now) (denominator self.now) }
        ensures short { length result ≤ base_ten_room T.lo T.hi }
        ensures reads_back { pos 0 <ℤ denominator self.now
            → ReadsBack T.lo T.hi (IsFractionText T.lo T.hi result)
            (numerator self.now) (denominator self.now) }
    {
        text::base_ten_text(self.numer, self.denom)
    }

    /// Writes the text in base 10 into `text`, in place of what was there.
    pub fn put_base_ten_text(&self, text: &mut BaseTenText)
        ensures { text.new
            ≡ text_of T.BITS Decimal false (numerator self.now) (denominator self.now) }
    {
        text::put_base_ten_text(self.numer, self.denom, text);
    }

    // Floats.

    /// The float nearest to this fraction: 0.3333333333333333 for 1/3. If two are equally near, it is
    /// the one whose last bit is 0. A numerator 0 gives 0.0.
    pub fn to_f64(&self) -> f64
        requires { pos 0 <ℤ denominator self.now }
        ensures { result ≡ nearest_float binary64 (numerator self.now) (denominator self.now) }
    {
        nearest::to_f64(self.numer, self.denom)
    }

    /// The float of 32 bits nearest to this fraction, with ties as in `to_f64`: 0.33333334 for 1/3. It is
    /// infinite if the size of the fraction is at least 2^128-2^103.
    pub fn to_f32(&self) -> f32
        requires { pos 0 <ℤ denominator self.now }
        ensures { result ≡ nearest_float binary32 (numerator self.now) (denominator self.now) }
    {
        nearest::to_f32(self.numer, self.denom)
    }
}

/// The constants of `Ratio` and of `Reduced`. They are in a trait, since the names `ZERO` and `zero`
/// of one type would differ only in case.
pub trait Constants: Sized {
    ghost ZERO: { Self };

    ghost ONE: { Self };

    /// The fraction 0/1.
    const ZERO: Self;

    /// The fraction 1/1.
    const ONE: Self;
}

impl<T: Copy + Integer> Constants for Ratio<T> {
    ghost use Rattle.num_rational.specs.Ratio.{from_integer};

    ghost ZERO = { from_integer T.ZERO };

    ghost ONE = { from_integer T.ONE };

    const ZERO: Ratio<T> = Ratio {
        numer: T::ZERO,
        denom: T::ONE,
    };

    const ONE: Ratio<T> = Ratio {
        numer: T::ONE,
        denom: T::ONE,
    };
}
