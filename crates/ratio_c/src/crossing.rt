//! The traits of inputs and answers, as they cross from a caller and back, the answers of checked calls and of refusals, and the numbers
//! that a hash takes.
ghost use Rattle.std.specs.Prelude.{◌≡◌, ℕ, ℤ, option_map, pos};
ghost use Rattle.ratio_c.specs.Codes.{code_answered};
ghost use Rattle.ratio_c.specs.Crossing.{Said, refused, residue, said_of};

use crate::code::{ANSWERED, NOT_HELD};
use ratio_integer::{Primitive, SignedInteger};

/// A number of at most 128 bits, with its sign. A hash takes its lowest 64 bits.
pub trait Digest: Copy + Primitive + SignedInteger {
    /// The number modulo 2^64.
    fn residue(self) -> u64
        ensures { result ≡ residue (Self.value self) };

    /// The number in 128 bits.
    fn wide(self) -> i128
        ensures { result ≡ Self.value self };
}

impl Digest for i32 {
    #[inline(always)]
    fn residue(self) -> u64 {
        (self as i128).rem_euclid(1 << 64) as u64
    }

    #[inline(always)]
    fn wide(self) -> i128 {
        self as i128
    }
}

impl Digest for i64 {
    #[inline(always)]
    fn residue(self) -> u64 {
        (self as i128).rem_euclid(1 << 64) as u64
    }

    #[inline(always)]
    fn wide(self) -> i128 {
        self as i128
    }
}

impl Digest for i128 {
    #[inline(always)]
    fn residue(self) -> u64 {
        self.rem_euclid(1 << 64) as u64
    }

    #[inline(always)]
    fn wide(self) -> i128 {
        self
    }
}

/// A fraction.
pub trait OneFraction {
    /// The type of its two numbers in the library.
    type Inside: Digest;

    // Its two numbers.
    ghost fraction: { Self → ℤ × ℤ };

    /// Its two numbers, as the library takes them.
    fn fraction(&self) -> (Self::Inside, Self::Inside)
        ensures { (Self.Inside.value result.0, Self.Inside.value result.1) ≡ fraction self.now };
}

/// A fraction and the exponent of its power.
pub trait Raised: OneFraction {
    ghost exponent: { Self → ℤ };

    /// The exponent.
    fn exponent(&self) -> i32
        ensures { result ≡ exponent self.now };
}

/// A fraction and the place of one of its convergents.
pub trait Placed: OneFraction {
    ghost place: { Self → ℕ };

    /// The place.
    fn place(&self) -> u32
        ensures { result ≡ place self.now };
}

/// A fraction and a bound of denominators.
pub trait Bounded: OneFraction {
    ghost most: { Self → ℤ };

    /// The bound, as the library takes it.
    fn most(&self) -> Self::Inside
        ensures { Self.Inside.value result ≡ most self.now };
}

/// Two fractions.
pub trait TwoFractions {
    /// The type of their numbers in the library.
    type Inside: Primitive;

    ghost left: { Self → ℤ × ℤ };

    ghost right: { Self → ℤ × ℤ };

    /// The first one.
    fn left(&self) -> (Self::Inside, Self::Inside)
        ensures { (Self.Inside.value result.0, Self.Inside.value result.1) ≡ left self.now };

    /// The second one.
    fn right(&self) -> (Self::Inside, Self::Inside)
        ensures { (Self.Inside.value result.0, Self.Inside.value result.1) ≡ right self.now };
}

/// Two bounds, and flags that say which of them is included, and which is open.
pub trait FlaggedBounds: TwoFractions {
    ghost flags: { Self → ℕ };

    /// The flags.
    fn flags(&self) -> u32
        ensures { result ≡ flags self.now };
}

/// Two fractions and the number of a rule by which their product is rounded.
pub trait RuledPair: TwoFractions {
    ghost rule: { Self → ℕ };

    /// The number of the rule.
    fn rule(&self) -> u32
        ensures { result ≡ rule self.now };
}

/// Two fractions, the number of a rule, and the parts of 1 to a multiple of which their product or quotient is rounded.
pub trait PartedPair: RuledPair {
    ghost parts: { Self → ℤ };

    /// The parts, as the library takes them.
    fn parts(&self) -> Self::Inside
        ensures { Self.Inside.value result ≡ parts self.now };
}

/// A fraction and the number of a rule by which it is rounded.
pub trait Ruled: OneFraction {
    ghost rule: { Self → ℕ };

    /// The number of the rule.
    fn rule(&self) -> u32
        ensures { result ≡ rule self.now };
}

/// A fraction, the number of a rule, and the parts of 1 to a multiple of which it is rounded.
pub trait Parted: Ruled {
    ghost parts: { Self → ℤ };

    /// The parts, as the library takes them.
    fn parts(&self) -> Self::Inside
        ensures { Self.Inside.value result ≡ parts self.now };
}

/// A fraction, the number of a rule, and the decimal places to which it is rounded.
pub trait Pointed: Ruled {
    ghost places: { Self → ℕ };

    /// The places.
    fn places(&self) -> u32
        ensures { result ≡ places self.now };
}

/// An answer: a code, and the two numbers of a fraction over `T`.
pub trait Reply<T: Primitive>: Drop {
    // What it says.
    ghost said: { Self → Said };

    /// The answer with this code and these numbers.
    fn reply(code: u32, numer: T, denom: T) -> Self
        ensures { said result ≡ (code, (T.value numer, T.value denom)) };
}

/// An answer without numbers: the code says why.
#[inline(always)]
pub fn refused<T: Copy + Primitive, A: Reply<T>>(code: u32) -> A
    ensures { A.said result ≡ refused code }
{
    A::reply(code, T::ZERO, T::ZERO)
}

/// The answer for a whole number: the number over 1.
#[inline(always)]
pub fn whole<T: Copy + Primitive, A: Reply<T>>(number: T) -> A
    ensures { A.said result ≡ (code_answered, (T.value number, pos 1)) }
{
    A::reply(ANSWERED, number, T::ONE)
}

/// The answer for the two numbers that a checked call returned.
#[inline(always)]
pub fn checked<T: Copy + Primitive, A: Reply<T>>(answer: Option<(T, T)>) -> A
    ensures { A.said result ≡ said_of (option_map (λ x. (T.value x.0, T.value x.1)) answer) }
{
    match answer {
        Some((numer, denom)) => A::reply(ANSWERED, numer, denom),
        None => refused::<T, A>(NOT_HELD),
    }
}
