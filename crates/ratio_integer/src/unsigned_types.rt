// Written by templates/write from templates/impls.rt.txt: change that file, and write this one anew.
//! The traits `Integer` and `Primitive` for the six unsigned types, with the calls in the order that the signed types have.
ghost use Rattle.std.specs.Prelude.{◌-◌, ◌^◌, pos, unsigned_abs, false, true};
ghost use Rattle.std.specs.Hash as hash;
ghost use Rattle.std.proofs.Common.{inl, inr, lit≤, refl};
ghost use Rattle.ratio_integer.specs.Primitives.{unsigned_laws};

use crate::binary_gcd::{binary_gcd, binary_gcd_wide, binary_gcds, binary_gcds_wide};
use crate::integer::{Integer, Primitive};
use crate::widths;
use num_traits::cast;

impl Integer for u8 {
    ghost lo = { pos 0 };

    ghost hi = { pos (2 ^ 8 - 1) };

    ghost value = { λ x. pos x };

    ghost number_hash_input = { λ z. hash.u8 (unsigned_abs z) };

    ghost ZERO = { 0 };

    ghost ONE = { 1 };

    ghost MIN = { 0 };

    ghost MAX = { 2 ^ 8 - 1 };

    ghost EXACT_SUMS = { false };

    ghost EXACT_REMAINDERS = { true };

    ghost is_halved = { false };

    ghost one_number = { refl };

    const ZERO: u8 = 0;

    const ONE: u8 = 1;

    const MIN: u8 = u8::MIN;

    const MAX: u8 = u8::MAX;

    const EXACT_SUMS: bool = false;

    const EXACT_REMAINDERS: bool = true;

    fn plus(self, o: u8) -> u8 {
        self + o
    }

    fn minus(self, o: u8) -> u8 {
        self - o
    }

    fn times(self, o: u8) -> u8 {
        self * o
    }

    fn try_times(self, o: u8) -> Option<u8> {
        self.checked_mul(o)
    }

    fn div_rem(self, o: u8) -> (u8, u8) {
        (self / o, self % o)
    }

    fn to_i128(self) -> Option<i128> {
        cast(self)
    }

    fn to_u128(self) -> Option<u128> {
        cast(self)
    }

    fn from_i128(n: i128) -> Option<u8> {
        cast(n)
    }

    fn from_u128(n: u128) -> Option<u8> {
        cast(n)
    }

    fn half_base() -> Option<u8> {
        None
    }

    fn exact_sum(_a: u8, _b: u8, _c: u8, _d: u8) -> Option<(u8, u8)> {
        None
    }

    fn exact_diff(_a: u8, _b: u8, _c: u8, _d: u8) -> Option<(u8, u8)> {
        None
    }

    fn is_zero(self) -> bool {
        self == 0
    }

    fn is_one(self) -> bool {
        self == 1
    }

    fn try_plus(self, o: u8) -> Option<u8> {
        self.checked_add(o)
    }

    fn try_minus(self, o: u8) -> Option<u8> {
        self.checked_sub(o)
    }

    fn gcd(self, o: u8) -> u8 {
        binary_gcd(self as u64, o as u64) as u8
    }

    fn gcds(a: u8, b: u8, c: u8, d: u8) -> (u8, u8) {
        let (left, right) = binary_gcds(a as u64, b as u64, c as u64, d as u64);
        (left as u8, right as u8)
    }

    ghost laws = { unsigned_laws (2 ^ 8 - 1) hash.u8 (lit≤ tt) };

    ghost exact_remainders_law = { inl (record { le = tt }) };
}

impl Primitive for u8 {
    ghost BITS = { 8 };

    const BITS: u32 = 8;

    ghost width_law = { (lit≤ tt, refl) };
}

impl Integer for u16 {
    ghost lo = { pos 0 };

    ghost hi = { pos (2 ^ 16 - 1) };

    ghost value = { λ x. pos x };

    ghost number_hash_input = { λ z. hash.u16 (unsigned_abs z) };

    ghost ZERO = { 0 };

    ghost ONE = { 1 };

    ghost MIN = { 0 };

    ghost MAX = { 2 ^ 16 - 1 };

    ghost EXACT_SUMS = { false };

    ghost EXACT_REMAINDERS = { true };

    ghost is_halved = { false };

    ghost one_number = { refl };

    const ZERO: u16 = 0;

    const ONE: u16 = 1;

    const MIN: u16 = u16::MIN;

    const MAX: u16 = u16::MAX;

    const EXACT_SUMS: bool = false;

    const EXACT_REMAINDERS: bool = true;

    fn plus(self, o: u16) -> u16 {
        self + o
    }

    fn minus(self, o: u16) -> u16 {
        self - o
    }

    fn times(self, o: u16) -> u16 {
        self * o
    }

    fn try_times(self, o: u16) -> Option<u16> {
        self.checked_mul(o)
    }

    fn div_rem(self, o: u16) -> (u16, u16) {
        (self / o, self % o)
    }

    fn to_i128(self) -> Option<i128> {
        cast(self)
    }

    fn to_u128(self) -> Option<u128> {
        cast(self)
    }

    fn from_i128(n: i128) -> Option<u16> {
        cast(n)
    }

    fn from_u128(n: u128) -> Option<u16> {
        cast(n)
    }

    fn half_base() -> Option<u16> {
        None
    }

    fn exact_sum(_a: u16, _b: u16, _c: u16, _d: u16) -> Option<(u16, u16)> {
        None
    }

    fn exact_diff(_a: u16, _b: u16, _c: u16, _d: u16) -> Option<(u16, u16)> {
        None
    }

    fn is_zero(self) -> bool {
        self == 0
    }

    fn is_one(self) -> bool {
        self == 1
    }

    fn try_plus(self, o: u16) -> Option<u16> {
        self.checked_add(o)
    }

    fn try_minus(self, o: u16) -> Option<u16> {
        self.checked_sub(o)
    }

    fn gcd(self, o: u16) -> u16 {
        binary_gcd(self as u64, o as u64) as u16
    }

    fn gcds(a: u16, b: u16, c: u16, d: u16) -> (u16, u16) {
        let (left, right) = binary_gcds(a as u64, b as u64, c as u64, d as u64);
        (left as u16, right as u16)
    }

    ghost laws = { unsigned_laws (2 ^ 16 - 1) hash.u16 (lit≤ tt) };

    ghost exact_remainders_law = { inl (record { le = tt }) };
}

impl Primitive for u16 {
    ghost BITS = { 16 };

    const BITS: u32 = 16;

    ghost width_law = { (lit≤ tt, refl) };
}

impl Integer for u32 {
    ghost lo = { pos 0 };

    ghost hi = { pos (2 ^ 32 - 1) };

    ghost value = { λ x. pos x };

    ghost number_hash_input = { λ z. hash.u32 (unsigned_abs z) };

    ghost ZERO = { 0 };

    ghost ONE = { 1 };

    ghost MIN = { 0 };

    ghost MAX = { 2 ^ 32 - 1 };

    ghost EXACT_SUMS = { false };

    ghost EXACT_REMAINDERS = { true };

    ghost is_halved = { false };

    ghost one_number = { refl };

    const ZERO: u32 = 0;

    const ONE: u32 = 1;

    const MIN: u32 = u32::MIN;

    const MAX: u32 = u32::MAX;

    const EXACT_SUMS: bool = false;

    const EXACT_REMAINDERS: bool = true;

    fn plus(self, o: u32) -> u32 {
        self + o
    }

    fn minus(self, o: u32) -> u32 {
        self - o
    }

    fn times(self, o: u32) -> u32 {
        self * o
    }

    fn try_times(self, o: u32) -> Option<u32> {
        self.checked_mul(o)
    }

    fn div_rem(self, o: u32) -> (u32, u32) {
        (self / o, self % o)
    }

    fn to_i128(self) -> Option<i128> {
        cast(self)
    }

    fn to_u128(self) -> Option<u128> {
        cast(self)
    }

    fn from_i128(n: i128) -> Option<u32> {
        cast(n)
    }

    fn from_u128(n: u128) -> Option<u32> {
        cast(n)
    }

    fn half_base() -> Option<u32> {
        None
    }

    fn exact_sum(_a: u32, _b: u32, _c: u32, _d: u32) -> Option<(u32, u32)> {
        None
    }

    fn exact_diff(_a: u32, _b: u32, _c: u32, _d: u32) -> Option<(u32, u32)> {
        None
    }

    fn is_zero(self) -> bool {
        self == 0
    }

    fn is_one(self) -> bool {
        self == 1
    }

    fn try_plus(self, o: u32) -> Option<u32> {
        self.checked_add(o)
    }

    fn try_minus(self, o: u32) -> Option<u32> {
        self.checked_sub(o)
    }

    fn gcd(self, o: u32) -> u32 {
        binary_gcd(self as u64, o as u64) as u32
    }

    fn gcds(a: u32, b: u32, c: u32, d: u32) -> (u32, u32) {
        let (left, right) = binary_gcds(a as u64, b as u64, c as u64, d as u64);
        (left as u32, right as u32)
    }

    ghost laws = { unsigned_laws (2 ^ 32 - 1) hash.u32 (lit≤ tt) };

    ghost exact_remainders_law = { inl (record { le = tt }) };
}

impl Primitive for u32 {
    ghost BITS = { 32 };

    const BITS: u32 = 32;

    ghost width_law = { (lit≤ tt, refl) };
}

impl Integer for u64 {
    ghost lo = { pos 0 };

    ghost hi = { pos (2 ^ 64 - 1) };

    ghost value = { λ x. pos x };

    ghost number_hash_input = { λ z. hash.u64 (unsigned_abs z) };

    ghost ZERO = { 0 };

    ghost ONE = { 1 };

    ghost MIN = { 0 };

    ghost MAX = { 2 ^ 64 - 1 };

    ghost EXACT_SUMS = { false };

    ghost EXACT_REMAINDERS = { true };

    ghost is_halved = { true };

    ghost one_number = { refl };

    const ZERO: u64 = 0;

    const ONE: u64 = 1;

    const MIN: u64 = u64::MIN;

    const MAX: u64 = u64::MAX;

    const EXACT_SUMS: bool = false;

    const EXACT_REMAINDERS: bool = true;

    fn plus(self, o: u64) -> u64 {
        self + o
    }

    fn minus(self, o: u64) -> u64 {
        self - o
    }

    fn times(self, o: u64) -> u64 {
        self * o
    }

    fn try_times(self, o: u64) -> Option<u64> {
        self.checked_mul(o)
    }

    fn div_rem(self, o: u64) -> (u64, u64) {
        (self / o, self % o)
    }

    fn to_i128(self) -> Option<i128> {
        cast(self)
    }

    fn to_u128(self) -> Option<u128> {
        cast(self)
    }

    fn from_i128(n: i128) -> Option<u64> {
        cast(n)
    }

    fn from_u128(n: u128) -> Option<u64> {
        cast(n)
    }

    fn half_base() -> Option<u64> {
        Some(1 << (u64::BITS / 2))
    }

    fn exact_sum(_a: u64, _b: u64, _c: u64, _d: u64) -> Option<(u64, u64)> {
        None
    }

    fn exact_diff(_a: u64, _b: u64, _c: u64, _d: u64) -> Option<(u64, u64)> {
        None
    }

    fn is_zero(self) -> bool {
        self == 0
    }

    fn is_one(self) -> bool {
        self == 1
    }

    fn try_plus(self, o: u64) -> Option<u64> {
        self.checked_add(o)
    }

    fn try_minus(self, o: u64) -> Option<u64> {
        self.checked_sub(o)
    }

    fn halves(self, _base: u64) -> (u64, u64) {
        let half = u64::BITS / 2;
        (self.div_euclid(1 << half), self.rem_euclid(1 << half))
    }

    fn gcd(self, o: u64) -> u64 {
        binary_gcd(self, o)
    }

    fn gcds(a: u64, b: u64, c: u64, d: u64) -> (u64, u64) {
        binary_gcds(a, b, c, d)
    }

    ghost laws = { unsigned_laws (2 ^ 64 - 1) hash.u64 (lit≤ tt) };

    ghost exact_remainders_law = { inl (record { le = tt }) };
}

impl Primitive for u64 {
    ghost BITS = { 64 };

    const BITS: u32 = 64;

    ghost width_law = { (lit≤ tt, refl) };
}

impl Integer for u128 {
    ghost lo = { pos 0 };

    ghost hi = { pos (2 ^ 128 - 1) };

    ghost value = { λ x. pos x };

    ghost number_hash_input = { λ z. hash.u128 (unsigned_abs z) };

    ghost ZERO = { 0 };

    ghost ONE = { 1 };

    ghost MIN = { 0 };

    ghost MAX = { 2 ^ 128 - 1 };

    ghost EXACT_SUMS = { false };

    ghost EXACT_REMAINDERS = { true };

    ghost is_halved = { true };

    ghost one_number = { refl };

    const ZERO: u128 = 0;

    const ONE: u128 = 1;

    const MIN: u128 = u128::MIN;

    const MAX: u128 = u128::MAX;

    const EXACT_SUMS: bool = false;

    const EXACT_REMAINDERS: bool = true;

    fn plus(self, o: u128) -> u128 {
        self + o
    }

    fn minus(self, o: u128) -> u128 {
        self - o
    }

    fn times(self, o: u128) -> u128 {
        self * o
    }

    fn try_times(self, o: u128) -> Option<u128> {
        self.checked_mul(o)
    }

    fn div_rem(self, o: u128) -> (u128, u128) {
        widths::div_rem_unsigned(self, o)
    }

    fn to_i128(self) -> Option<i128> {
        cast(self)
    }

    fn to_u128(self) -> Option<u128> {
        cast(self)
    }

    fn from_i128(n: i128) -> Option<u128> {
        cast(n)
    }

    fn from_u128(n: u128) -> Option<u128> {
        cast(n)
    }

    fn half_base() -> Option<u128> {
        Some(1 << (u128::BITS / 2))
    }

    fn exact_sum(_a: u128, _b: u128, _c: u128, _d: u128) -> Option<(u128, u128)> {
        None
    }

    fn exact_diff(_a: u128, _b: u128, _c: u128, _d: u128) -> Option<(u128, u128)> {
        None
    }

    fn is_zero(self) -> bool {
        self == 0
    }

    fn is_one(self) -> bool {
        self == 1
    }

    fn try_plus(self, o: u128) -> Option<u128> {
        self.checked_add(o)
    }

    fn try_minus(self, o: u128) -> Option<u128> {
        self.checked_sub(o)
    }

    fn halves(self, _base: u128) -> (u128, u128) {
        let half = u128::BITS / 2;
        (self.div_euclid(1 << half), self.rem_euclid(1 << half))
    }

    fn gcd(self, o: u128) -> u128 {
        binary_gcd_wide(self, o)
    }

    fn gcds(a: u128, b: u128, c: u128, d: u128) -> (u128, u128) {
        binary_gcds_wide(a, b, c, d)
    }

    ghost laws = { unsigned_laws (2 ^ 128 - 1) hash.u128 (lit≤ tt) };

    ghost exact_remainders_law = { inr (refl, record { le = tt }) };
}

impl Primitive for u128 {
    ghost BITS = { 128 };

    const BITS: u32 = 128;

    ghost width_law = { (lit≤ tt, refl) };
}

impl Integer for usize {
    ghost lo = { pos 0 };

    ghost hi = { pos (2 ^ 64 - 1) };

    ghost value = { λ x. pos x };

    ghost number_hash_input = { λ z. hash.usize (unsigned_abs z) };

    ghost ZERO = { 0 };

    ghost ONE = { 1 };

    ghost MIN = { 0 };

    ghost MAX = { 2 ^ 64 - 1 };

    ghost EXACT_SUMS = { false };

    ghost EXACT_REMAINDERS = { true };

    ghost is_halved = { true };

    ghost one_number = { refl };

    const ZERO: usize = 0;

    const ONE: usize = 1;

    const MIN: usize = usize::MIN;

    const MAX: usize = usize::MAX;

    const EXACT_SUMS: bool = false;

    const EXACT_REMAINDERS: bool = true;

    fn plus(self, o: usize) -> usize {
        self + o
    }

    fn minus(self, o: usize) -> usize {
        self - o
    }

    fn times(self, o: usize) -> usize {
        self * o
    }

    fn try_times(self, o: usize) -> Option<usize> {
        self.checked_mul(o)
    }

    fn div_rem(self, o: usize) -> (usize, usize) {
        (self / o, self % o)
    }

    fn to_i128(self) -> Option<i128> {
        cast(self)
    }

    fn to_u128(self) -> Option<u128> {
        cast(self)
    }

    fn from_i128(n: i128) -> Option<usize> {
        cast(n)
    }

    fn from_u128(n: u128) -> Option<usize> {
        cast(n)
    }

    fn half_base() -> Option<usize> {
        Some(1 << (usize::BITS / 2))
    }

    fn exact_sum(_a: usize, _b: usize, _c: usize, _d: usize) -> Option<(usize, usize)> {
        None
    }

    fn exact_diff(_a: usize, _b: usize, _c: usize, _d: usize) -> Option<(usize, usize)> {
        None
    }

    fn is_zero(self) -> bool {
        self == 0
    }

    fn is_one(self) -> bool {
        self == 1
    }

    fn try_plus(self, o: usize) -> Option<usize> {
        self.checked_add(o)
    }

    fn try_minus(self, o: usize) -> Option<usize> {
        self.checked_sub(o)
    }

    fn halves(self, _base: usize) -> (usize, usize) {
        let half = usize::BITS / 2;
        (self.div_euclid(1 << half), self.rem_euclid(1 << half))
    }

    fn gcd(self, o: usize) -> usize {
        binary_gcd(self as u64, o as u64) as usize
    }

    fn gcds(a: usize, b: usize, c: usize, d: usize) -> (usize, usize) {
        let (left, right) = binary_gcds(a as u64, b as u64, c as u64, d as u64);
        (left as usize, right as usize)
    }

    ghost laws = { unsigned_laws (2 ^ 64 - 1) hash.usize (lit≤ tt) };

    ghost exact_remainders_law = { inl (record { le = tt }) };
}

impl Primitive for usize {
    ghost BITS = { 64 };

    const BITS: u32 = 64;

    ghost width_law = { (lit≤ tt, refl) };
}
