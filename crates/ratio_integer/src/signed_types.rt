// Written by templates/write from templates/impls.rt.txt: change that file, and write this one anew.
//! The traits `Integer` and `Primitive` for the six signed types, each with the same calls in the same order.
ghost use Rattle.std.specs.Prelude.{◌-◌, ◌^◌, pos, negsuc, false, true};
ghost use Rattle.std.specs.Hash as hash;
ghost use Rattle.std.proofs.Common.{inl, lit≤, refl};
ghost use Rattle.ratio_integer.specs.Primitives.{signed_laws};

use crate::binary_gcd::{binary_gcd, binary_gcd_wide, binary_gcds, binary_gcds_wide};
use crate::integer::{Integer, Primitive};
use crate::widths;
use num_traits::cast;

impl Integer for i8 {
    ghost lo = { negsuc (2 ^ 7 - 1) };

    ghost hi = { pos (2 ^ 7 - 1) };

    ghost value = { λ x. x };

    ghost number_hash_input = { hash.i8 };

    ghost ZERO = { pos 0 };

    ghost ONE = { pos 1 };

    ghost MIN = { negsuc (2 ^ 7 - 1) };

    ghost MAX = { pos (2 ^ 7 - 1) };

    ghost EXACT_SUMS = { false };

    ghost EXACT_REMAINDERS = { true };

    ghost is_halved = { false };

    ghost one_number = { refl };

    const ZERO: i8 = 0;

    const ONE: i8 = 1;

    const MIN: i8 = i8::MIN;

    const MAX: i8 = i8::MAX;

    const EXACT_SUMS: bool = false;

    const EXACT_REMAINDERS: bool = true;

    fn plus(self, o: i8) -> i8 {
        self + o
    }

    fn minus(self, o: i8) -> i8 {
        self - o
    }

    fn times(self, o: i8) -> i8 {
        self * o
    }

    fn try_times(self, o: i8) -> Option<i8> {
        self.checked_mul(o)
    }

    fn div_rem(self, o: i8) -> (i8, i8) {
        (self / o, self % o)
    }

    fn to_i128(self) -> Option<i128> {
        cast(self)
    }

    fn to_u128(self) -> Option<u128> {
        cast(self)
    }

    fn from_i128(n: i128) -> Option<i8> {
        cast(n)
    }

    fn from_u128(n: u128) -> Option<i8> {
        cast(n)
    }

    fn half_base() -> Option<i8> {
        None
    }

    fn exact_sum(_a: i8, _b: i8, _c: i8, _d: i8) -> Option<(i8, i8)> {
        None
    }

    fn exact_diff(_a: i8, _b: i8, _c: i8, _d: i8) -> Option<(i8, i8)> {
        None
    }

    fn is_zero(self) -> bool {
        self == 0
    }

    fn is_one(self) -> bool {
        self == 1
    }

    fn try_plus(self, o: i8) -> Option<i8> {
        self.checked_add(o)
    }

    fn try_minus(self, o: i8) -> Option<i8> {
        self.checked_sub(o)
    }

    fn gcd(self, o: i8) -> i8 {
        binary_gcd(self.unsigned_abs() as u64, o.unsigned_abs() as u64) as i8
    }

    fn gcds(a: i8, b: i8, c: i8, d: i8) -> (i8, i8) {
        let (left, right) = binary_gcds(
            a.unsigned_abs() as u64,
            b.unsigned_abs() as u64,
            c.unsigned_abs() as u64,
            d.unsigned_abs() as u64,
        );
        (left as i8, right as i8)
    }

    ghost laws = { signed_laws (2 ^ 7 - 1) hash.i8 (lit≤ tt) };

    ghost exact_remainders_law = { inl (record { le = tt }) };
}

impl Primitive for i8 {
    ghost BITS = { 8 };

    const BITS: u32 = 8;

    ghost width_law = { (lit≤ tt, refl) };
}

impl Integer for i16 {
    ghost lo = { negsuc (2 ^ 15 - 1) };

    ghost hi = { pos (2 ^ 15 - 1) };

    ghost value = { λ x. x };

    ghost number_hash_input = { hash.i16 };

    ghost ZERO = { pos 0 };

    ghost ONE = { pos 1 };

    ghost MIN = { negsuc (2 ^ 15 - 1) };

    ghost MAX = { pos (2 ^ 15 - 1) };

    ghost EXACT_SUMS = { false };

    ghost EXACT_REMAINDERS = { true };

    ghost is_halved = { false };

    ghost one_number = { refl };

    const ZERO: i16 = 0;

    const ONE: i16 = 1;

    const MIN: i16 = i16::MIN;

    const MAX: i16 = i16::MAX;

    const EXACT_SUMS: bool = false;

    const EXACT_REMAINDERS: bool = true;

    fn plus(self, o: i16) -> i16 {
        self + o
    }

    fn minus(self, o: i16) -> i16 {
        self - o
    }

    fn times(self, o: i16) -> i16 {
        self * o
    }

    fn try_times(self, o: i16) -> Option<i16> {
        self.checked_mul(o)
    }

    fn div_rem(self, o: i16) -> (i16, i16) {
        (self / o, self % o)
    }

    fn to_i128(self) -> Option<i128> {
        cast(self)
    }

    fn to_u128(self) -> Option<u128> {
        cast(self)
    }

    fn from_i128(n: i128) -> Option<i16> {
        cast(n)
    }

    fn from_u128(n: u128) -> Option<i16> {
        cast(n)
    }

    fn half_base() -> Option<i16> {
        None
    }

    fn exact_sum(_a: i16, _b: i16, _c: i16, _d: i16) -> Option<(i16, i16)> {
        None
    }

    fn exact_diff(_a: i16, _b: i16, _c: i16, _d: i16) -> Option<(i16, i16)> {
        None
    }

    fn is_zero(self) -> bool {
        self == 0
    }

    fn is_one(self) -> bool {
        self == 1
    }

    fn try_plus(self, o: i16) -> Option<i16> {
        self.checked_add(o)
    }

    fn try_minus(self, o: i16) -> Option<i16> {
        self.checked_sub(o)
    }

    fn gcd(self, o: i16) -> i16 {
        binary_gcd(self.unsigned_abs() as u64, o.unsigned_abs() as u64) as i16
    }

    fn gcds(a: i16, b: i16, c: i16, d: i16) -> (i16, i16) {
        let (left, right) = binary_gcds(
            a.unsigned_abs() as u64,
            b.unsigned_abs() as u64,
            c.unsigned_abs() as u64,
            d.unsigned_abs() as u64,
        );
        (left as i16, right as i16)
    }

    ghost laws = { signed_laws (2 ^ 15 - 1) hash.i16 (lit≤ tt) };

    ghost exact_remainders_law = { inl (record { le = tt }) };
}

impl Primitive for i16 {
    ghost BITS = { 16 };

    const BITS: u32 = 16;

    ghost width_law = { (lit≤ tt, refl) };
}

impl Integer for i32 {
    ghost lo = { negsuc (2 ^ 31 - 1) };

    ghost hi = { pos (2 ^ 31 - 1) };

    ghost value = { λ x. x };

    ghost number_hash_input = { hash.i32 };

    ghost ZERO = { pos 0 };

    ghost ONE = { pos 1 };

    ghost MIN = { negsuc (2 ^ 31 - 1) };

    ghost MAX = { pos (2 ^ 31 - 1) };

    ghost EXACT_SUMS = { true };

    ghost EXACT_REMAINDERS = { true };

    ghost is_halved = { false };

    ghost one_number = { refl };

    const ZERO: i32 = 0;

    const ONE: i32 = 1;

    const MIN: i32 = i32::MIN;

    const MAX: i32 = i32::MAX;

    const EXACT_SUMS: bool = true;

    const EXACT_REMAINDERS: bool = true;

    fn plus(self, o: i32) -> i32 {
        self + o
    }

    fn minus(self, o: i32) -> i32 {
        self - o
    }

    fn times(self, o: i32) -> i32 {
        self * o
    }

    fn try_times(self, o: i32) -> Option<i32> {
        self.checked_mul(o)
    }

    fn div_rem(self, o: i32) -> (i32, i32) {
        (self / o, self % o)
    }

    fn to_i128(self) -> Option<i128> {
        cast(self)
    }

    fn to_u128(self) -> Option<u128> {
        cast(self)
    }

    fn from_i128(n: i128) -> Option<i32> {
        cast(n)
    }

    fn from_u128(n: u128) -> Option<i32> {
        cast(n)
    }

    fn half_base() -> Option<i32> {
        None
    }

    fn exact_sum(a: i32, b: i32, c: i32, d: i32) -> Option<(i32, i32)> {
        widths::exact_sum(a, b, c, d)
    }

    fn exact_diff(a: i32, b: i32, c: i32, d: i32) -> Option<(i32, i32)> {
        widths::exact_diff(a, b, c, d)
    }

    fn is_zero(self) -> bool {
        self == 0
    }

    fn is_one(self) -> bool {
        self == 1
    }

    fn try_plus(self, o: i32) -> Option<i32> {
        self.checked_add(o)
    }

    fn try_minus(self, o: i32) -> Option<i32> {
        self.checked_sub(o)
    }

    fn gcd(self, o: i32) -> i32 {
        binary_gcd(self.unsigned_abs() as u64, o.unsigned_abs() as u64) as i32
    }

    fn gcds(a: i32, b: i32, c: i32, d: i32) -> (i32, i32) {
        let (left, right) = binary_gcds(
            a.unsigned_abs() as u64,
            b.unsigned_abs() as u64,
            c.unsigned_abs() as u64,
            d.unsigned_abs() as u64,
        );
        (left as i32, right as i32)
    }

    ghost laws = { signed_laws (2 ^ 31 - 1) hash.i32 (lit≤ tt) };

    ghost exact_remainders_law = { inl (record { le = tt }) };
}

impl Primitive for i32 {
    ghost BITS = { 32 };

    const BITS: u32 = 32;

    ghost width_law = { (lit≤ tt, refl) };
}

impl Integer for i64 {
    ghost lo = { negsuc (2 ^ 63 - 1) };

    ghost hi = { pos (2 ^ 63 - 1) };

    ghost value = { λ x. x };

    ghost number_hash_input = { hash.i64 };

    ghost ZERO = { pos 0 };

    ghost ONE = { pos 1 };

    ghost MIN = { negsuc (2 ^ 63 - 1) };

    ghost MAX = { pos (2 ^ 63 - 1) };

    ghost EXACT_SUMS = { true };

    ghost EXACT_REMAINDERS = { true };

    ghost is_halved = { true };

    ghost one_number = { refl };

    const ZERO: i64 = 0;

    const ONE: i64 = 1;

    const MIN: i64 = i64::MIN;

    const MAX: i64 = i64::MAX;

    const EXACT_SUMS: bool = true;

    const EXACT_REMAINDERS: bool = true;

    fn plus(self, o: i64) -> i64 {
        self + o
    }

    fn minus(self, o: i64) -> i64 {
        self - o
    }

    fn times(self, o: i64) -> i64 {
        self * o
    }

    fn try_times(self, o: i64) -> Option<i64> {
        self.checked_mul(o)
    }

    fn div_rem(self, o: i64) -> (i64, i64) {
        (self / o, self % o)
    }

    fn to_i128(self) -> Option<i128> {
        cast(self)
    }

    fn to_u128(self) -> Option<u128> {
        cast(self)
    }

    fn from_i128(n: i128) -> Option<i64> {
        cast(n)
    }

    fn from_u128(n: u128) -> Option<i64> {
        cast(n)
    }

    fn half_base() -> Option<i64> {
        Some(1 << (i64::BITS / 2))
    }

    fn exact_sum(a: i64, b: i64, c: i64, d: i64) -> Option<(i64, i64)> {
        widths::exact_sum(a, b, c, d)
    }

    fn exact_diff(a: i64, b: i64, c: i64, d: i64) -> Option<(i64, i64)> {
        widths::exact_diff(a, b, c, d)
    }

    fn is_zero(self) -> bool {
        self == 0
    }

    fn is_one(self) -> bool {
        self == 1
    }

    fn try_plus(self, o: i64) -> Option<i64> {
        self.checked_add(o)
    }

    fn try_minus(self, o: i64) -> Option<i64> {
        self.checked_sub(o)
    }

    fn halves(self, _base: i64) -> (i64, i64) {
        let half = i64::BITS / 2;
        (self.div_euclid(1 << half), self.rem_euclid(1 << half))
    }

    fn gcd(self, o: i64) -> i64 {
        binary_gcd(self.unsigned_abs(), o.unsigned_abs()) as i64
    }

    fn gcds(a: i64, b: i64, c: i64, d: i64) -> (i64, i64) {
        let (left, right) = binary_gcds(
            a.unsigned_abs(),
            b.unsigned_abs(),
            c.unsigned_abs(),
            d.unsigned_abs(),
        );
        (left as i64, right as i64)
    }

    ghost laws = { signed_laws (2 ^ 63 - 1) hash.i64 (lit≤ tt) };

    ghost exact_remainders_law = { inl (record { le = tt }) };
}

impl Primitive for i64 {
    ghost BITS = { 64 };

    const BITS: u32 = 64;

    ghost width_law = { (lit≤ tt, refl) };
}

impl Integer for i128 {
    ghost lo = { negsuc (2 ^ 127 - 1) };

    ghost hi = { pos (2 ^ 127 - 1) };

    ghost value = { λ x. x };

    ghost number_hash_input = { hash.i128 };

    ghost ZERO = { pos 0 };

    ghost ONE = { pos 1 };

    ghost MIN = { negsuc (2 ^ 127 - 1) };

    ghost MAX = { pos (2 ^ 127 - 1) };

    ghost EXACT_SUMS = { false };

    ghost EXACT_REMAINDERS = { true };

    ghost is_halved = { true };

    ghost one_number = { refl };

    const ZERO: i128 = 0;

    const ONE: i128 = 1;

    const MIN: i128 = i128::MIN;

    const MAX: i128 = i128::MAX;

    const EXACT_SUMS: bool = false;

    const EXACT_REMAINDERS: bool = true;

    fn plus(self, o: i128) -> i128 {
        self + o
    }

    fn minus(self, o: i128) -> i128 {
        self - o
    }

    fn times(self, o: i128) -> i128 {
        self * o
    }

    fn try_times(self, o: i128) -> Option<i128> {
        widths::try_times(self, o)
    }

    fn div_rem(self, o: i128) -> (i128, i128) {
        widths::div_rem(self, o)
    }

    fn to_i128(self) -> Option<i128> {
        cast(self)
    }

    fn to_u128(self) -> Option<u128> {
        cast(self)
    }

    fn from_i128(n: i128) -> Option<i128> {
        cast(n)
    }

    fn from_u128(n: u128) -> Option<i128> {
        cast(n)
    }

    fn half_base() -> Option<i128> {
        Some(1 << (i128::BITS / 2))
    }

    fn exact_sum(_a: i128, _b: i128, _c: i128, _d: i128) -> Option<(i128, i128)> {
        None
    }

    fn exact_diff(_a: i128, _b: i128, _c: i128, _d: i128) -> Option<(i128, i128)> {
        None
    }

    fn is_zero(self) -> bool {
        self == 0
    }

    fn is_one(self) -> bool {
        self == 1
    }

    fn try_plus(self, o: i128) -> Option<i128> {
        self.checked_add(o)
    }

    fn try_minus(self, o: i128) -> Option<i128> {
        self.checked_sub(o)
    }

    fn halves(self, _base: i128) -> (i128, i128) {
        let half = i128::BITS / 2;
        (self.div_euclid(1 << half), self.rem_euclid(1 << half))
    }

    fn gcd(self, o: i128) -> i128 {
        binary_gcd_wide(self.unsigned_abs(), o.unsigned_abs()) as i128
    }

    fn gcds(a: i128, b: i128, c: i128, d: i128) -> (i128, i128) {
        let (left, right) = binary_gcds_wide(
            a.unsigned_abs(),
            b.unsigned_abs(),
            c.unsigned_abs(),
            d.unsigned_abs(),
        );
        (left as i128, right as i128)
    }

    ghost laws = { signed_laws (2 ^ 127 - 1) hash.i128 (lit≤ tt) };

    ghost exact_remainders_law = { inl (record { le = tt }) };
}

impl Primitive for i128 {
    ghost BITS = { 128 };

    const BITS: u32 = 128;

    ghost width_law = { (lit≤ tt, refl) };
}

impl Integer for isize {
    ghost lo = { negsuc (2 ^ 63 - 1) };

    ghost hi = { pos (2 ^ 63 - 1) };

    ghost value = { λ x. x };

    ghost number_hash_input = { hash.isize };

    ghost ZERO = { pos 0 };

    ghost ONE = { pos 1 };

    ghost MIN = { negsuc (2 ^ 63 - 1) };

    ghost MAX = { pos (2 ^ 63 - 1) };

    ghost EXACT_SUMS = { false };

    ghost EXACT_REMAINDERS = { true };

    ghost is_halved = { true };

    ghost one_number = { refl };

    const ZERO: isize = 0;

    const ONE: isize = 1;

    const MIN: isize = isize::MIN;

    const MAX: isize = isize::MAX;

    const EXACT_SUMS: bool = false;

    const EXACT_REMAINDERS: bool = true;

    fn plus(self, o: isize) -> isize {
        self + o
    }

    fn minus(self, o: isize) -> isize {
        self - o
    }

    fn times(self, o: isize) -> isize {
        self * o
    }

    fn try_times(self, o: isize) -> Option<isize> {
        self.checked_mul(o)
    }

    fn div_rem(self, o: isize) -> (isize, isize) {
        (self / o, self % o)
    }

    fn to_i128(self) -> Option<i128> {
        cast(self)
    }

    fn to_u128(self) -> Option<u128> {
        cast(self)
    }

    fn from_i128(n: i128) -> Option<isize> {
        cast(n)
    }

    fn from_u128(n: u128) -> Option<isize> {
        cast(n)
    }

    fn half_base() -> Option<isize> {
        Some(1 << (isize::BITS / 2))
    }

    fn exact_sum(_a: isize, _b: isize, _c: isize, _d: isize) -> Option<(isize, isize)> {
        None
    }

    fn exact_diff(_a: isize, _b: isize, _c: isize, _d: isize) -> Option<(isize, isize)> {
        None
    }

    fn is_zero(self) -> bool {
        self == 0
    }

    fn is_one(self) -> bool {
        self == 1
    }

    fn try_plus(self, o: isize) -> Option<isize> {
        self.checked_add(o)
    }

    fn try_minus(self, o: isize) -> Option<isize> {
        self.checked_sub(o)
    }

    fn halves(self, _base: isize) -> (isize, isize) {
        let half = isize::BITS / 2;
        (self.div_euclid(1 << half), self.rem_euclid(1 << half))
    }

    fn gcd(self, o: isize) -> isize {
        binary_gcd(self.unsigned_abs() as u64, o.unsigned_abs() as u64) as isize
    }

    fn gcds(a: isize, b: isize, c: isize, d: isize) -> (isize, isize) {
        let (left, right) = binary_gcds(
            a.unsigned_abs() as u64,
            b.unsigned_abs() as u64,
            c.unsigned_abs() as u64,
            d.unsigned_abs() as u64,
        );
        (left as isize, right as isize)
    }

    ghost laws = { signed_laws (2 ^ 63 - 1) hash.isize (lit≤ tt) };

    ghost exact_remainders_law = { inl (record { le = tt }) };
}

impl Primitive for isize {
    ghost BITS = { 64 };

    const BITS: u32 = 64;

    ghost width_law = { (lit≤ tt, refl) };
}
