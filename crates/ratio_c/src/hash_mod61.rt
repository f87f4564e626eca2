//! The hash of a fraction in Python: the residue modulo 2^61 - 1, with the sign of the fraction; and products and inverses modulo 2^61 - 1.
ghost use Rattle.std.specs.Prelude.{◌≡◌, ◌<◌, ◌^◌, ◌<ℤ◌, ◌*◌, ◌+◌, ◌-◌, ◌%◌, ◌≤◌, pos};
ghost use Rattle.ratio_c.specs.Calls.{AnswersEach};
ghost use Rattle.ratio_c.specs.Codes.{hash_modulus};
ghost use Rattle.ratio_c.specs.HashMod61.{IsMod61Answer, IsMod61Hash, hash_with_sign, ChecksInverseMod61};
ghost use Rattle.ratio_c.specs.Numbers64.{fraction64};

use crate::code::{ANSWERED, DENOMINATOR_NOT_POSITIVE};
use crate::each::{Call, each};
use crate::numbers64::Fraction64;
use ratio_integer::lowest_terms;

/// The hash of a fraction whose denominator has no inverse, as Python gives it to infinity.
pub const INFINITE: u64 = 314_159;

/// A hash that may be below 0. If there is none, the code says why, and `hash` is 0.
#[repr(C)]
#[derive(Drop)]
pub struct Residue {
    pub code: u32,
    pub hash: i64,
}

/// The hash of a fraction in Python.
#[derive(Clone, Copy)]
pub struct HashingMod61;

impl Call<Fraction64, Residue> for HashingMod61 {
    ghost gives = { λ _ x answer. IsMod61Answer (fraction64 x) answer.code answer.hash };

    #[inline(always)]
    fn answer(&self, x: &Fraction64) -> Residue {
        if x.denom <= 0 {
            return Residue {
                code: DENOMINATOR_NOT_POSITIVE,
                hash: 0,
            };
        }
        Residue {
            code: ANSWERED,
            hash: hash_of(x.numer, x.denom),
        }
    }
}

/// The hash of `n/d`. An inverse of the denominator serves as well where the terms are not lowest.
#[inline(always)]
fn hash_of(n: i64, d: i64) -> i64
    requires { pos 0 <ℤ d }
    ensures { IsMod61Hash n d result }
{
    match inverse(d.unsigned_abs() % MODULUS) {
        Some(factor) => with_sign(n, product(n.unsigned_abs() % MODULUS, factor)),
        None => hash_of_lowest(n, d),
    }
}

/// The hash of `n/d` by its lowest terms.
fn hash_of_lowest(n: i64, d: i64) -> i64
    requires { pos 0 <ℤ d }
    ensures { IsMod61Hash n d result }
{
    let (a, b) = lowest_terms(n, d);
    match inverse(b.unsigned_abs() % MODULUS) {
        Some(factor) => with_sign(a, product(a.unsigned_abs() % MODULUS, factor)),
        None => with_sign(a, INFINITE),
    }
}

/// The hash with the sign of the number, and -2 in place of -1.
#[inline(always)]
fn with_sign(n: i64, hash: u64) -> i64
    requires { hash < 2 ^ 61 }
    ensures { result ≡ hash_with_sign n hash }
{
    if n >= 0 {
        hash as i64
    } else if hash == 1 {
        -2
    } else {
        -(hash as i64)
    }
}

/// The hash of each fraction in Python.
#[unsafe(no_mangle)]
pub extern "C" fn ratio_hash_mod61_i64(asked: &[Fraction64], answers: &mut [Residue]) -> u32
    ensures { AnswersEach (λ x answer. IsMod61Answer (fraction64 x) answer.code answer.hash) asked.now answers.old answers.new result }
{
    each(&HashingMod61, asked, answers)
}

/// The modulus.
pub const MODULUS: u64 = 0x1fff_ffff_ffff_ffff;

/// The product of two numbers, modulo 2^61 - 1.
#[inline(always)]
pub fn product(a: u64, b: u64) -> u64
    requires left { a < 2 ^ 61 }
    requires right { b < 2 ^ 61 }
    ensures { result ≡ a * b % hash_modulus }
{
    let whole = a as u128 * b as u128;
    let sum = (whole % (1 << 61)) as u64 + (whole >> 61) as u64;
    sum % MODULUS
}

/// The number that gives 1 with a number below the modulus, if there is one: by the binary algorithm of Euclid. At each
/// step `a` is a multiple of the number by `u`, and `b` is one by `v`.
pub fn inverse(number: u64) -> Option<u64>
    requires { number < hash_modulus }
    ensures { ChecksInverseMod61 number result }
{
    if number == 0 {
        return None;
    }
    let (mut a, mut u) = (number, 1);
    let (mut b, mut v) = (MODULUS % number, MODULUS - MODULUS / number);
    'steps: while b != 0 {
        let zeros = b.trailing_zeros();
        b >>= zeros;
        v = turned(v, zeros);
        if b == 1 {
            return Some(v);
        }
        if a < b {
            b -= a;
            v = difference(v, u);
        } else {
            let (rest, factor) = (a - b, difference(u, v));
            (a, u) = (b, v);
            (b, v) = (rest, factor);
        }
    }
    if a == 1 { Some(u) } else { None }
}

/// The number divided by 2^`count`, modulo 2^61 - 1.
#[inline(always)]
fn turned(n: u64, count: u32) -> u64
    requires number { n < 2 ^ 61 }
    requires count { count ≤ 61 }
    ensures below { result < 2 ^ 61 }
    ensures value { result % hash_modulus ≡ n * 2 ^ (61 - count) % hash_modulus }
{
    (n >> count) + (n % (1 << count)) * (1 << (61 - count))
}

/// The difference of two numbers, modulo 2^61 - 1.
#[inline(always)]
fn difference(n: u64, m: u64) -> u64
    requires left { n < 2 ^ 61 }
    requires right { m < 2 ^ 61 }
    ensures below { result < 2 ^ 61 }
    ensures value { (result + m) % hash_modulus ≡ n % hash_modulus }
{
    if n < m { n + MODULUS - m } else { n - m }
}
