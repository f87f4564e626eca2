//! What sorts as the values do: 24 bytes, and keys of 64 bits from the nearest float, whose order never contradicts that of the values.
ghost use Rattle.std.specs.Prelude.{◌≡◌, ◌+◌, ◌*◌, ◌^◌, ◌<◌, ◌<ℤ◌, ◌+ℤ◌, ◌*ℤ◌, pos, unsigned_abs};
ghost use Rattle.ratio_c.specs.Calls.{AnswersEach};
ghost use Rattle.ratio_c.specs.Keys.{IsKeyAnswer, nearest_bits};
ghost use Rattle.ratio_c.specs.Numbers64.{fraction64};
ghost use Rattle.ratio_c.specs.Sortable.{IsSortableAnswer, key_bytes, sortable_number};

use crate::code::{ANSWERED, DENOMINATOR_NOT_POSITIVE};
use crate::each::{Call, each};
use crate::numbers64::Fraction64;
use ratio_decimal::float::nearest::to_f64;

/// The bytes of a fraction. If there are none, the code says why, and each byte is 0.
#[repr(C)]
#[derive(Drop)]
pub struct Sortable {
    pub code: u32,
    pub bytes: [u8; 24],
}

/// The bytes of a fraction, which sort as its value.
#[derive(Clone, Copy)]
pub struct Sorting;

impl Call<Fraction64, Sortable> for Sorting {
    ghost gives = { λ _ x answer. IsSortableAnswer (fraction64 x) answer.code answer.bytes };

    #[inline(always)]
    fn answer(&self, x: &Fraction64) -> Sortable {
        if x.denom <= 0 {
            return Sortable {
                code: DENOMINATOR_NOT_POSITIVE,
                bytes: [0; 24],
            };
        }
        let (whole, places) = digits(x.numer, x.denom);
        Sortable {
            code: ANSWERED,
            bytes: bytes_of(whole, places),
        }
    }
}

/// The floor of the fraction plus 2^63, and the first 128 binary places behind the point.
#[inline(always)]
fn digits(n: i64, d: i64) -> (u64, u128)
    requires { pos 0 <ℤ d }
    ensures { result.0 * 2 ^ 128 + result.1 ≡ sortable_number (n, d) }
{
    let (whole, part) = split(n, d);
    let divisor = d.unsigned_abs();
    let (high, rest) = next_places(part, divisor);
    let (low, _) = next_places(rest, divisor);
    (whole, high as u128 * (1 << 64) + low as u128)
}

/// The floor of the fraction plus 2^63, and what is left over the denominator.
#[inline(always)]
fn split(n: i64, d: i64) -> (u64, u64)
    requires { pos 0 <ℤ d }
    ensures whole { unsigned_abs (n +ℤ pos (2 ^ 63) *ℤ d) ≡ result.0 * unsigned_abs d + result.1 }
    ensures rest { result.1 < unsigned_abs d }
{
    let whole = n.div_euclid(d) as i128 + (1 << 63);
    (whole as u64, n.rem_euclid(d) as u64)
}

/// The next 64 binary places of a part of 1, and what is left.
#[inline(always)]
fn next_places(part: u64, divisor: u64) -> (u64, u64)
    requires { part < divisor }
    ensures places { result.0 * divisor + result.1 ≡ part * 2 ^ 64 }
    ensures rest { result.1 < divisor }
{
    let moved = part as u128 * (1 << 64);
    let places = moved / divisor as u128;
    (places as u64, (moved - places * divisor as u128) as u64)
}

/// The bytes of a number whose upper 64 bits and whose lower 128 are these, the highest byte first.
#[inline(always)]
fn bytes_of(high: u64, low: u128) -> [u8; 24]
    ensures { result ≡ key_bytes (high * 2 ^ 128 + low) }
{
    let mut bytes = [0u8; 24];
    bytes[..8].copy_from_slice(&high.to_be_bytes());
    bytes[8..].copy_from_slice(&low.to_be_bytes());
    bytes
}

/// The bytes of each fraction, for sorting.
#[unsafe(no_mangle)]
pub extern "C" fn ratio_sortable_i64(asked: &[Fraction64], answers: &mut [Sortable]) -> u32
    ensures { AnswersEach (λ x answer. IsSortableAnswer (fraction64 x) answer.code answer.bytes) asked.now answers.old answers.new result }
{
    each(&Sorting, asked, answers)
}

/// A key. If there is none, the code says why, and the key is 0.
#[repr(C)]
#[derive(Drop)]
pub struct Key {
    pub code: u32,
    pub key: i64,
}

/// The key of a fraction: the bits of the float nearest to its size, with its sign.
#[derive(Clone, Copy)]
pub struct Keying;

impl Call<Fraction64, Key> for Keying {
    ghost gives = { λ _ x answer. IsKeyAnswer (fraction64 x) answer.code answer.key };

    #[inline(always)]
    fn answer(&self, x: &Fraction64) -> Key {
        if x.denom <= 0 {
            return Key {
                code: DENOMINATOR_NOT_POSITIVE,
                key: 0,
            };
        }
        let size = size_key(x.numer.unsigned_abs(), x.denom as u64);
        let key = if x.numer < 0 { -size } else { size };
        Key {
            code: ANSWERED,
            key,
        }
    }
}

/// The bits of the float nearest to `n/d`. Of two floats that are not below 0, the greater one has the greater bits.
#[inline(always)]
fn size_key(n: u64, d: u64) -> i64
    requires { 0 < d }
    ensures { result ≡ pos (nearest_bits n (pos d)) }
{
    to_f64(n, d).to_bits() as i64
}

/// The key of each fraction.
#[unsafe(no_mangle)]
pub extern "C" fn ratio_key_i64(asked: &[Fraction64], answers: &mut [Key]) -> u32
    ensures { AnswersEach (λ x answer. IsKeyAnswer (fraction64 x) answer.code answer.key) asked.now answers.old answers.new result }
{
    each(&Keying, asked, answers)
}
