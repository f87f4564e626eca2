//! The hash of a fraction, by its value, and the hash of one in lowest terms, which stirs its two numbers by two products.
ghost use Rattle.std.specs.Prelude.{◌≢◌, ◌∷◌, ◌++◌, ◌≡◌, ◌+◌, ◌%◌, ◌^◌, refl, [], pos};
ghost use Rattle.ratio_c.specs.Calls.{IsHashAnswer, IsHashOf};
ghost use Rattle.ratio_c.specs.Crossing.{mixed};
ghost use Rattle.ratio_c.specs.LowestHash.{IsLowestHashAnswer, stirred};

use crate::code::{ANSWERED, DENOMINATOR_NOT_POSITIVE, ZERO_DENOMINATOR};
use crate::crossing::{Digest, OneFraction};
use crate::each::Call;
use ratio_core::{CodeList, Steps, Taken, hash_counted};
use ratio_integer::Integer;

/// A hash is multiplied by this before it takes the next code.
pub const MULTIPLIER: u64 = 0x9e37_79b9_7f4a_7c15;

/// A hash. If there is none, the code says why, and `hash` is 0.
#[repr(C)]
#[derive(Drop)]
pub struct Hash {
    pub code: u32,
    pub hash: u64,
}

/// The hash of the codes so far.
#[derive(Drop)]
pub struct Mixed {
    pub hash: u64,
    pub taken: Taken,
}

impl<T: Digest> CodeList<T> for Mixed {
    ghost taken = { λ list. list.taken.codes };

    ghost after = { λ list z. record { hash = mixed list.hash z; taken = record { codes = list.taken.codes ++ z ∷ [] } } };

    fn take(&mut self, t: T) {
        self.hash = self.hash.wrapping_mul(MULTIPLIER).wrapping_add(t.residue());
        self.taken.note(&t);
    }

    ghost end_law = { λ list z. refl };
}

/// The hash of a fraction's codes.
fn hash_of<T: Digest>(n: T, d: T) -> u64
    requires { T.value d ≢ pos 0 }
    ensures { IsHashOf T.lo T.hi (T.value n, T.value d) result }
{
    let mut list = Mixed {
        hash: 0,
        taken: Taken::none(),
    };
    hash_counted(n, d, &mut list, &mut Steps::new());
    list.hash
}

/// The hash of a fraction.
#[derive(Clone, Copy)]
pub struct Hashing;

impl<F: OneFraction> Call<F, Hash> for Hashing {
    ghost gives = { λ _ x answer. IsHashAnswer F.Inside.lo F.Inside.hi (F.fraction x) answer.code answer.hash };

    #[inline(always)]
    fn answer(&self, x: &F) -> Hash {
        let (n, d) = x.fraction();
        if d.is_zero() {
            Hash {
                code: ZERO_DENOMINATOR,
                hash: 0,
            }
        } else {
            Hash {
                code: ANSWERED,
                hash: hash_of(n, d),
            }
        }
    }
}

/// The hash of a fraction's two numbers. In lowest terms it is one hash for each value.
#[derive(Clone, Copy)]
pub struct LowestHashing;

impl<F: OneFraction> Call<F, Hash> for LowestHashing {
    ghost gives = { λ _ x answer. IsLowestHashAnswer (F.fraction x) answer.code answer.hash };

    #[inline(always)]
    fn answer(&self, x: &F) -> Hash {
        let (n, d) = x.fraction();
        if F::Inside::ZERO < d {
            let sum = stir(n.residue()).wrapping_add(d.residue());
            Hash {
                code: ANSWERED,
                hash: stir(sum),
            }
        } else {
            Hash {
                code: DENOMINATOR_NOT_POSITIVE,
                hash: 0,
            }
        }
    }
}

/// The product with the multiplier, modulo 2^64, with its halves exchanged: the upper half of a product, which depends
/// on all bits of the number, becomes the lower one, which tables use.
#[inline(always)]
fn stir(n: u64) -> u64
    ensures { result ≡ stirred n }
{
    let product = n.wrapping_mul(MULTIPLIER);
    (product % (1 << 32)) * (1 << 32) + product / (1 << 32)
}
