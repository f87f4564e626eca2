//! Whether numbers are not too large for an operator or a call to take them.
ghost use Rattle.std.specs.Prelude.{◌↔◌, ◌∷◌, [], map, IfOk, IsTrue};
ghost use Rattle.ratio_big.specs.Fractions.{big_numbers};
ghost use Rattle.ratio_big.specs.Values.{IsShort};
ghost use Rattle.ratio_expressions.specs.Limits.{FitTogether, IsSize};

use crate::size::{MOST_BITS, size_in_bits};
use ratio_big::BigFraction;
use std::alloc::{AllocError, Global};

/// Whether the two numbers have at most a million bits together. Two short numbers need no memory for this.
pub(crate) fn pair_fits(alloc: Global, x: &BigFraction, y: &BigFraction) -> Result<bool, AllocError>
    ensures { IfOk result (λ fit. IsTrue fit ↔ FitTogether (big_numbers x.now ∷ big_numbers y.now ∷ [])) }
{
    if is_short(x) && is_short(y) {
        return Ok(true);
    }
    let left = size(alloc, x)?;
    let right = size(alloc, y)?;
    Ok(left + right <= MOST_BITS)
}

/// Whether the numbers have at most a million bits together.
pub(crate) fn fit_together(alloc: Global, numbers: &[BigFraction]) -> Result<bool, AllocError>
    ensures { IfOk result (λ fit. IsTrue fit ↔ FitTogether (map big_numbers numbers.now)) }
{
    let mut left = MOST_BITS;
    for next in 0..numbers.len() {
        let own = size(alloc, &numbers[next])?;
        if left < own {
            return Ok(false);
        }
        left -= own;
    }
    Ok(true)
}

// Whether both numbers of the fraction fit an `i64`.
fn is_short(x: &BigFraction) -> bool
    ensures { IsTrue result ↔ IsShort (big_numbers x.now) }
{
    x.to_reduced().is_some()
}

// How many bits the longer one of a fraction's two numbers has, up to the limit.
fn size(alloc: Global, x: &BigFraction) -> Result<u64, AllocError>
    ensures { IfOk result (IsSize (big_numbers x.now)) }
{
    let mut numer = x.numer_digits(alloc)?;
    let mut denom = x.denom_digits(alloc)?;
    let above = size_in_bits(numer.as_mut_slice());
    let below = size_in_bits(denom.as_mut_slice());
    if above < below { Ok(below) } else { Ok(above) }
}
