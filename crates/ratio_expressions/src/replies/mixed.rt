//! A number as its whole part and the rest: `1 5/12`.
ghost use Rattle.std.specs.Prelude.{◌≡◌, ◌++◌, ◌∷◌, [], IfOk};
ghost use Rattle.ratio_big.specs.Fractions.{big_numbers};
ghost use Rattle.ratio_big.specs.Texts.{fraction_text};
ghost use Rattle.ratio_big.specs.Values.{absolute_pair};
ghost use Rattle.ratio_expressions.specs.Forms.{IsInMixedForm};

use crate::replies::written::fraction_text;
use ratio_big::BigFraction;
use std::alloc::{AllocError, Global};

/// The whole part of a number and the rest, without its sign, and a space between: `-1 5/12`. The fraction alone, if one of them is 0.
pub(crate) fn mixed_text(alloc: Global, x: &BigFraction) -> Result<Vec<u8>, AllocError>
    ensures { IfOk result (λ text. IsInMixedForm (big_numbers x.now) text.items) }
{
    let whole = x.trunc(alloc)?;
    let rest = x.fract(alloc)?;
    if whole.is_zero() || rest.is_zero() {
        return fraction_text(alloc, x);
    }
    parts_text(alloc, &whole, &rest)
}

// A whole part and the rest, without its sign, and a space between.
fn parts_text(alloc: Global, whole: &BigFraction, rest: &BigFraction) -> Result<Vec<u8>, AllocError>
    ensures { IfOk result (λ text. text.items ≡ fraction_text (big_numbers whole.now) ++ 32 ∷ [] ++ fraction_text (absolute_pair (big_numbers rest.now))) }
{
    let mut text = fraction_text(alloc, whole)?;
    let size = rest.abs(alloc)?;
    let rest = fraction_text(alloc, &size)?;
    text.push(b' ')?;
    text.extend_from_slice(&rest)?;
    Ok(text)
}
