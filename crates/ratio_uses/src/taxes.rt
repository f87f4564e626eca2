//! A price without its tax, over fractions of any size. The proof cites two laws of the library.
ghost use Rattle.std.specs.Prelude.{◌≡◌, ◌↔◌, pos, None, IfOk, IfSome};
ghost use Rattle.ratio_core.specs.Laws.{IsProduct};
ghost use Rattle.ratio_big.specs.Fractions.{big_numbers};
ghost use Rattle.ratio_laws.specs.BigFieldLaws.{GivesOnly};

use ratio_big::BigFraction;
use ratio_laws::big_fraction::field;
use std::alloc::{AllocError, Global};

/// What was paid, divided by the factor of the tax: 100/1 for 119/1 and 119/100. Times the factor, it is what was paid. An error means
/// that an allocation failed.
pub fn without_tax(
    alloc: Global,
    paid: &BigFraction,
    factor: &BigFraction,
) -> Result<Option<BigFraction>, AllocError>
    ensures back { IfOk result (λ price. IfSome price (λ p. GivesOnly IsProduct (big_numbers p) (big_numbers factor.now) (big_numbers paid.now))) }
    ensures none { IfOk result (λ price. (price ≡ None) ↔ ((big_numbers factor.now).0 ≡ pos 0)) }
{
    field::quotients(paid, factor);
    paid.divide(alloc, factor)
}
