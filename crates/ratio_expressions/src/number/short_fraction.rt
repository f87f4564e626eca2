//! The number that a text of one or two short whole numbers says: `3/4`, `12`.
ghost use Rattle.std.specs.Prelude.{IfSome};
ghost use Rattle.ratio_big.specs.Fractions.{big_numbers};
ghost use Rattle.ratio_expressions.specs.Numbers.{SaysNumber};

use num_rational::Reduced64;
use ratio_big::BigFraction;
use ratio_core::text::leading_fields;

/// The number of a text of digits, with a slash or none, in 64 bits. `None` says nothing about the text: this is the quick way for most
/// numbers.
pub(crate) fn short_fraction(text: &[u8]) -> Option<BigFraction>
    ensures { IfSome result (λ x. SaysNumber text.now (big_numbers x)) }
{
    let (numer, denom, end) = leading_fields::<i64>(text)?;
    if end < text.len() {
        return None;
    }
    let lowest = Reduced64::checked_new(numer, denom)?;
    Some(BigFraction::from_reduced(lowest))
}
