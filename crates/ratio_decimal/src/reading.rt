//! Reading a decimal, such as `12.375` or `-1.5e-3`, as a fraction, and why it is refused.
pub(crate) mod cut;
pub(crate) mod terms;
pub(crate) mod value;

ghost use Rattle.std.specs.Prelude.{Some};
ghost use Rattle.std.specs.Fmt.{padded};
ghost use Rattle.ratio_integer.specs.Range.{Checks};
ghost use Rattle.ratio_decimal.specs.DecimalCuts.{ChecksSigned};
ghost use Rattle.ratio_decimal.specs.DecimalReading.{AnswersDecimal, decimal_refusal_text};
ghost use Rattle.ratio_core.specs.Signs.{with_sign};

use crate::reading::cut::decimal_parts;
use crate::reading::terms::Terms;
use crate::reading::value::lowest;
use ratio_integer::Primitive;
use std::error::Error;
use std::fmt;

/// Why a text has no fraction as a decimal.
#[derive(Clone, Copy, PartialEq, Debug)]
pub enum DecimalRefusal {
    /// The text is no decimal: `1.2.3`, `1e`, `.` and the empty text.
    NotDecimal,
    /// The text is a decimal, and the lowest terms of its value do not fit the type. Over `i8`: `128`, and
    /// `0.0078125`, which is 1/128.
    NotHeld,
}

impl fmt::Display for DecimalRefusal {
    ghost output = { λ why. Some (decimal_refusal_text why) };

    ghost styled_output = { λ why options. Some (padded options (decimal_refusal_text why)) };

    fn fmt<W: fmt::Write>(&self, f: &mut fmt::Formatter<W>) -> fmt::Result {
        f.pad(match self {
            DecimalRefusal::NotDecimal => "the text is not a decimal such as -12.5 or 1.5e-3",
            DecimalRefusal::NotHeld => "the lowest terms of the decimal do not fit the type",
        })
    }
}

/// The lowest terms of a decimal: 99/8 for `12.375`. The text is a sign or none, digits with at most one point, and an
/// exponent or none, such as `e-3`. It has at least one digit before the exponent. The value is exact, however long the
/// text is: `0.500000000000000000000000000` is 1/2.
///
/// The time grows with the length of the text, and not with the exponent. The call takes no memory.
pub fn from_decimal<T: Primitive>(text: &str) -> Result<(T, T), DecimalRefusal>
    ensures { AnswersDecimal (λ r. T.value r.0) (λ r. T.value r.1) T.lo T.hi text.now result }
{
    match decimal_parts(text.as_bytes()) {
        None => Err(DecimalRefusal::NotDecimal),
        Some(parts) => match lowest(parts.whole, parts.part, parts.down, parts.exponent) {
            None => Err(DecimalRefusal::NotHeld),
            Some(terms) => match held_terms::<T>(parts.below, terms) {
                None => Err(DecimalRefusal::NotHeld),
                Some(fraction) => Ok(fraction),
            },
        },
    }
}

/// The two numbers in the type, the first one negated if `below`.
pub(crate) fn held_terms<T: Primitive>(below: bool, terms: Terms) -> Option<(T, T)>
    ensures { ChecksSigned T.value T.lo T.hi below terms.numer terms.denom result }
{
    let numer = signed::<T>(below, terms.numer)?;
    let denom = T::from_u128(terms.denom)?;
    Some((numer, denom))
}

// The number in the type, negated if `below`.
fn signed<T: Primitive>(below: bool, size: u128) -> Option<T>
    ensures { Checks T.value T.lo T.hi (with_sign below size) result }
{
    if below {
        T::from_i128(0i128.checked_sub_unsigned(size)?)
    } else {
        T::from_u128(size)
    }
}

impl Error for DecimalRefusal {}
