//! The operand that a text begins with, in lowest terms, which is read while its end is looked for.
ghost use Rattle.std.specs.Prelude.{◌≡◌, ◌≤◌, ◌∷◌, ℕ, List, IfSome, length, take};
ghost use Rattle.std.specs.List.{slice_split};
ghost use Rattle.ratio_integer.specs.SignedBits.{greatest64, least64};
ghost use Rattle.ratio_core.specs.Reading.{AnswersText, IsFractionText};
ghost use Rattle.ratio_lines.specs.Answers.{is_space};
ghost use Rattle.ratio_lines.specs.Cuts.{HasNone};
ghost use Rattle.ratio_lines.specs.Operands.{IsOperand, numbers_of};
ghost use Rattle.ratio_lines.specs.Parts.{ReadsFirst, parts_of};

use crate::parts::first_part;
use num_rational::{ParseRatioError, RatioErrorKind, Rational64};
use ratio_core::text::leading_fields;

/// The first part of a text, read as an operand, and the rest after its space, if it has one. For
/// example, `6/4 + 2` gives 3/2 and `+ 2`. Where `leading_operand` gives up, the end of the part is
/// searched for, and then it is read.
#[inline(always)]
pub(crate) fn first_operand(text: &str) -> (Result<Rational64, ParseRatioError>, Option<&str>)
    ensures { ReadsFirst text.now (numbers_of result.0) (parts_of result.1) }
{
    match leading_operand(text) {
        Some(read) => read,
        None => {
            let (part, rest) = first_part(text);
            (Rational64::from_str(part), rest)
        }
    }
}

// An operand whose numbers have digits alone, with a minus or without, and what comes after it. Its digits
// are read before its end is known: to search for the end first takes longer. `None` says nothing about the text.
#[inline(always)]
fn leading_operand(text: &str) -> Option<(Result<Rational64, ParseRatioError>, Option<&str>)>
    ensures { IfSome result (λ r. ReadsFirst text.now (numbers_of r.0) (parts_of r.1)) }
{
    let bytes = text.as_bytes();
    if is_searched(bytes) {
        return None;
    }
    let (numer, denom, end) = leading_fields::<i64>(bytes)?;
    let rest = rest_from(text, end)?;
    let operand = in_lowest_terms(numer, denom)?;
    Some((operand, rest))
}

// Whether the bytes begin with a plus, which is not read here, or with two zeros: there may be many more zeros,
// and then the part would be read twice.
#[inline(always)]
fn is_searched(bytes: &[u8]) -> bool {
    bytes.len() > 1 && (bytes[0] == b'+' || bytes[0] == b'0' && bytes[1] == b'0')
}

// The rest after a part without a space that ends here. `None` if no part ends here.
#[inline(always)]
fn rest_from(text: &str, end: usize) -> Option<Option<&str>>
    requires within { end ≤ length text.now }
    requires none { HasNone 32 (take end text.now) }
    ensures { IfSome result (λ rest. slice_split is_space text.now ≡ take end text.now ∷ parts_of rest) }
{
    if end == text.len() {
        return Some(None);
    }
    if text.as_bytes()[end] != b' ' {
        return None;
    }
    Some(Some(text.split_at(end + 1).1))
}

// The lowest terms of the two numbers of an operand, or the refusal of a zero denominator. `None` if they do
// not fit.
#[inline(always)]
fn in_lowest_terms(numer: i64, denom: i64) -> Option<Result<Rational64, ParseRatioError>>
    ensures { IfSome result (λ r. (text : List ℕ) → IsFractionText least64 greatest64 text numer denom → IsOperand text (numbers_of r)) }
{
    if denom == 0 {
        return Some(Err(ParseRatioError::new(RatioErrorKind::ZeroDenominator)));
    }
    Some(Ok(Rational64::checked_new(numer, denom)?))
}
