//! The answer to one line: its operands are read, its operators are applied, or it is refused.
ghost use Rattle.std.specs.Prelude.{◌≡◌, ◌++◌, ◌∷◌, [], ◌≤◌, ◌<ℤ◌, ℕ, List, MatchOption, codes, length, pos, unwrap_or, MatchResult, ⊤};
ghost use Rattle.std.specs.List.{slice_split};
ghost use Rattle.either.specs.Either.{MatchEither};
ghost use Rattle.either.specs.declared.Either.TheVariants.{Left};
ghost use Rattle.num_rational.specs.Ratio.{numerator, denominator};
ghost use Rattle.ratio_core.specs.Refusal.{refusal_text};
ghost use Rattle.ratio_lines.specs.Answers.{IsAnswer, IsChainAnswer, IsOutcome, IsPartsAnswer, IsTextsAnswer, is_chain, is_space, operator_parts, operators_of, right_parts};
ghost use Rattle.ratio_lines.specs.AnswerText.{bytes_of, outcome_of};
ghost use Rattle.ratio_lines.specs.Parts.{AreChained, OperatesOn, RefusesFirst, parts_of, with_first};

use crate::operand::first_operand;
use crate::operator::{Operator, apply_operator, operator_named};
use crate::parts::{LONGEST_LINE, all_are_terms, first_part, first_short_part};
use either::Either;
use num_rational::{RatioErrorKind, Rational64};

/// The text of an answer, without a line end. On the left is a known text, on the
/// right a number that is printed in decimal.
pub type AnswerText = Either<&'static str, Rational64>;

const WANT_THREE: &str = "error: want LEFT OP RIGHT";

/// The answer to a line that is too long.
pub const TOO_LONG: &str = "error: line too long";

const UNKNOWN_OPERATOR: &str = "error: unknown operator";

/// The outcome of an operator after others. If these gave a text, it stays the answer.
fn go_on(so_far: AnswerText, operator: Operator, right: Rational64) -> AnswerText
    requires left_positive { MatchEither so_far (λ _. ⊤) (λ left. pos 0 <ℤ denominator left) }
    requires right_positive { pos 0 <ℤ denominator right }
    ensures { MatchEither (outcome_of so_far.entry) (λ text. outcome_of result ≡ Left text) (λ left. IsOutcome operator left (numerator right, denominator right) (outcome_of result)) }
{
    match so_far {
        Either::Left(text) => Either::Left(text),
        Either::Right(so_far) => apply_operator(operator, so_far, right),
    }
}

/// The answer that refuses the first operand.
fn left_refusal(kind: RatioErrorKind) -> AnswerText
    ensures { bytes_of result ≡ codes "error: left: " ++ refusal_text kind }
{
    Either::Left(match kind {
        RatioErrorKind::ParseError => "error: left: failed to parse integer",
        RatioErrorKind::ZeroDenominator => "error: left: zero value denominator",
    })
}

/// The answer that refuses a later operand.
fn right_refusal(kind: RatioErrorKind) -> AnswerText
    ensures { bytes_of result ≡ codes "error: right: " ++ refusal_text kind }
{
    Either::Left(match kind {
        RatioErrorKind::ParseError => "error: right: failed to parse integer",
        RatioErrorKind::ZeroDenominator => "error: right: zero value denominator",
    })
}

/// The outcome of an operator between two operands, or the answer that
/// refuses the first operand that is refused.
#[inline(always)]
fn first_outcome(left: &str, operator: Operator, right: &str) -> Result<AnswerText, AnswerText>
    ensures { MatchResult result
        (λ outcome. OperatesOn left.now operator right.now (outcome_of outcome))
        (λ refusal. RefusesFirst left.now right.now (bytes_of refusal)) }
{
    let first = match Rational64::from_str(left) {
        Ok(first) => first,
        Err(refusal) => return Err(left_refusal(refusal.kind())),
    };
    match Rational64::from_str(right) {
        Ok(second) => Ok(apply_operator(operator, first, second)),
        Err(refusal) => Err(right_refusal(refusal.kind())),
    }
}

/// The answer to one operator between two operands.
pub fn answer_two(left: &str, operator: Operator, right: &str) -> AnswerText
    ensures { IsTextsAnswer (operator ∷ []) left.now (right.now ∷ []) (bytes_of result) }
{
    match first_outcome(left, operator, right) {
        Ok(outcome) => outcome,
        Err(refusal) => refusal,
    }
}

/// The answer to operators between operands. Operators apply from left to right. Each operand is read
/// once. It is read even if the answer is already known, since a refusal comes first: `1 / 0 + x` has
/// the answer `error: right: failed to parse integer`.
fn answer_texts(left: &str, operator: Operator, right: &str, parts: Option<&str>) -> AnswerText
    requires { AreChained operator (operator_parts (parts_of parts)) }
    ensures { IsTextsAnswer (operator ∷ unwrap_or (operators_of (operator_parts (parts_of parts.entry))) []) left.now (right.now ∷ right_parts (parts_of parts.entry)) (bytes_of result) }
{
    let mut outcome = match first_outcome(left, operator, right) {
        Ok(outcome) => outcome,
        Err(refusal) => return refusal,
    };
    let mut rest = parts;
    while let Some(text) = rest {
        let (part, after) = first_short_part(text);
        let Some(after) = after else {
            return outcome;
        };
        let Some(next_operator) = operator_named(part) else {
            unreachable!()
        };
        let (operand, after) = first_operand(after);
        let next = match operand {
            Ok(next) => next,
            Err(refusal) => return right_refusal(refusal.kind()),
        };
        outcome = go_on(outcome, next_operator, next);
        rest = after;
    }
    outcome
}

/// The refusal of the operators, if they are refused: an unknown one, or else `cmp` before another one.
fn operators_refusal(first: Operator, parts: Option<&str>) -> Option<&'static str>
    ensures { MatchOption result (AreChained first (operator_parts (parts_of parts.entry)))
        (λ text. (left : List ℕ) (rights : List (List ℕ)) → IsChainAnswer (with_first first (operators_of (operator_parts (parts_of parts.entry)))) left rights text.now) }
{
    let mut last = first;
    let mut is_cmp_last = true;
    let mut rest = parts;
    while let Some(text) = rest {
        let (part, after) = first_short_part(text);
        let Some(operator) = operator_named(part) else {
            return Some(UNKNOWN_OPERATOR);
        };
        is_cmp_last &= !last.is_cmp();
        last = operator;
        rest = match after {
            Some(after) => first_part(after).1,
            None => None,
        };
    }
    if is_cmp_last {
        None
    } else {
        Some("error: cmp must be last")
    }
}

/// Whether the parts are a chain: none is empty, and those after the first three come in pairs.
fn is_chain(left: &str, operator: &str, right: &str, parts: Option<&str>) -> bool
    ensures { result ≡ is_chain (left.now ∷ operator.now ∷ right.now ∷ parts_of parts.entry) }
{
    !left.is_empty() && !operator.is_empty() && !right.is_empty() && all_are_terms(parts)
}

/// The answer to at least three parts.
fn answer_chain(left: &str, operator: &str, right: &str, parts: Option<&str>) -> AnswerText
    ensures { IsPartsAnswer (left.now ∷ operator.now ∷ right.now ∷ parts_of parts.entry) (bytes_of result) }
{
    if !is_chain(left, operator, right, parts) {
        return Either::Left(WANT_THREE);
    }
    let Some(first) = operator_named(operator) else {
        return Either::Left(UNKNOWN_OPERATOR);
    };
    match operators_refusal(first, parts) {
        Some(refusal) => Either::Left(refusal),
        None => answer_texts(left, first, right, parts),
    }
}

/// The answer to a text whose parts have single spaces between them.
fn answer_parts(text: &str) -> AnswerText
    ensures { IsPartsAnswer (slice_split is_space text.now) (bytes_of result) }
{
    let (left, Some(rest)) = first_part(text) else {
        return Either::Left(WANT_THREE);
    };
    let (operator, Some(rest)) = first_short_part(rest) else {
        return Either::Left(WANT_THREE);
    };
    let (right, parts) = first_part(rest);
    answer_chain(left, operator, right, parts)
}

/// The answer to a line without its line end. A carriage return at its end counts as
/// a byte of the line, and then it is dropped.
pub fn answer(line: &[u8]) -> AnswerText
    ensures { IsAnswer line.now (bytes_of result) }
{
    if line.len() > LONGEST_LINE {
        return Either::Left(TOO_LONG);
    }
    let Ok(text) = str::from_utf8(line) else {
        return Either::Left("error: not UTF-8");
    };
    answer_parts(text.strip_suffix('\r').unwrap_or(text))
}
