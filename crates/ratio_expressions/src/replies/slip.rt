//! Which hint a refused line gets: by what is before the refused place, and by what is at it.
ghost use Rattle.std.specs.Prelude.{◌≡◌, ◌≤◌, length, reverse, slice_index};
ghost use Rattle.std.specs.List.{take_while};
ghost use Rattle.ratio_expressions.specs.Slips.{behind_digits, ends_operand, ends_over, hint, hint_between, hint_for, hint_of_byte, hint_of_call, hint_of_character, hint_of_comma, hint_of_comparison, hint_of_compared, hint_of_end, hint_of_equal, hint_of_kind, hint_of_mark, hint_of_name, hint_of_number, hint_of_operator, hint_of_sign, hint_of_slash, hint_of_three, hint_of_two, hint_of_word, is_cross, is_equal, is_part_to_power, last_byte, digits_at_end, name_at, trimmed};
ghost use Rattle.ratio_expressions.specs.Tokens.{is_blank_byte};

use crate::lexer::number::{begins_power, digits_length, led_length, name_length};
use crate::lexer::{behind, first_token, is_blank_byte, is_fraction_slash};
use crate::refusal::{Reason, Refusal};
use crate::replies::hint::Hint;
use crate::token::{Kind, Operator};

/// The hint for a refused line, by the reason.
pub(crate) fn hint_for(line: &[u8], refusal: Refusal) -> Option<Hint>
    requires { refusal.place ≤ length line.now }
    ensures { result ≡ hint_for line.now refusal }
{
    match refusal.reason {
        Reason::NoExpression => hint(line, refusal.place),
        Reason::UnknownName => Some(hint_of_name(name_at(line, refusal.place))),
        Reason::UnknownCall => Some(hint_of_call(name_at(line, refusal.place))),
        _ => None,
    }
}

/// The hint for a line that cannot go on like this at a place.
pub(crate) fn hint(line: &[u8], place: usize) -> Option<Hint>
    requires { place ≤ length line.now }
    ensures { result ≡ hint line.now place }
{
    hint_between(trimmed(&line[..place]), &line[place..])
}

// The hint by what is before the place, and by what is at it.
fn hint_between(before: &[u8], rest: &[u8]) -> Option<Hint>
    ensures { result ≡ hint_between before.now rest.now }
{
    if rest.len() == 0 {
        return hint_of_end(before);
    }
    match first_token(false, rest) {
        Some((kind, _)) => hint_of_kind(kind, before, rest),
        None => hint_of_sign(rest),
    }
}

// The hint for a token of this kind, with what is before it and what begins with it.
fn hint_of_kind(kind: Kind, before: &[u8], rest: &[u8]) -> Option<Hint>
    ensures { result ≡ hint_of_kind kind before.now rest.now }
{
    match kind {
        Kind::Number => Some(hint_of_number(before, rest)),
        Kind::Name => Some(hint_of_word(&rest[..name_length(rest)])),
        Kind::Operator(operator) => Some(hint_of_operator(operator, before)),
        Kind::Open => Some(Hint::Product),
        Kind::Close => Some(Hint::Closing),
        Kind::Comma => hint_of_comma(before),
    }
}

// The hint for the end of the line.
fn hint_of_end(before: &[u8]) -> Option<Hint>
    ensures { result ≡ hint_of_end before.now }
{
    if last_byte(before) == b'%' {
        return Some(Hint::Percentage);
    }
    if last_byte(before) == b'=' {
        return Some(Hint::Equals);
    }
    if ends_operand(before) {
        return Some(Hint::Unclosed);
    }
    None
}

// The hint for a number behind an operand.
fn hint_of_number(before: &[u8], rest: &[u8]) -> Hint
    ensures { result ≡ hint_of_number before.now rest.now }
{
    if ends_over(before) {
        return Hint::BesideSlash;
    }
    if byte_at(rest, 0) == b'.' {
        return Hint::Points;
    }
    if is_part_to_power(behind_digits(rest)) {
        return Hint::MixedPower;
    }
    if is_fraction_slash(behind_digits(rest)) {
        return Hint::MixedSlash;
    }
    Hint::SideBySide
}

// The hint for a word behind an operand.
fn hint_of_word(word: &[u8]) -> Hint
    ensures { result ≡ hint_of_word word.now }
{
    if is_cross(word) {
        return Hint::Times;
    }
    if word == b"mod".as_slice() {
        return Hint::Remainder;
    }
    if word == b"div".as_slice() {
        return Hint::WholeQuotient;
    }
    if word == b"times".as_slice() {
        return Hint::Times;
    }
    if word == b"of".as_slice() {
        return Hint::Share;
    }
    if word == b"and".as_slice() {
        return Hint::Joined;
    }
    match word {
        [b'_', ..] => Hint::Underscore,
        _ => Hint::Unit,
    }
}

// The hint for an operator.
fn hint_of_operator(operator: Operator, before: &[u8]) -> Hint
    ensures { result ≡ hint_of_operator operator before.now }
{
    if last_byte(before) == b'%' {
        return Hint::Percentage;
    }
    if before.len() == 0 && !is_equal(operator) {
        return Hint::GoingOn;
    }
    hint_of_compared(operator, before)
}

// Whether an operator is `=`.
fn is_equal(operator: Operator) -> bool
    ensures { result ≡ is_equal operator }
{
    match operator {
        Operator::Equal => true,
        _ => false,
    }
}

// The hint for an operator that no operand is before, or that compares once more.
fn hint_of_compared(operator: Operator, before: &[u8]) -> Hint
    ensures { result ≡ hint_of_compared operator before.now }
{
    match operator {
        Operator::Equal => hint_of_equal(before),
        Operator::Less
        | Operator::AtMost
        | Operator::NotEqual
        | Operator::AtLeast
        | Operator::Greater => hint_of_comparison(before),
        Operator::Divide(_) => hint_of_slash(before),
        Operator::Remainder(_) if ends_operand(before) => Hint::Percentage,
        _ => Hint::OneOperator,
    }
}

// The hint for an equals sign.
fn hint_of_equal(before: &[u8]) -> Hint
    ensures { result ≡ hint_of_equal before.now }
{
    if before.len() == 0 {
        return Hint::Equals;
    }
    if last_byte(before) == b'=' {
        return Hint::Same;
    }
    if last_byte(before) == b'<' || last_byte(before) == b'>' {
        return Hint::Turned;
    }
    if ends_operand(before) {
        Hint::TwoNames
    } else {
        Hint::Increase
    }
}

// The hint for another comparison.
fn hint_of_comparison(before: &[u8]) -> Hint
    ensures { result ≡ hint_of_comparison before.now }
{
    if last_byte(before) == b'=' || last_byte(before) == b'<' {
        return Hint::Turned;
    }
    if ends_operand(before) {
        Hint::Chain
    } else {
        Hint::OneOperator
    }
}

// The hint for a slash.
fn hint_of_slash(before: &[u8]) -> Hint
    ensures { result ≡ hint_of_slash before.now }
{
    if last_byte(before) == b'/' {
        Hint::WholeQuotient
    } else {
        Hint::OneOperator
    }
}

// The hint for a comma.
fn hint_of_comma(before: &[u8]) -> Option<Hint>
    ensures { result ≡ hint_of_comma before.now }
{
    if ends_operand(before) {
        Some(Hint::Comma)
    } else {
        None
    }
}

// The hint for what begins no token.
fn hint_of_sign(rest: &[u8]) -> Option<Hint>
    ensures { result ≡ hint_of_sign rest.now }
{
    match rest {
        [b'.', b'.', ..] => Some(Hint::Repeating),
        [b'.', ..] => Some(Hint::LastPoint),
        [b':', b'=', ..] => Some(Hint::Assigned),
        _ => hint_of_character(rest),
    }
}

// The hint for a sign beyond ASCII, in UTF-8, or for a byte.
fn hint_of_character(text: &[u8]) -> Option<Hint>
    ensures { result ≡ hint_of_character text.now }
{
    let first = byte_at(text, 0);
    if first == 0xC2 {
        return hint_of_two(byte_at(text, 1));
    }
    if first == 0xE2 {
        return hint_of_three(byte_at(text, 1), byte_at(text, 2));
    }
    if first == 0xCF && byte_at(text, 1) == 0x80 {
        return Some(Hint::Pi);
    }
    hint_of_byte(first)
}

// The hint for a sign of two bytes, by the second one behind 0xC2.
fn hint_of_two(second: u8) -> Option<Hint>
    ensures { result ≡ hint_of_two second }
{
    match second {
        0xB2 | 0xB3 => Some(Hint::Power),
        0xA0 => Some(Hint::PlainSpace),
        0xA2 | 0xA3 | 0xA5 | 0xB0 => Some(Hint::Currency),
        _ => None,
    }
}

// The hint for a sign of three bytes, by the last two behind 0xE2.
fn hint_of_three(second: u8, third: u8) -> Option<Hint>
    ensures { result ≡ hint_of_three second third }
{
    match (second, third) {
        (0x80, mark) => hint_of_mark(mark),
        (0x88, 0x9A) => Some(Hint::Root),
        (0x82, 0xAC) => Some(Hint::Currency),
        _ => None,
    }
}

// The hint for a sign of three bytes, by the last one behind 0xE2 and 0x80.
fn hint_of_mark(third: u8) -> Option<Hint>
    ensures { result ≡ hint_of_mark third }
{
    match third {
        0xA6 => Some(Hint::Repeating),
        0xAF => Some(Hint::PlainSpace),
        0x99 | 0x9D | 0xB2 | 0xB3 => Some(Hint::Currency),
        _ => None,
    }
}

// The hint for a byte that begins no token.
fn hint_of_byte(byte: u8) -> Option<Hint>
    ensures { result ≡ hint_of_byte byte }
{
    match byte {
        b'!' => Some(Hint::Factorial),
        b'"' | b'$' | b'\'' => Some(Hint::Currency),
        b'#' => Some(Hint::Note),
        b'&' | b'|' => Some(Hint::Chain),
        b':' => Some(Hint::Proportion),
        b';' => Some(Hint::Lines),
        b'?' => Some(Hint::Equals),
        b'@' => Some(Hint::Times),
        b'[' | b']' | b'{' | b'}' => Some(Hint::Bracket),
        _ => None,
    }
}

// The hint for a name that nothing has.
fn hint_of_name(word: &[u8]) -> Hint
    ensures { result ≡ hint_of_name word.now }
{
    if word == b"pi".as_slice() || word == b"Pi".as_slice() || word == b"PI".as_slice() {
        Hint::Pi
    } else {
        Hint::NameFirst
    }
}

// The hint for a call that there is not.
fn hint_of_call(word: &[u8]) -> Hint
    ensures { result ≡ hint_of_call word.now }
{
    if word == b"sqrt".as_slice() {
        return Hint::Root;
    }
    if word == b"pow".as_slice() {
        return Hint::Power;
    }
    if word == b"mod".as_slice() {
        return Hint::Remainder;
    }
    if word == b"sum".as_slice() {
        return Hint::Sum;
    }
    if word == b"factorial".as_slice() {
        return Hint::Factorial;
    }
    if word.len() == 1 {
        Hint::NameProduct
    } else {
        Hint::Calls
    }
}

// The name at a place of a line.
fn name_at(line: &[u8], place: usize) -> &[u8]
    requires { place ≤ length line.now }
    ensures { result.now ≡ name_at line.now place }
{
    let rest = &line[place..];
    &rest[..name_length(rest)]
}

// A text without the blank bytes at its end.
fn trimmed(text: &[u8]) -> &[u8]
    ensures { result.now ≡ trimmed text.now }
{
    &text[..text.len() - last_blanks(text)]
}

// How many blank bytes a text ends with.
fn last_blanks(text: &[u8]) -> usize
    ensures is { result ≡ length (take_while is_blank_byte (reverse text.now)) }
    ensures fits { result ≤ length text.now }
{
    text.iter()
        .rev()
        .take_while(|byte| is_blank_byte(**byte))
        .count()
}

// How many digits a text ends with.
fn digits_at_end(text: &[u8]) -> usize
    ensures is { result ≡ digits_at_end text.now }
    ensures fits { result ≤ length text.now }
{
    text.iter()
        .rev()
        .take_while(|byte| byte.is_ascii_digit())
        .count()
}

// The last byte of a text, or 0.
fn last_byte(text: &[u8]) -> u8
    ensures { result ≡ last_byte text.now }
{
    let long = text.len();
    if long > 0 { text[long - 1] } else { 0 }
}

// Whether a text ends as an operand does: with a letter, a digit, an underscore or a parenthesis.
fn ends_operand(text: &[u8]) -> bool
    ensures { result ≡ ends_operand text.now }
{
    let last = last_byte(text);
    last.is_ascii_alphanumeric() || last == b'_' || last == b')'
}

// Whether a text ends with a slash and digits.
fn ends_over(text: &[u8]) -> bool
    ensures { result ≡ ends_over text.now }
{
    let digits = digits_at_end(text);
    digits > 0 && behind(b'/', text, text.len() - digits)
}

// The byte at a place of a text, or 0 if none is there.
fn byte_at(text: &[u8], at: usize) -> u8
    ensures { result ≡ slice_index text.now at }
{
    if at < text.len() { text[at] } else { 0 }
}

// What is behind the digits that a text begins with.
fn behind_digits(text: &[u8]) -> &[u8]
    ensures { result.now ≡ behind_digits text.now }
{
    &text[digits_length(text)..]
}

// Whether a text is a slash and digits and then a power.
fn is_part_to_power(text: &[u8]) -> bool
    ensures { result ≡ is_part_to_power text.now }
{
    let part = led_length(b'/', text);
    part > 0 && begins_power(&text[part..])
}

// Whether a word is an x as a sign of a product: alone, or with digits.
fn is_cross(word: &[u8]) -> bool
    ensures { result ≡ is_cross word.now }
{
    match word {
        [b'x' | b'X', rest @ ..] => digits_length(rest) == rest.len(),
        _ => false,
    }
}
