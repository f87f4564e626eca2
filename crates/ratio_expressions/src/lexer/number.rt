//! How long the number or the name is that a text begins with.
ghost use Rattle.std.specs.Prelude.{◌≡◌, ◌≤◌, length};
ghost use Rattle.std.specs.List.{take_while};
ghost use Rattle.ratio_expressions.specs.Tokens.{digits, led, exponent_sign, signed_digits, exponent, decimal, percent, blanks, is_blank_byte, begins_operand, begins_power, vulgar_tail, mixed_tail, tail, plain_number, number, name, is_name_byte};

use crate::vulgar::vulgar_length;

/// How long the number is that a text begins with, or 0. A slash without spaces may be right before it.
#[tactic(auto, unfolding(crate::specs::Tokens::number))]
pub(crate) fn number_length(slash: bool, text: &[u8]) -> usize
    ensures is { result ≡ number slash text.now }
    ensures fits { result ≤ length text.now }
{
    let end = plain_length(slash, text);
    if end == 0 {
        return 0;
    }
    end + percent_length(slash, &text[end..])
}

// The same, without a percent sign.
#[tactic(auto, unfolding(crate::specs::Tokens::plain_number))]
fn plain_length(slash: bool, text: &[u8]) -> usize
    ensures is { result ≡ plain_number slash text.now }
    ensures fits { result ≤ length text.now }
{
    let whole = digits_length(text);
    if whole > 0 {
        return whole + tail_length(slash, &text[whole..]);
    }
    let vulgar = vulgar_length(text);
    if vulgar > 0 {
        return vulgar;
    }
    if led_length(b'.', text) > 0 {
        decimal_length(text)
    } else {
        0
    }
}

// How long a percent sign is that belongs to the number before it.
#[tactic(auto, unfolding(crate::specs::Tokens::percent))]
fn percent_length(slash: bool, text: &[u8]) -> usize
    ensures is { result ≡ percent slash text.now }
    ensures fits { result ≤ length text.now }
{
    match text {
        [b'%', rest @ ..] if !(slash || begins_operand(rest)) => 1,
        _ => 0,
    }
}

/// Whether an operand begins: a digit, a point, a name or a parenthesis.
pub(crate) fn begins_operand(text: &[u8]) -> bool
    ensures { result ≡ begins_operand text.now }
{
    match text {
        [first, ..] => {
            first.is_ascii_alphanumeric() || *first == b'_' || *first == b'.' || *first == b'('
        }
        [] => false,
    }
}

/// How long the name is that a text begins with, or 0.
#[tactic(auto, unfolding(crate::specs::Tokens::name))]
pub(crate) fn name_length(text: &[u8]) -> usize
    ensures is { result ≡ name text.now }
    ensures fits { result ≤ length text.now }
{
    match text {
        [first, ..] if first.is_ascii_alphabetic() || *first == b'_' => name_bytes(text),
        _ => 0,
    }
}

// How many letters, digits and underscores a text begins with.
fn name_bytes(text: &[u8]) -> usize
    ensures is { result ≡ length (take_while is_name_byte text.now) }
    ensures fits { result ≤ length text.now }
{
    text.iter()
        .take_while(|byte| byte.is_ascii_alphanumeric() || **byte == b'_')
        .count()
}

/// How many digits a text begins with.
#[tactic(auto, unfolding(crate::specs::Tokens::digits))]
pub(crate) fn digits_length(text: &[u8]) -> usize
    ensures is { result ≡ digits text.now }
    ensures fits { result ≤ length text.now }
{
    text.iter().take_while(|byte| byte.is_ascii_digit()).count()
}

/// How long this byte and the digits behind it are, or 0 if there is no digit.
#[tactic(auto, unfolding(crate::specs::Tokens::led, crate::specs::Tokens::digits))]
pub(crate) fn led_length(byte: u8, text: &[u8]) -> usize
    ensures is { result ≡ led byte text.now }
    ensures fits { result ≤ length text.now }
{
    match text {
        [first, rest @ ..] if *first == byte => {
            let digits = digits_length(rest);
            if digits > 0 { digits + 1 } else { 0 }
        }
        _ => 0,
    }
}

// How long a sign of an exponent is.
#[tactic(auto, unfolding(crate::specs::Tokens::exponent_sign))]
fn sign_length(text: &[u8]) -> usize
    ensures is { result ≡ exponent_sign text.now }
    ensures fits { result ≤ length text.now }
{
    match text {
        [b'-' | b'+', ..] => 1,
        _ => 0,
    }
}

// How long a sign or none and digits are, or 0 if there is no digit.
#[tactic(auto, unfolding(crate::specs::Tokens::signed_digits))]
fn signed_length(text: &[u8]) -> usize
    ensures is { result ≡ signed_digits text.now }
    ensures fits { result ≤ length text.now }
{
    let sign = sign_length(text);
    let digits = digits_length(&text[sign..]);
    if digits > 0 { sign + digits } else { 0 }
}

// How long an exponent is.
#[tactic(auto, unfolding(crate::specs::Tokens::exponent))]
fn exponent_length(text: &[u8]) -> usize
    ensures is { result ≡ exponent text.now }
    ensures fits { result ≤ length text.now }
{
    match text {
        [b'e' | b'E', rest @ ..] => {
            let signed = signed_length(rest);
            if signed > 0 { signed + 1 } else { 0 }
        }
        _ => 0,
    }
}

// How long a point with digits and an exponent are, each if it is there.
#[tactic(auto, unfolding(crate::specs::Tokens::decimal))]
fn decimal_length(text: &[u8]) -> usize
    ensures is { result ≡ decimal text.now }
    ensures fits { result ≤ length text.now }
{
    let point = led_length(b'.', text);
    point + exponent_length(&text[point..])
}

// How long a vulgar fraction is, or a space and a vulgar fraction, or 0.
#[tactic(auto, unfolding(crate::specs::Tokens::vulgar_tail))]
fn vulgar_tail_length(text: &[u8]) -> usize
    ensures is { result ≡ vulgar_tail text.now }
    ensures fits { result ≤ length text.now }
{
    match text {
        [b' ', rest @ ..] => {
            let long = vulgar_length(rest);
            if long > 0 { long + 1 } else { 0 }
        }
        _ => vulgar_length(text),
    }
}

// How long what makes a whole number a mixed number is.
#[tactic(auto, unfolding(crate::specs::Tokens::mixed_tail))]
fn mixed_length(text: &[u8]) -> usize
    ensures is { result ≡ mixed_tail text.now }
    ensures fits { result ≤ length text.now }
{
    let numer = led_length(b' ', text);
    let denom = led_length(b'/', &text[numer..]);
    if numer > 0 && denom > 0 {
        numer + denom
    } else {
        vulgar_tail_length(text)
    }
}

// How long what makes a whole number a mixed number or a decimal is.
#[tactic(auto, unfolding(crate::specs::Tokens::tail))]
fn tail_length(slash: bool, text: &[u8]) -> usize
    ensures is { result ≡ tail slash text.now }
    ensures fits { result ≤ length text.now }
{
    let mixed = mixed_length(text);
    if mixed > 0 && !(slash || begins_power(&text[mixed..])) {
        mixed
    } else {
        decimal_length(text)
    }
}

// How many blank bytes a text begins with.
#[tactic(auto, unfolding(crate::specs::Tokens::blanks))]
fn blanks_length(text: &[u8]) -> usize
    ensures is { result ≡ blanks text.now }
    ensures fits { result ≤ length text.now }
{
    text.iter()
        .take_while(|byte| **byte == b' ' || **byte == b'\t')
        .count()
}

/// Whether a `^` or a `**` comes first, maybe behind blank bytes.
pub(crate) fn begins_power(text: &[u8]) -> bool
    ensures { result ≡ begins_power text.now }
{
    match &text[blanks_length(text)..] {
        [b'^', ..] | [b'*', b'*', ..] => true,
        _ => false,
    }
}
