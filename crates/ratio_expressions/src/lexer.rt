//! The tokens of a text, or the first place where none begins.
pub(crate) mod number;
mod symbol;

ghost use Rattle.std.specs.Prelude.{◌≡◌, ◌<◌, ◌≤◌, ◌+◌, ◌++◌, ◌∷◌, [], length, IfOk, OnOk, IsErr, IfSome};
ghost use Rattle.ratio_expressions.specs.Tokens.{BeginsWithToken, IsCutTo, begins_three, first_token, is_behind, is_behind_blank, is_behind_slash, is_blank_at, is_blank_byte, is_loose_percent, set_as, slash_behind, spaced, token_at};

use crate::lexer::number::{begins_operand, name_length, number_length};
use crate::lexer::symbol::symbol_at;
use crate::token::{Kind, Operator, Spacing, Span, Token};
use std::alloc::{AllocError, Global};

// For how many tokens there is room at first: a line with a few operators takes memory once.
const FIRST_ROOM: usize = 16;

/// A text that is cut into tokens.
#[derive(Drop)]
pub struct Cut {
    pub tokens: Vec<Token>,
    /// The length of the text, or the first place where no token begins.
    pub end: usize,
}

/// The tokens of a text, or the first place where none begins. Spaces and tabs may be between tokens. An error means that an allocation failed.
///
/// - A number is a decimal (`12.5`, `.5`, `3e-2`), a vulgar fraction (`½`) or a mixed number with one space (`1 1/2`, `1 ½`) or none (`1½`).
///   Before a `^` no mixed number ends, and right of a slash without spaces none begins.
/// - A percent sign that touches a number belongs to it, unless an operand touches the sign: `7%3` is a remainder. Right of a slash without
///   spaces it belongs to no number.
/// - A name is a letter or an underscore, and letters, digits and underscores.
/// - A division and a remainder say where spaces or tabs are around them. `⁄` is a slash.
pub fn tokens(alloc: Global, text: &[u8]) -> Result<Cut, AllocError>
    // The tokens are those of the text up to the place.
    ensures cut { IfOk result (λ cut. IsCutTo text.now cut.end cut.tokens.items) }
    // A text that begins with no token takes no memory.
    ensures memory { IsErr result → BeginsWithToken text.now }
{
    let mut found = Vec::new(alloc);
    let mut at = 0;
    while at < text.len() {
        if blank_at(text, at) {
            at += 1;
            continue;
        }
        match token_at(text, at) {
            None => {
                return Ok(Cut {
                    tokens: found,
                    end: at,
                });
            }
            Some((kind, long)) => {
                let span = Span {
                    start: at,
                    end: at + long,
                };
                put_token(alloc, Token { kind, span }, text.len(), &mut found)?;
                at += long;
            }
        }
    }
    Ok(Cut {
        tokens: found,
        end: at,
    })
}

// Puts down a token. The first one takes the memory for those of a line with a few operators, or of a shorter text.
#[inline(always)]
fn put_token(
    alloc: Global,
    token: Token,
    longest: usize,
    found: &mut Vec<Token>,
) -> Result<(), AllocError>
    ensures { OnOk result (found.new.items ≡ found.old.items ++ token ∷ []) }
{
    if found.is_empty() {
        *found = Vec::with_capacity(alloc, longest.min(FIRST_ROOM))?;
    }
    found.push(token)?;
    Ok(())
}

// The token that begins at this place of a text, and its length.
fn token_at(text: &[u8], at: usize) -> Option<(Kind, usize)>
    requires { at ≤ length text.now }
    ensures is { result ≡ token_at text.now at }
    ensures fits { IfSome result (λ found. (0 < found.1) × (at + found.1 ≤ length text.now)) }
{
    if loose_percent(text, at) {
        return None;
    }
    match first_token(behind_slash(text, at), &text[at..]) {
        Some((kind, long)) => {
            let kind = as_spaced(behind_blank(text, at), blank_at(text, at + long), kind);
            Some((kind, long))
        }
        None => None,
    }
}

// Whether a percent sign is at this place that is no part of a number and no remainder.
fn loose_percent(text: &[u8], at: usize) -> bool
    requires { at ≤ length text.now }
    ensures { result ≡ is_loose_percent text.now at }
{
    match &text[at..] {
        [b'%', rest @ ..] => !(behind_blank(text, at) || begins_operand(rest)),
        _ => false,
    }
}

/// Whether the byte is right before this place.
pub(crate) fn behind(byte: u8, text: &[u8], at: usize) -> bool
    requires { at ≤ length text.now }
    ensures { result ≡ is_behind byte text.now at }
{
    at > 0 && text[at - 1] == byte
}

// Whether a blank byte is at this place: a space or a tab.
fn blank_at(text: &[u8], at: usize) -> bool
    ensures { result ≡ is_blank_at text.now at }
{
    at < text.len() && is_blank_byte(text[at])
}

/// Whether a byte is a space or a tab.
pub(crate) fn is_blank_byte(byte: u8) -> bool
    ensures { result ≡ is_blank_byte byte }
{
    byte == b' ' || byte == b'\t'
}

// Whether a blank byte is right before this place.
fn behind_blank(text: &[u8], at: usize) -> bool
    requires { at ≤ length text.now }
    ensures { result ≡ is_behind_blank text.now at }
{
    at > 0 && blank_at(text, at - 1)
}

// Whether a slash without spaces is right before this place.
fn behind_slash(text: &[u8], at: usize) -> bool
    requires { at ≤ length text.now }
    ensures { result ≡ is_behind_slash text.now at }
{
    let slash = slash_behind(text, at);
    slash > 0 && !behind_blank(text, at - slash)
}

// How long the slash is that is right before this place, or 0: `/` or `⁄`.
fn slash_behind(text: &[u8], at: usize) -> usize
    requires { at ≤ length text.now }
    ensures is { result ≡ slash_behind text.now at }
    ensures fits { result ≤ at }
{
    if behind(b'/', text, at) {
        return 1;
    }
    if at > 2 && is_fraction_slash(&text[at - 3..]) {
        3
    } else {
        0
    }
}

/// Whether a text begins with `⁄`.
pub(crate) fn is_fraction_slash(text: &[u8]) -> bool
    ensures { result ≡ begins_three 226 129 132 text.now }
{
    match text {
        [0xE2, 0x81, 0x84, ..] => true,
        _ => false,
    }
}

// A division or a remainder with a blank byte before it or none, and one behind it or none.
fn as_spaced(before: bool, after: bool, kind: Kind) -> Kind
    ensures { result ≡ spaced before after kind }
{
    match kind {
        Kind::Operator(Operator::Divide(spacing)) => {
            Kind::Operator(Operator::Divide(spacing_of(before, after, spacing)))
        }
        Kind::Operator(Operator::Remainder(spacing)) => {
            Kind::Operator(Operator::Remainder(spacing_of(before, after, spacing)))
        }
        _ => kind,
    }
}

// How an operator is set that has this spacing without spaces.
fn spacing_of(before: bool, after: bool, without: Spacing) -> Spacing
    ensures { result ≡ set_as before after without }
{
    match (before, after) {
        (true, true) => Spacing::Wide,
        (false, false) => without,
        _ => Spacing::Half,
    }
}

/// What a text begins with, and its length. A slash without spaces may be right before it.
pub(crate) fn first_token(slash: bool, text: &[u8]) -> Option<(Kind, usize)>
    ensures is { result ≡ first_token slash text.now }
    ensures fits { IfSome result (λ found. (0 < found.1) × (found.1 ≤ length text.now)) }
{
    let number = number_length(slash, text);
    if number > 0 {
        return Some((Kind::Number, number));
    }
    let name = name_length(text);
    if name > 0 {
        return Some((Kind::Name, name));
    }
    symbol_at(text)
}
