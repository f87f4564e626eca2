//! The limit of a line, and how a line is cut: from the bytes after it, into its parts, and a plain line in one pass.
//! The parts have single spaces between them.
ghost use Rattle.std.specs.Prelude.{◌≡◌, ◌<◌, ◌≤◌, ◌∷◌, IfSome, length};
ghost use Rattle.std.specs.List.{slice_split};
ghost use Rattle.ratio_lines.specs.Answers.{is_space};
ghost use Rattle.ratio_lines.specs.Cuts.{IsCut};
ghost use Rattle.ratio_lines.specs.Parts.{are_terms, parts_of};
ghost use Rattle.ratio_lines.specs.PlainLine.{BeginsPlain, EndsPart, IsGraphic};

use crate::operator::{Operator, operator_named};
use memchr::memchr;

/// The most bytes of a line, without its line end.
pub const LONGEST_LINE: usize = 1000;

/// The bytes before the first such byte, and the bytes after it. For
/// example, `a/b/c` at `/` gives `a` and `b/c`.
pub fn cut(bytes: &[u8], byte: u8) -> Option<(&[u8], &[u8])>
    ensures { IsCut byte bytes.now result }
{
    match memchr(byte, bytes) {
        Some(at) => Some((&bytes[..at], &bytes[at + 1..])),
        None => None,
    }
}

/// What comes before and after the first such byte of a text, which is an ASCII byte. Both are texts
/// again, and no byte of them is looked at for that.
pub fn cut_text(text: &str, byte: u8) -> Option<(&str, &str)>
    requires { byte < 128 }
    ensures { IsCut byte text.now result }
{
    match memchr(byte, text.as_bytes()) {
        Some(at) => Some((text.split_at(at).0, text.split_at(at + 1).1)),
        None => None,
    }
}

/// The first part of a text, and the rest after its space, if it has
/// one. For example, `1 + 2` gives `1` and `+ 2`.
pub fn first_part(text: &str) -> (&str, Option<&str>)
    ensures { slice_split is_space text.now ≡ result.0.now ∷ parts_of result.1 }
{
    match cut_text(text, b' ') {
        Some((part, rest)) => (part, Some(rest)),
        None => (text, None),
    }
}

/// The first part of a text, and the rest after its space, as `first_part` gives them. It looks first
/// whether the part is one byte, as most operators are, since a search for the space takes longer.
#[inline(always)]
pub(crate) fn first_short_part(text: &str) -> (&str, Option<&str>)
    ensures { slice_split is_space text.now ≡ result.0.now ∷ parts_of result.1 }
{
    let bytes = text.as_bytes();
    if bytes.len() > 1 && bytes[0] != b' ' && bytes[1] == b' ' {
        return (text.split_at(1).0, Some(text.split_at(2).1));
    }
    first_part(text)
}

/// Whether the parts come in pairs, and none is empty.
pub fn all_are_terms(parts: Option<&str>) -> bool
    ensures { result ≡ are_terms (parts_of parts.entry) }
{
    let mut rest = parts;
    while let Some(text) = rest {
        let (operator, after) = first_short_part(text);
        let Some(after) = after else {
            return false;
        };
        let (operand, after) = first_part(after);
        if operator.is_empty() || operand.is_empty() {
            return false;
        }
        rest = after;
    }
    true
}

/// The parts of a plain line, and the bytes after its line end. A plain line is two operands of graphic
/// ASCII characters and an operator between them.
#[derive(Drop)]
pub struct PlainLine<'a> {
    pub left: &'a str,
    pub operator: Operator,
    pub right: &'a str,
    pub after: &'a [u8],
}

// The end of the part that begins at `from`. The part has only
// graphic characters, and `byte` follows it.
#[inline(always)]
fn part_end(bytes: &[u8], from: usize, byte: u8) -> Option<usize>
    requires { from ≤ length bytes.now }
    ensures { IfSome result (λ end. EndsPart bytes.now from byte end) }
{
    let mut end = from;
    while end < bytes.len() && bytes[end].is_ascii_graphic() {
        end += 1;
    }
    if end < bytes.len() && bytes[end] == byte {
        Some(end)
    } else {
        None
    }
}

// Graphic characters as a text.
#[inline(always)]
fn graphic_text(bytes: &[u8]) -> &str
    requires { IsGraphic bytes.now }
    ensures { result.now ≡ bytes.now }
{
    unsafe { str::from_utf8_unchecked(bytes) }
}

/// The plain line that the bytes begin with. Each byte is read once to find its parts. `None` for a
/// line of other characters, of more parts or of a refused shape.
pub fn plain_line(bytes: &[u8]) -> Option<PlainLine<'_>>
    ensures { IfSome result (λ line. BeginsPlain bytes.now line.left.now line.operator line.right.now line.after.now) }
{
    let first = part_end(bytes, 0, b' ')?;
    let second = part_end(bytes, first + 1, b' ')?;
    let end = part_end(bytes, second + 1, b'\n')?;
    if first == 0 || end == second + 1 || end > LONGEST_LINE {
        return None;
    }
    let operator = operator_named(graphic_text(&bytes[first + 1..second]))?;
    Some(PlainLine {
        left: graphic_text(&bytes[..first]),
        operator,
        right: graphic_text(&bytes[second + 1..end]),
        after: &bytes[end + 1..],
    })
}
