//! Printing fractions as texts, one after another into one piece of memory.
ghost use Rattle.std.specs.Prelude.{◌≡◌, ◌+◌, ◌*◌, ◌<◌, ◌≤◌, ◌++◌, ℕ, List, drop, length, take, MatchBool};
ghost use Rattle.ratio_core.specs.Printing.{base_ten_room};
ghost use Rattle.ratio_c.specs.Codes.{code_answered};
ghost use Rattle.ratio_c.specs.Texts.{IsTextPut, Prints, ShowsFields};

use crate::code::{ANSWERED, ZERO_DENOMINATOR};
use crate::crossing::OneFraction;
use crate::each::{BAD_LENGTH, DONE};
use crate::reading::Span;
use ratio_core::text::base_ten_text;
use ratio_integer::Integer;

/// The place of an item's text. If there is none, the code says why, and the span is empty.
#[repr(C)]
#[derive(Drop)]
pub struct Text {
    pub code: u32,
    pub span: Span,
}

/// A way to print an item.
pub trait Printer<F> {
    // The codes and the texts that are right for an item.
    ghost shows: { F → ℕ → List ℕ → Type 0 };

    // The length of the longest text.
    ghost longest: { ℕ };

    /// Writes the text of an item at a place.
    fn put(&self, x: &F, texts: &mut [u8], at: usize) -> Text
        requires { at + longest ≤ length texts.old }
        ensures { IsTextPut (shows x.now) longest at texts.old texts.new result };
}

/// Writes the texts of items one after another, and the place of each. If there is not one answer
/// for each item, or not `room` bytes for each text, it returns `BAD_LENGTH` and writes nothing.
#[inline(always)]
pub fn print<P: Printer<F>, F>(
    printer: &P,
    asked: &[F],
    room: usize,
    texts: &mut [u8],
    answers: &mut [Text],
) -> u32
    requires { P.longest ≤ room }
    ensures { Prints P.shows room asked.now texts.old texts.new answers.old answers.new result }
{
    if asked.len() != answers.len() || !has_room(asked.len(), room, texts.len()) {
        return BAD_LENGTH;
    }
    let mut at = 0;
    for i in 0..asked.len() {
        let text = printer.put(&asked[i], texts, at);
        at = text.span.end;
        answers[i] = text;
    }
    DONE
}

/// Whether `len` bytes are enough for `count` texts of `room` bytes each.
fn has_room(count: usize, room: usize, len: usize) -> bool
    ensures { MatchBool result (count * room ≤ len) (len < count * room) }
{
    match count.checked_mul(room) {
        Some(all) => all <= len,
        None => false,
    }
}

/// Prints the two numbers of a fraction, `N/D`, or `N` if D is 1.
#[derive(Clone, Copy)]
pub struct Fields;

impl<F: OneFraction> Printer<F> for Fields {
    ghost shows = { λ x. ShowsFields F.Inside.BITS (F.fraction x) };

    ghost longest = { base_ten_room F.Inside.lo F.Inside.hi };

    fn put(&self, x: &F, texts: &mut [u8], at: usize) -> Text {
        let (n, d) = x.fraction();
        if d.is_zero() {
            return no_text(ZERO_DENOMINATOR, at);
        }
        let text = base_ten_text(n, d);
        put_bytes(text.as_str().as_bytes(), texts, at)
    }
}

/// Writes the bytes of a text at a place.
pub fn put_bytes(bytes: &[u8], texts: &mut [u8], at: usize) -> Text
    requires { at + length bytes.now ≤ length texts.old }
    ensures code { result.code ≡ code_answered }
    ensures start { result.span.start ≡ at }
    ensures end { result.span.end ≡ at + length bytes.now }
    ensures written { texts.new ≡ take at texts.old ++ (bytes.now ++ drop result.span.end texts.old) }
{
    let end = at + bytes.len();
    texts[at..end].copy_from_slice(bytes);
    let span = Span { start: at, end };
    Text {
        code: ANSWERED,
        span,
    }
}

/// An empty span at a place, with the code that says why there is no text.
pub fn no_text(code: u32, at: usize) -> Text
    ensures code { result.code ≡ code }
    ensures start { result.span.start ≡ at }
    ensures end { result.span.end ≡ at }
{
    let span = Span { start: at, end: at };
    Text { code, span }
}
