//! A number with a slash in place of its vulgar fraction: `1 1/2` for `1½`.
ghost use Rattle.std.specs.Prelude.{◌≡◌, ◌≤◌, length, IfOk, MatchOption};
ghost use Rattle.ratio_expressions.specs.Vulgar.{ascii_length, space_behind_digit, with_slash};

use crate::vulgar::vulgar_at;
use std::alloc::{AllocError, Global};

/// The text with a slash in place of its vulgar fraction, or `None` if it has none.
pub(crate) fn spelled(alloc: Global, text: &[u8]) -> Result<Option<Vec<u8>>, AllocError>
    ensures { IfOk result (λ r. MatchOption r (with_slash text.now ≡ text.now) (λ bytes. bytes.items ≡ with_slash text.now)) }
{
    let at = ascii_bytes(text);
    match vulgar_at(&text[at..]) {
        Some((fraction, long)) => {
            let mut bytes = Vec::from_slice(alloc, &text[..at])?;
            bytes.extend_from_slice(gap(text, at))?;
            bytes.extend_from_slice(fraction)?;
            bytes.extend_from_slice(&text[at + long..])?;
            Ok(Some(bytes))
        }
        None => Ok(None),
    }
}

// How many bytes are before the first character beyond ASCII.
fn ascii_bytes(text: &[u8]) -> usize
    ensures is { result ≡ ascii_length text.now }
    ensures fits { result ≤ length text.now }
{
    text.iter().take_while(|byte| byte.is_ascii()).count()
}

// A space, if a digit is before the place.
fn gap(text: &[u8], at: usize) -> &'static [u8]
    requires { at ≤ length text.now }
    ensures { result.now ≡ space_behind_digit text.now at }
{
    if at > 0 && text[at - 1].is_ascii_digit() {
        b" "
    } else {
        b""
    }
}
