//! Texts with escapes, as a row writes them.
use rows::answer::Answer;
use std::alloc::{AllocError, Global};
use std::str;

/// The bytes of a text with escapes.
pub fn bytes_of(alloc: Global, text: &str) -> Result<Option<Vec<u8>>, AllocError> {
    let mut parts = text.split('\\');
    let mut bytes = Vec::new(alloc);
    if let Some(first) = parts.next() {
        bytes.extend_from_slice(first.as_bytes())?;
    }
    for part in parts {
        let Some((byte, rest)) = escape(part) else {
            return Ok(None);
        };
        bytes.push(byte)?;
        bytes.extend_from_slice(rest.as_bytes())?;
    }
    Ok(Some(bytes))
}

// The byte of an escape without its backslash, and what is behind it.
fn escape(part: &str) -> Option<(u8, &str)> {
    if let Some(rest) = part.strip_prefix('n') {
        return Some((b'\n', rest));
    }
    if let Some(rest) = part.strip_prefix('t') {
        return Some((b'\t', rest));
    }
    Some((0, part.strip_prefix('0')?))
}

/// The text in quotes, with escapes.
pub fn quoted(alloc: Global, bytes: &[u8]) -> Result<Answer<i64>, AllocError> {
    match str::from_utf8(bytes) {
        Ok(text) => Ok(Answer::Text(format!(in alloc; "{text:?}")?)),
        Err(_) => Ok(Answer::BadRow),
    }
}
