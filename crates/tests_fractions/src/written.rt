//! What a hasher is fed with, kept in a fixed array.
ghost use Rattle.std.specs.Prelude.{◌≡◌, ◌+◌, ◌≤◌, ℕ, List, [], ◌∷◌, ◌++◌, if◌then◌else◌, nat_le, length, take};

use std::hash::{Hash, Hasher};
use std::marker::Model;

/// The bytes written so far, at most 96. It ignores a write that does not fit.
#[derive(Drop)]
pub struct Written {
    bytes: [u8; 96],
    len: usize,
}

impl Model for Written {
    ghost Value = { List ℕ };

    ghost view = { λ r. take r.len r.bytes };

    ghost invariant = { λ r. r.len ≤ 96 };
}

impl Written {
    /// A record without bytes.
    pub fn new() -> Written
        ensures { result ≡ [] }
    {
        Written {
            bytes: [0; 96],
            len: 0,
        }
    }

    /// What `x` feeds a hasher.
    pub fn of<X: Hash>(x: &X) -> Written {
        let mut written = Written::new();
        x.hash(&mut written);
        written
    }

    /// The bytes so far.
    pub fn as_slice(&self) -> &[u8]
        ensures { result.now ≡ self.now }
    {
        &self.bytes[..self.len]
    }

    fn put(&mut self, byte: u8)
        requires { length self.old + 1 ≤ 96 }
        ensures { self.new ≡ self.old ++ byte ∷ [] }
    {
        self.bytes[self.len] = byte;
        self.len += 1;
    }
}

impl Hasher for Written {
    ghost write = { λ xs bs. if nat_le (length xs + length bs) 96 then xs ++ bs else xs };

    ghost finish = { λ _. 0 };

    fn finish(&self) -> u64 {
        0
    }

    fn write(&mut self, bytes: &[u8]) {
        if bytes.len() <= 96 - self.len {
            for byte in bytes {
                self.put(*byte);
            }
        }
    }
}
