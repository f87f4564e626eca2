//! What a list of codes receives, kept in a fixed array.
ghost use Rattle.std.specs.Prelude.{◌≡◌, ◌≤◌, ℤ, List, [], ◌∷◌, ◌++◌, if◌then◌else◌, nat_lt, length, map, refl, take};

use ratio_core::{CodeList, Taken};
use ratio_integer::Integer;
use std::marker::Model;

/// The first 24 codes that it received.
#[derive(Drop)]
pub struct Codes<T: Integer> {
    codes: [T; 24],
    len: usize,
    all: Taken,
}

impl<T: Integer> Model for Codes<T> {
    ghost Value = { List ℤ × List ℤ };

    ghost view = { λ r. (map T.value (take r.len r.codes), r.all.codes) };

    ghost invariant = { λ r. r.len ≤ 24 };
}

impl<T: Integer> Codes<T> {
    /// A record without codes.
    pub fn new() -> Codes<T>
        ensures { result ≡ ([], []) }
    {
        Codes {
            codes: [T::ZERO; 24],
            len: 0,
            all: Taken::none(),
        }
    }

    /// The codes so far.
    pub fn as_slice(&self) -> &[T]
        ensures { map T.value result.now ≡ self.now.0 }
    {
        &self.codes[..self.len]
    }
}

impl<T: Integer> CodeList<T> for Codes<T> {
    ghost taken = { λ r. r.1 };

    // A full list keeps nothing more.
    ghost after = { λ r z. (if nat_lt (length r.0) 24 then r.0 ++ z ∷ [] else r.0, r.1 ++ z ∷ []) };

    fn take(&mut self, t: T) {
        if self.len < 24 {
            self.codes[self.len] = t;
            self.len += 1;
        }
        self.all.note(&t);
    }

    ghost end_law = { λ list z. refl };
}
