//! The codes by which a fraction is hashed, kept in a list.
ghost use Rattle.std.specs.Prelude.{ℤ, List, [], ◌≡◌, ◌∷◌, ◌++◌, refl};

use ratio_core::{CodeList, Taken};
use ratio_integer::Integer;
use std::alloc::Global;
use std::marker::Model;

/// All codes that it took, if there was memory for each.
#[derive(Drop)]
pub struct ListOfCodes<T: Integer> {
    codes: Vec<T>,
    is_whole: bool,
    all: Taken,
}

impl<T: Integer> Model for ListOfCodes<T> {
    ghost Value = { List ℤ };

    ghost view = { λ r. r.all.codes };
}

impl<T: Integer> ListOfCodes<T> {
    /// No code yet.
    pub fn new(alloc: Global) -> ListOfCodes<T>
        ensures { result ≡ [] }
    {
        ListOfCodes {
            codes: Vec::new(alloc),
            is_whole: true,
            all: Taken::none(),
        }
    }

    /// The codes, or `None` if there was no memory for one.
    pub fn codes(&self) -> Option<&[T]> {
        if self.is_whole {
            Some(&self.codes)
        } else {
            None
        }
    }
}

impl<T: Integer> CodeList<T> for ListOfCodes<T> {
    ghost taken = { λ r. r };

    ghost after = { λ r z. r ++ z ∷ [] };

    fn take(&mut self, t: T) {
        if self.codes.push(t).is_err() {
            self.is_whole = false;
        }
        self.all.note(&t);
    }

    ghost end_law = { λ list z. refl };
}
