//! The codes by which a fraction is hashed: handed to a `CodeList` while the steps are counted, and kept for contracts in a `Taken`.
ghost use Rattle.std.specs.Prelude.{◌≡◌, ◌≢◌, ◌+◌, ◌++◌, ◌∷◌, [], fold, List, pos, ℕ, ℤ};
ghost use Rattle.std.specs.Borrow.{ftrue};
ghost use Rattle.ratio_core.specs.ContinuedFraction.{AreCodesCounted, IsCodeCount, IsCodesOf, TellsApart};

use crate::counted::{Counted, both_held};
use crate::order::dividing::{divide_left, is_above_max};
use crate::steps::Steps;
use ratio_integer::Integer;
use std::marker::Model;

/// A list that takes integers at its end: an array that keeps them, or a hasher that is fed with them.
/// Contracts see all numbers that it has taken. A list that does not keep its numbers has a `Taken` for them.
pub trait CodeList<T: Counted> {
    // The numbers taken so far.
    ghost taken: { Self → List ℤ };

    // The list after it took a value of this number.
    ghost after: { Self → ℤ → Self };

    /// Takes `t` at the end.
    fn take(&mut self, t: T)
        ensures { self.new ≡ after self.old (T.value t) };

    ghost end_law: { (list : Self) (z : ℤ) → taken (after list z) ≡ taken list ++ z ∷ [] };
}

/// The numbers of all codes that a list has taken, in their order. It takes no memory. A list that keeps no
/// codes, such as one over a hasher, has a `Taken` for them.
#[derive(Drop)]
pub struct Taken {
    pub ghost codes: { List ℤ },
}

const _: () = prove!(size_of::<Taken>() == 0);

impl Model for Taken {
    ghost also_owns = { λ _. ftrue };
}

impl Taken {
    /// No code yet.
    pub fn none() -> Taken
        ensures { result ≡ record { codes = [] } }
    {
        Taken {}
    }

    /// Adds one code at the end.
    pub fn note<T: Integer>(&mut self, _t: &T)
        ensures { self.new ≡ record { codes = self.old.codes ++ T.value _t.now ∷ [] } }
    {}
}

/// Hands the codes of `n/d` to `list`: the quotients of its continued fraction, and then 0. The codes of 7/3
/// are 2, 3 and 0. The quotient `hi + 1`, which does not fit the type, is written as the least number, twice.
///
/// Fractions of the same value have the same codes, reduced or not, with a denominator of either sign.
/// Fractions of different values have different codes.
pub fn hash_counted<T: Counted, L: CodeList<T>>(n: T, d: T, list: &mut L, steps: &mut Steps)
    requires { T.value d ≢ pos 0 }
    ensures codes { (codes : List ℤ) × IsCodesOf T.lo T.hi (T.value n) (T.value d) codes
        × TellsApart T.lo T.hi (T.value n) (T.value d) codes
        × (L.taken list.new ≡ L.taken list.old ++ codes) × (list.new ≡ fold L.after list.old codes) }
    ensures left { (k : ℕ) × (steps.new.left ≡ steps.old.left + k)
        × IsCodeCount T.hi (T.value n) (T.value d) k }
    ensures right { steps.new.right ≡ steps.old.right }
{
    both_held(n, d);
    take_codes(n, d, list, steps);
}

/// Euclid's algorithm: hands each quotient to `list`.
fn take_codes<T: Counted, L: CodeList<T>>(n: T, d: T, list: &mut L, steps: &mut Steps)
    requires { T.value d ≢ pos 0 }
    ensures taken { (codes : List ℤ) × (k : ℕ)
        × AreCodesCounted T.lo T.hi (T.value n) (T.value d) codes k
        × (list.new ≡ fold L.after list.old codes) × (steps.new.left ≡ steps.old.left + k) }
    ensures right { steps.new.right ≡ steps.old.right }
{
    let mut numer = n;
    let mut denom = d;
    'rounds: while !is_above_max(numer, denom) {
        // A number over 1 is its own quotient: a step without a division.
        if denom.is_one() {
            steps.tick_left();
            list.take(numer);
            list.take(T::ZERO);
            return;
        }
        let (quotient, rest) = divide_left(numer, denom, steps);
        list.take(quotient);
        if rest.is_zero() {
            list.take(T::ZERO);
            return;
        }
        numer = denom;
        denom = rest;
    }
    // The value is `hi + 1`.
    take_both(list, T::MIN, T::MIN);
    list.take(T::ZERO);
}

/// Hands both to `list`, in this order.
fn take_both<T: Counted, L: CodeList<T>>(list: &mut L, first: T, second: T)
    ensures { list.new ≡ L.after (L.after list.old (T.value first)) (T.value second) }
{
    list.take(first);
    list.take(second);
}
