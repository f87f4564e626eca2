//! The simpler one of what was found within bounds and of an included end.
ghost use Rattle.std.specs.Prelude.{◌<ℤ◌, ◌<◌, ◌≤◌, pos, unsigned_abs};
ghost use Rattle.ratio_integer.specs.Comparison.{Tells};
ghost use Rattle.ratio_approximation.specs.EndChoice.{ChecksWithEnd, IsAsSimple, IsFirstOfTwo};

use crate::simplest::within::end::End;
use ratio_core::sign::{have_unlike_signs, is_below_zero};
use ratio_integer::{Integer, both_held, lowest_terms};

/// What was found, or an included end if it is simpler or nothing was found.
pub(crate) fn with_end<T: Integer>(found: Option<(T, T)>, end: &End<T>) -> Option<(T, T)>
    requires { pos 0 <ℤ T.value end.now.denom }
    ensures { ChecksWithEnd T.value T.lo T.hi end.now.included found (T.value end.now.numer) (T.value end.now.denom) result }
{
    if end.included {
        Some(simpler_of(found, end.numer, end.denom))
    } else {
        found
    }
}

/// The simpler one of what was found and of `n/d` in lowest terms.
fn simpler_of<T: Integer>(found: Option<(T, T)>, n: T, d: T) -> (T, T)
    requires { pos 0 <ℤ T.value d }
    ensures { IsFirstOfTwo T.value T.lo T.hi found (T.value n) (T.value d) (T.value result.0) (T.value result.1) }
{
    let (numer, denom) = lowest_terms(n, d);
    match found {
        None => (numer, denom),
        Some(other) => {
            if is_simpler(numer, denom, other.0, other.1) {
                (numer, denom)
            } else {
                other
            }
        }
    }
}

/// Whether `p/q` is simpler than `a/b`: it has a smaller denominator, or the same one and a numerator nearer to 0.
fn is_simpler<T: Integer>(p: T, q: T, a: T, b: T) -> bool
    ensures { Tells result (IsAsSimple (T.value p) (T.value q) (T.value a) (T.value b)) (IsAsSimple (T.value a) (T.value b) (T.value p) (T.value q)) }
{
    if q == b { is_nearer(p, a) } else { q < b }
}

/// Whether `p` is nearer to 0 than `a`.
fn is_nearer<T: Integer>(p: T, a: T) -> bool
    ensures { Tells result (unsigned_abs (T.value p) < unsigned_abs (T.value a)) (unsigned_abs (T.value a) ≤ unsigned_abs (T.value p)) }
{
    both_held(p, a);
    if have_unlike_signs(p, a) {
        let sum = p.plus(a);
        if is_below_zero(p) {
            T::ZERO < sum
        } else {
            sum < T::ZERO
        }
    } else if is_below_zero(p) {
        a < p
    } else {
        p < a
    }
}
