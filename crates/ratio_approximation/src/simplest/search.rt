//! The search for the simplest fraction, between two neighbours around both ends.
ghost use Rattle.std.specs.Prelude.{◌≡◌, ◌<ℤ◌, ◌+ℤ◌, ◌+◌, ℕ, pos, min, unsigned_abs};
ghost use Rattle.ratio_core.specs.ContinuedFraction.{IsWithinBits};
ghost use Rattle.ratio_approximation.specs.Enclosing.{Encloses};
ghost use Rattle.ratio_approximation.specs.SearchCount.{IsSearchCount};
ghost use Rattle.ratio_approximation.specs.Simplest.{ChecksSimplest};

use crate::simplest::side::{Side, beyond, stepped, times_within};
use ratio_core::counted::both_held;
use ratio_core::order::dividing::divide_left;
use ratio_core::{Counted, Steps};

/// The simplest fraction strictly between `n/d` and `m/e`, from two neighbours around both. One of them
/// moves towards the other as long as it does not pass its own end, and then the other one moves. The
/// first step to a place between both ends leads to the simplest fraction.
///
/// It divides as often as the search between `left.own / (left.own + right.other)` and
/// `left.other / (left.other + right.own)`, without the first divisions of that search. For 1/3 and 1/2, with the
/// neighbours 0/1 and 1/1, these two are 1/3 and 1/2 again.
pub(crate) fn search<T: Counted>(
    n: T,
    d: T,
    m: T,
    e: T,
    left: Side<T>,
    right: Side<T>,
    steps: &mut Steps,
) -> Option<(T, T)>
    requires low { pos 0 <ℤ T.value d }
    requires high { pos 0 <ℤ T.value e }
    requires enclosed { Encloses (T.value n) (T.value d) (T.value m) (T.value e)
        (T.value left.numer) (T.value left.denom) (T.value left.own) (T.value left.other)
        (T.value right.numer) (T.value right.denom) (T.value right.own) (T.value right.other) }
    ensures simplest { ChecksSimplest T.value T.lo T.hi (T.value n) (T.value d) (T.value m) (T.value e) result }
    ensures steps { (k : ℕ) × (l : ℕ) × (steps.new.left ≡ steps.old.left + k) × (steps.new.right ≡ steps.old.right + l)
        × IsSearchCount (T.value left.own) (T.value left.own +ℤ T.value right.other)
        (T.value left.other) (T.value left.other +ℤ T.value right.own) (k + 1) (l + 1) }
    ensures left { (k : ℕ) × (steps.new.left ≡ steps.old.left + k) × IsWithinBits (min (unsigned_abs (T.value d)) (unsigned_abs (T.value e))) (k + 1) }
    ensures right { (k : ℕ) × (steps.new.right ≡ steps.old.right + k) × IsWithinBits (min (unsigned_abs (T.value d)) (unsigned_abs (T.value e))) (k + 1) }
{
    both_held(n, d);
    both_held(m, e);
    let mut moving = left;
    let mut fixed = right;
    if left.own < right.other {
        moving = right;
        fixed = left;
    }
    'rounds: loop {
        let (whole, rest) = divide_left(moving.own, fixed.other, steps);
        if fixed.own.is_zero() {
            return beyond(moving, fixed, whole);
        }
        let room = times_within(moving.other, fixed.own, steps);
        if whole < room {
            return beyond(moving, fixed, whole);
        }
        if room < whole {
            return None;
        }
        let next = stepped(moving, fixed, whole, rest);
        moving = fixed;
        fixed = next;
    }
}
