//! The nearest fraction whose denominator is at most a bound.
mod neighbour;

ghost use Rattle.std.specs.Prelude.{◌≡◌, ◌<ℤ◌, ◌+◌, ℕ, pos, unsigned_abs};
ghost use Rattle.ratio_integer.specs.Fraction.{IsLowestTerms};
ghost use Rattle.ratio_core.specs.ContinuedFraction.{IsWithinBits};
ghost use Rattle.ratio_approximation.specs.Convergents.{IsConvergentCount};
ghost use Rattle.ratio_approximation.specs.Nearest.{IsNearest};

use crate::nearest::neighbour::{Neighbour, first_of, moved, steps_towards};
use ratio_core::counted::both_held;
use ratio_core::order::dividing::divide_left;
use ratio_core::{Counted, Steps};
use ratio_integer::Integer;

/// The nearest fraction to `n/d` with a denominator from 1 to `most`, in lowest terms.
/// For 355/113 and 10 it is 22/7. Of two that are as near, it is the one with the smaller
/// denominator, and of two whole numbers the smaller one: for 1/2 and 1 it is 0/1.
pub fn nearest<T: Integer>(n: T, d: T, most: T) -> (T, T)
    requires positive { pos 0 <ℤ T.value d }
    requires room { pos 0 <ℤ T.value most }
    ensures nearest { IsNearest (T.value n) (T.value d) (T.value most) (T.value result.0) (T.value result.1) }
    ensures lowest { IsLowestTerms (T.value result.0) (T.value result.1) }
{
    nearest_counted(n, d, most, &mut Steps::new())
}

/// `nearest` with its divisions counted, by Euclid's algorithm. The left side divides the rests of `n/d`, and the
/// right side divides the room below `most`.
///
/// The right side divides once for each convergent of `n/d` with a denominator of at most `most`, except for `n/d` itself.
/// The left side divides once more. For example, the convergents before 355/113 are 3/1 and 22/7. If `most` is 50, the
/// left side divides three times, and the right side twice. Each side divides at most twice for each binary digit of `d`.
pub fn nearest_counted<T: Counted>(n: T, d: T, most: T, steps: &mut Steps) -> (T, T)
    requires positive { pos 0 <ℤ T.value d }
    requires room { pos 0 <ℤ T.value most }
    ensures nearest { IsNearest (T.value n) (T.value d) (T.value most) (T.value result.0) (T.value result.1) }
    ensures lowest { IsLowestTerms (T.value result.0) (T.value result.1) }
    ensures steps { (k : ℕ) × (steps.new.left ≡ steps.old.left + (k + 1)) × (steps.new.right ≡ steps.old.right + k)
        × IsConvergentCount (T.value n) (T.value d) (T.value most) k }
    ensures left { (k : ℕ) × (steps.new.left ≡ steps.old.left + k) × IsWithinBits (unsigned_abs (T.value d)) k }
    ensures right { (k : ℕ) × (steps.new.right ≡ steps.old.right + k) × IsWithinBits (unsigned_abs (T.value d)) k }
{
    both_held(n, d);
    let _ = most.held();
    let (floor, rest) = divide_left(n, d, steps);
    if rest.is_zero() {
        return (floor, T::ONE);
    }
    let mut fixed = Neighbour {
        numer: floor,
        denom: T::ONE,
        gap: rest,
    };
    let mut moving = Neighbour {
        numer: floor.plus(T::ONE),
        denom: T::ONE,
        gap: d.minus(rest),
    };
    'steps: loop {
        let (whole, room) = steps_towards(moving, fixed, most, steps);
        if room < whole {
            let last = moved(moving, fixed, room);
            let first = first_of(last, fixed);
            return (first.numer, first.denom);
        }
        let next = moved(moving, fixed, whole);
        if next.gap.is_zero() {
            return (next.numer, next.denom);
        }
        moving = fixed;
        fixed = next;
    }
}
