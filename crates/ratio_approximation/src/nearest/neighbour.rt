//! A `Neighbour`: in the search for the nearest fraction, one close to it, the steps that bring two of them nearer, and which of two comes
//! first.
ghost use Rattle.std.specs.Prelude.{◌≡◌, ◌⊎◌, ◌<ℤ◌, ◌+ℤ◌, ◌-ℤ◌, ◌*ℤ◌, ◌+◌, pos, unsigned_abs};
ghost use Rattle.ratio_integer.specs.Division.{IsFlooredQuotient};
ghost use Rattle.ratio_integer.specs.Range.{IsHeld};
ghost use Rattle.ratio_approximation.specs.Nearest.{ComesFirst};
ghost use Rattle.ratio_approximation.specs.Moving.{CanCompare, CanMove};

use ratio_core::order::dividing::{divide_left, divide_right};
use ratio_core::{Counted, Steps};
use std::alloc::AllocError;

/// The fraction `numer/denom`, and its distance from the fraction `n/d` that is sought: `gap` is this
/// distance times `d` and `denom`. For 7/5 and 4/3 the distance is 1/15, so `gap` is 1.
#[derive(Copy)]
pub(crate) struct Neighbour<T: Counted> {
    pub(crate) numer: T,
    pub(crate) denom: T,
    pub(crate) gap: T,
}

impl<T: Counted> Clone for Neighbour<T> {
    ghost use Rattle.std.specs.Prelude.{⊤};

    ghost is_clone = { λ x y. y ≡ x };

    ghost is_infallible = { λ _. ⊤ };

    fn clone(&self) -> Result<Neighbour<T>, AllocError> {
        Ok(*self)
    }
}

/// How many steps towards `fixed` the gap of `moving` has room for, and how many the bound `most` of the
/// denominators has room for. The first takes a division of the left side, the second one of the right side.
pub(crate) fn steps_towards<T: Counted>(
    moving: Neighbour<T>,
    fixed: Neighbour<T>,
    most: T,
    steps: &mut Steps,
) -> (T, T)
    requires gap { pos 0 <ℤ T.value fixed.gap }
    requires denom { pos 0 <ℤ T.value fixed.denom }
    requires room { IsHeld T.lo T.hi (T.value most -ℤ T.value moving.denom) }
    ensures whole { IsFlooredQuotient (T.value moving.gap) (T.value fixed.gap) (T.value result.0) }
    ensures room { IsFlooredQuotient (T.value most -ℤ T.value moving.denom) (T.value fixed.denom) (T.value result.1) }
    ensures left { steps.new.left ≡ steps.old.left + 1 }
    ensures right { steps.new.right ≡ steps.old.right + 1 }
{
    let (whole, _) = divide_left(moving.gap, fixed.gap, steps);
    let (room, _) = divide_right(most.minus(moving.denom), fixed.denom, steps);
    (whole, room)
}

/// The neighbour `moving` after `times` steps towards `fixed`. Each step adds
/// the numbers of `fixed`: two steps from 1/1 towards 0/1 lead to 1/3.
pub(crate) fn moved<T: Counted>(moving: Neighbour<T>, fixed: Neighbour<T>, times: T) -> Neighbour<T>
    requires { CanMove T.lo T.hi (T.value moving.numer) (T.value moving.denom) (T.value moving.gap)
        (T.value fixed.numer) (T.value fixed.denom) (T.value fixed.gap) (T.value times) }
    ensures numer { T.value result.numer ≡ T.value moving.numer +ℤ T.value fixed.numer *ℤ T.value times }
    ensures denom { T.value result.denom ≡ T.value moving.denom +ℤ T.value fixed.denom *ℤ T.value times }
    ensures gap { T.value result.gap ≡ T.value moving.gap -ℤ T.value fixed.gap *ℤ T.value times }
{
    Neighbour {
        numer: moving.numer.plus(fixed.numer.times(times)),
        denom: moving.denom.plus(fixed.denom.times(times)),
        gap: moving.gap.minus(fixed.gap.times(times)),
    }
}

/// The nearer of two fractions. If they are as near, it is the one with the
/// smaller denominator, and then the one with the smaller numerator.
pub(crate) fn first_of<T: Counted>(left: Neighbour<T>, right: Neighbour<T>) -> Neighbour<T>
    requires { CanCompare T.lo T.hi (T.value left.gap) (T.value left.denom) (T.value right.gap) (T.value right.denom) }
    ensures { ((result ≡ left) × ComesFirst (unsigned_abs (T.value left.gap)) (T.value left.numer) (T.value left.denom)
        (unsigned_abs (T.value right.gap)) (T.value right.numer) (T.value right.denom))
        ⊎ ((result ≡ right) × ComesFirst (unsigned_abs (T.value right.gap)) (T.value right.numer) (T.value right.denom)
        (unsigned_abs (T.value left.gap)) (T.value left.numer) (T.value left.denom)) }
{
    let left_far = left.gap.times(right.denom);
    let right_far = right.gap.times(left.denom);
    let order = left_far
        .cmp(&right_far)
        .then(left.denom.cmp(&right.denom))
        .then(left.numer.cmp(&right.numer));
    if order.is_le() { left } else { right }
}
