//! A `Side`: in the search for the simplest fraction, one on one side of both ends, the steps that bring two of them nearer, and the
//! fraction beyond these steps.
ghost use Rattle.std.specs.Prelude.{◌≡◌, ◌≤ℤ◌, ◌<ℤ◌, ◌+ℤ◌, ◌-ℤ◌, ◌*ℤ◌, ◌+◌, pos};
ghost use Rattle.ratio_approximation.specs.Enclosing.{ChecksStep, IsOnOneSide, IsRoom};
ghost use Rattle.ratio_approximation.specs.Moving.{CanMove};

use ratio_core::order::dividing::divide_right;
use ratio_core::{Counted, Steps};
use std::alloc::AllocError;

/// The fraction `numer/denom`, and its distances from both ends. `own` is its distance from the end on
/// its side, times `denom` and the denominator of that end; `other` is the same for the far end. For
/// 0/1 between 1/3 and 1/2 they are 1 and 1.
#[derive(Copy)]
pub(crate) struct Side<T: Counted> {
    pub(crate) numer: T,
    pub(crate) denom: T,
    pub(crate) own: T,
    pub(crate) other: T,
}

impl<T: Counted> Clone for Side<T> {
    ghost use Rattle.std.specs.Prelude.{⊤};

    ghost is_clone = { λ x y. y ≡ x };

    ghost is_infallible = { λ _. ⊤ };

    fn clone(&self) -> Result<Side<T>, AllocError> {
        Ok(*self)
    }
}

/// How often `gap` may be taken from `room` so that something is left: 2 times 3 from 7, and 2 times 3
/// from 9. It takes a division of the right side.
pub(crate) fn times_within<T: Counted>(room: T, gap: T, steps: &mut Steps) -> T
    requires room { pos 0 <ℤ T.value room }
    requires gap { pos 0 <ℤ T.value gap }
    ensures room { IsRoom (T.value room) (T.value gap) (T.value result) }
    ensures left { steps.new.left ≡ steps.old.left }
    ensures right { steps.new.right ≡ steps.old.right + 1 }
{
    let (times, rest) = divide_right(room, gap, steps);
    let _ = room.held();
    let _ = times.held();
    if rest.is_zero() {
        times.minus(T::ONE)
    } else {
        times
    }
}

/// The side `moving` after `times` steps towards `fixed`. Each step adds the numbers of `fixed`. `rest`
/// is what is left to its own end.
pub(crate) fn stepped<T: Counted>(moving: Side<T>, fixed: Side<T>, times: T, rest: T) -> Side<T>
    requires { CanMove T.lo T.hi (T.value moving.numer) (T.value moving.denom) (T.value moving.other)
        (T.value fixed.numer) (T.value fixed.denom) (T.value fixed.own) (T.value times) }
    ensures numer { T.value result.numer ≡ T.value moving.numer +ℤ T.value fixed.numer *ℤ T.value times }
    ensures denom { T.value result.denom ≡ T.value moving.denom +ℤ T.value fixed.denom *ℤ T.value times }
    ensures own { T.value result.own ≡ T.value rest }
    ensures other { T.value result.other ≡ T.value moving.other -ℤ T.value fixed.own *ℤ T.value times }
{
    Side {
        numer: moving.numer.plus(fixed.numer.times(times)),
        denom: moving.denom.plus(fixed.denom.times(times)),
        own: rest,
        other: moving.other.minus(fixed.own.times(times)),
    }
}

/// The fraction one step after `times` steps from `moving` towards `fixed`, or `None` if one of its
/// numbers does not fit.
pub(crate) fn beyond<T: Counted>(moving: Side<T>, fixed: Side<T>, times: T) -> Option<(T, T)>
    requires side { IsOnOneSide (T.value moving.numer) (T.value fixed.numer) }
    requires moving { pos 0 <ℤ T.value moving.denom }
    requires fixed { pos 0 <ℤ T.value fixed.denom }
    requires times { pos 0 ≤ℤ T.value times }
    ensures { ChecksStep T.value T.lo T.hi (T.value moving.numer) (T.value moving.denom)
        (T.value fixed.numer) (T.value fixed.denom) (T.value times +ℤ pos 1) result }
{
    let more = times.try_plus(T::ONE)?;
    let numer = moving.numer.try_plus(fixed.numer.try_times(more)?)?;
    let denom = moving.denom.try_plus(fixed.denom.try_times(more)?)?;
    Some((numer, denom))
}
