//! Whole numbers between two ends: the last one below an end, and the one nearest to 0.
ghost use Rattle.std.specs.Prelude.{◌≡◌, ◌≤ℤ◌, ◌<ℤ◌, ◌+◌, pos};
ghost use Rattle.ratio_approximation.specs.Enclosing.{ChecksLastBelow, IsNearestZero};

use ratio_core::order::dividing::divide_right;
use ratio_core::{Counted, Steps};

/// The greatest whole number below `m/e`, and what `m` is above it times `e`. For 7/3 they are 2 and
/// 1, for 6/3 they are 1 and 3. `None` only if no number of the type is below `m/e`. It takes a division
/// of the right side.
pub(crate) fn last_below<T: Counted>(m: T, e: T, steps: &mut Steps) -> Option<(T, T)>
    requires { pos 0 <ℤ T.value e }
    ensures last { ChecksLastBelow T.value T.lo (T.value m) (T.value e) result }
    ensures left { steps.new.left ≡ steps.old.left }
    ensures right { steps.new.right ≡ steps.old.right + 1 }
{
    let (floor, rest) = divide_right(m, e, steps);
    if rest.is_zero() {
        let _ = floor.held();
        let last = floor.try_minus(T::ONE)?;
        Some((last, e))
    } else {
        Some((floor, rest))
    }
}

/// The whole number nearest to 0 from `first` to `last`.
pub(crate) fn nearest_zero<T: Counted>(first: T, last: T) -> T
    requires { T.value first ≤ℤ T.value last }
    ensures { IsNearestZero (T.value first) (T.value last) (T.value result) }
{
    if T::ZERO < first {
        first
    } else if last < T::ZERO {
        last
    } else {
        T::ZERO
    }
}
