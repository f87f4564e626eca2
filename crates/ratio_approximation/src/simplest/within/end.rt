//! An `End` of a range of fractions: a bound, or the type's least or greatest number in place of an open one.
ghost use Rattle.std.specs.Prelude.{◌≡◌};
ghost use Rattle.ratio_approximation.specs.Bounds.{numbers_in};
ghost use Rattle.ratio_approximation.specs.EndChoice.{end_bound, high_bound, low_bound};

use ratio_integer::Integer;
use std::ops::Bound;

/// The fraction `numer/denom`, and whether it belongs to the range itself.
#[derive(Drop)]
pub(crate) struct End<T: Copy + Integer> {
    pub(crate) numer: T,
    pub(crate) denom: T,
    pub(crate) included: bool,
}

/// The low end. If the bound is open, it is the least number of the type, included.
pub(crate) fn low_end<T: Integer>(bound: Bound<(T, T)>) -> End<T>
    ensures { end_bound result.included (T.value result.numer) (T.value result.denom) ≡ low_bound T.lo (numbers_in T.value bound) }
{
    match bound {
        Bound::Included((numer, denom)) => End {
            numer,
            denom,
            included: true,
        },
        Bound::Excluded((numer, denom)) => End {
            numer,
            denom,
            included: false,
        },
        Bound::Unbounded => End {
            numer: T::MIN,
            denom: T::ONE,
            included: true,
        },
    }
}

/// The high end. If the bound is open, it is the greatest number of the type, included.
pub(crate) fn high_end<T: Integer>(bound: Bound<(T, T)>) -> End<T>
    ensures { end_bound result.included (T.value result.numer) (T.value result.denom) ≡ high_bound T.hi (numbers_in T.value bound) }
{
    match bound {
        Bound::Included((numer, denom)) => End {
            numer,
            denom,
            included: true,
        },
        Bound::Excluded((numer, denom)) => End {
            numer,
            denom,
            included: false,
        },
        Bound::Unbounded => End {
            numer: T::MAX,
            denom: T::ONE,
            included: true,
        },
    }
}
