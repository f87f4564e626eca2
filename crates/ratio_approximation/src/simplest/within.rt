//! The simplest fraction within two bounds. Each is included, excluded or open.
mod choice;
mod end;

ghost use Rattle.std.specs.Prelude.{◌≡◌, ◌<ℤ◌, pos};
ghost use Rattle.ratio_approximation.specs.Bounds.{HasPositiveDenominator, numbers_in};
ghost use Rattle.ratio_approximation.specs.EndChoice.{ChecksFirstHeld, end_bound};
ghost use Rattle.ratio_approximation.specs.SimplestWithin.{ChecksSimplestWithin};

use crate::simplest::simplest_between;
use crate::simplest::within::choice::with_end;
use crate::simplest::within::end::{End, high_end, low_end};
use ratio_core::Steps;
use ratio_core::order::cross_order;
use ratio_integer::{Integer, both_held, lowest_terms};
use std::cmp::Ordering;
use std::ops::Bound;

/// Of all fractions within the bounds, the one with the smallest denominator. Of these it is the one whose
/// numerator is nearest to 0. A bound is a numerator and a positive denominator, and an included one may be the
/// result itself. From 1/3 to 1/2, both included, it is 1/2, and above 5/2 without an upper bound it is 3/1.
/// It is in lowest terms. `None` exactly if the type has no fraction within the bounds, as above 127/1 over `i8`.
pub fn simplest_within<T: Integer>(low: Bound<(T, T)>, high: Bound<(T, T)>) -> Option<(T, T)>
    requires low { HasPositiveDenominator (numbers_in T.value low) }
    requires high { HasPositiveDenominator (numbers_in T.value high) }
    ensures { ChecksSimplestWithin T.value T.lo T.hi (numbers_in T.value low) (numbers_in T.value high) result }
{
    let (numer, denom) = within_ends(&low_end(low), &high_end(high))?;
    both_held(numer, denom);
    Some((numer, denom))
}

// The simplest fraction within two ends. If the low one is below the high one, it is the simplest fraction strictly
// between, or an included end that is simpler.
fn within_ends<T: Integer>(low: &End<T>, high: &End<T>) -> Option<(T, T)>
    requires low { pos 0 <ℤ T.value low.now.denom }
    requires high { pos 0 <ℤ T.value high.now.denom }
    ensures { ChecksFirstHeld T.value T.lo T.hi
        (end_bound low.now.included (T.value low.now.numer) (T.value low.now.denom))
        (end_bound high.now.included (T.value high.now.numer) (T.value high.now.denom)) result }
{
    let order = cross_order(
        low.numer,
        low.denom,
        high.numer,
        high.denom,
        &mut Steps::new(),
    );
    match order {
        Ordering::Less => {
            let between = simplest_between(low.numer, low.denom, high.numer, high.denom);
            let from_low = with_end(between, low);
            with_end(from_low, high)
        }
        Ordering::Equal => {
            if low.included && high.included {
                Some(lowest_terms(low.numer, low.denom))
            } else {
                None
            }
        }
        Ordering::Greater => None,
    }
}
