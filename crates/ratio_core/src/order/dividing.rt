//! Comparing fractions by rounds of Euclid's algorithm on both, with the one pair whose quotient does not fit, and its counted
//! divisions, which hashing and other searches call too. A round takes one step a side.
ghost use Rattle.std.specs.Prelude.{◌≡◌, ◌≢◌, ◌↔◌, ◌≤ℤ◌, ◌<ℤ◌, ◌+ℤ◌, ◌+◌, ℤ, pos, cond, IfSome, IsTrue, MatchOption};
ghost use Rattle.std.specs.Ordering.{ordering_reverse};
ghost use Rattle.ratio_integer.specs.Division.{IsAboveMax, IsFloored};
ghost use Rattle.ratio_integer.specs.Range.{IsHeld};
ghost use Rattle.ratio_core.specs.ContinuedFraction.{Compares, IsCompared};
ghost use Rattle.ratio_core.specs.Order.{FollowsQuotient, IsOrderOfParts};

use crate::counted::{Counted, both_held};
use crate::sign::is_below_zero;
use crate::steps::{Side, Steps};
use std::cmp::Ordering;

/// A step of the left side: the floored quotient and the rest. For -7 by 2 they are -4 and 1.
pub fn divide_left<T: Counted>(n: T, d: T, steps: &mut Steps) -> (T, T)
    requires nonzero { T.value d ≢ pos 0 }
    requires held { ¬ (IsAboveMax T.hi (T.value n) (T.value d)) }
    ensures floored { IsFloored (T.value n) (T.value d) (T.value result.0) (T.value result.1) }
    ensures below { T.value result.0 ≤ℤ T.hi }
    ensures left { steps.new.left ≡ steps.old.left + 1 }
    ensures right { steps.new.right ≡ steps.old.right }
{
    let division = n.div_mod_floor(d, Side::Left, steps);
    let _ = division.0.held();
    division
}

/// A step of the right side: the floored quotient and the rest.
pub fn divide_right<T: Counted>(n: T, d: T, steps: &mut Steps) -> (T, T)
    requires nonzero { T.value d ≢ pos 0 }
    requires held { ¬ (IsAboveMax T.hi (T.value n) (T.value d)) }
    ensures floored { IsFloored (T.value n) (T.value d) (T.value result.0) (T.value result.1) }
    ensures below { T.value result.0 ≤ℤ T.hi }
    ensures left { steps.new.left ≡ steps.old.left }
    ensures right { steps.new.right ≡ steps.old.right + 1 }
{
    let division = n.div_mod_floor(d, Side::Right, steps);
    let _ = division.0.held();
    division
}

/// The order of `n/d` and `m/e`, by rounds alone.
pub(crate) fn cmp_by_rounds<T: Counted>(n: T, d: T, m: T, e: T, steps: &mut Steps) -> Ordering
    requires left_nonzero { T.value d ≢ pos 0 }
    requires right_nonzero { T.value e ≢ pos 0 }
    ensures { Compares (T.hi +ℤ pos 1) (T.value n) (T.value d) (T.value m) (T.value e) result
        steps.old.left steps.new.left steps.old.right steps.new.right }
{
    let mut numer = n;
    let mut denom = d;
    let mut other_numer = m;
    let mut other_denom = e;
    // A round goes on with the reciprocals of the rests, and these have the reverse order.
    let mut reversed = false;
    'rounds: loop {
        if let Some(order) = order_at_top(numer, denom, other_numer, other_denom) {
            return turned(reversed, order);
        }
        let (quotient, rest) = divide_left(numer, denom, steps);
        let other_rest = match follow_right(quotient, other_numer, other_denom, steps) {
            Ok(other_rest) => other_rest,
            Err(order) => return turned(reversed, order),
        };
        if let Some(order) = order_of_rests(rest, other_rest) {
            return turned(reversed, order);
        }
        numer = denom;
        denom = rest;
        other_numer = other_denom;
        other_denom = other_rest;
        reversed = !reversed;
    }
}

/// The order of the two, if the value of one of them is `hi+1`, which does not fit the type.
fn order_at_top<T: Counted>(n: T, d: T, m: T, e: T) -> Option<Ordering>
    requires left_nonzero { T.value d ≢ pos 0 }
    requires right_nonzero { T.value e ≢ pos 0 }
    ensures { MatchOption result
        ((¬ (IsAboveMax T.hi (T.value n) (T.value d))) × (¬ (IsAboveMax T.hi (T.value m) (T.value e))))
        (λ order. IsCompared (T.hi +ℤ pos 1) (T.value n) (T.value d) (T.value m) (T.value e) order 0) }
{
    match (is_above_max(n, d), is_above_max(m, e)) {
        (true, true) => Some(Ordering::Equal),
        (true, false) => Some(Ordering::Greater),
        (false, true) => Some(Ordering::Less),
        (false, false) => None,
    }
}

/// The order of two fractions with the same quotient, if at least one of them has no rest.
fn order_of_rests<T: Counted>(rest: T, other_rest: T) -> Option<Ordering>
    ensures { MatchOption result ((T.value rest ≢ pos 0) × (T.value other_rest ≢ pos 0))
        (λ order. (quotient : ℤ) → IsOrderOfParts quotient (T.value rest) quotient (T.value other_rest) order) }
{
    match (rest.is_zero(), other_rest.is_zero()) {
        (true, true) => Some(Ordering::Equal),
        (true, false) => Some(Ordering::Less),
        (false, true) => Some(Ordering::Greater),
        (false, false) => None,
    }
}

/// The order, reversed if `reversed` is set.
fn turned(reversed: bool, answer: Ordering) -> Ordering
    ensures { result ≡ cond reversed (ordering_reverse answer) answer }
{
    if reversed { answer.reverse() } else { answer }
}

/// A step of the right side after one of the left side. Most quotients are the same, and a product shows that. If `quotient` is the floored quotient of `n/d`, it returns the rest, as `Ok`. Else it returns
/// how `quotient` compares with that, as `Err`. For `quotient` 2, 9/4 gives `Ok(1)`, and 5/4 gives `Err(Greater)`.
fn follow_right<T: Counted>(quotient: T, n: T, d: T, steps: &mut Steps) -> Result<T, Ordering>
    requires nonzero { T.value d ≢ pos 0 }
    requires held { ¬ (IsAboveMax T.hi (T.value n) (T.value d)) }
    ensures followed { FollowsQuotient T.value T.hi (T.value quotient) (T.value n) (T.value d) result }
    ensures left { steps.new.left ≡ steps.old.left }
    ensures right { steps.new.right ≡ steps.old.right + 1 }
{
    if T::ZERO < d
        && let Some(followed) = follow_by_product(quotient, n, d)
    {
        steps.tick_right();
        return followed;
    }
    let (other, rest) = divide_right(n, d, steps);
    match quotient.cmp(&other) {
        Ordering::Equal => Ok(rest),
        order => Err(order),
    }
}

// What `follow_right` returns, by a product in place of a division. `None` if the product of `quotient` and `d` is below all numbers of the type.
fn follow_by_product<T: Counted>(quotient: T, n: T, d: T) -> Option<Result<T, Ordering>>
    requires positive { pos 0 <ℤ T.value d }
    ensures { IfSome result (λ followed. FollowsQuotient T.value T.hi (T.value quotient) (T.value n) (T.value d) followed) }
{
    both_held(n, d);
    let product = match quotient.try_times(d) {
        Some(product) => product,
        None if T::ZERO < quotient => return Some(Err(Ordering::Greater)),
        None => return None,
    };
    if n < product {
        return Some(Err(Ordering::Greater));
    }
    let rest = match n.try_minus(product) {
        Some(rest) => rest,
        None => return Some(Err(Ordering::Less)),
    };
    if rest < d {
        return Some(Ok(rest));
    }
    Some(Err(Ordering::Less))
}

/// Whether the pair is `-hi-1` over -1. Its quotient `hi+1` does not fit the type: over `i8`, -128/-1 is 128.
pub(crate) fn is_above_max<T: Counted>(n: T, d: T) -> bool
    ensures answer { IsTrue result ↔ IsAboveMax T.hi (T.value n) (T.value d) }
    ensures held { IsHeld T.lo T.hi (T.value n) }
{
    both_held(n, d);
    is_below_zero(d)
        && is_below_zero(n)
        && d.plus(T::ONE).is_zero()
        && is_below_zero(n.plus(T::MAX))
}
