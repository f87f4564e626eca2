//! The six rules of rounding (`Rounding`), and a fraction or a product of two rounded by them, to a whole number or to a multiple of
//! `1/parts`, such as cents or quarters.
//!
//! A rule asks only where a rest lies: at 0, below a half, at a half or above it. A product that fits the type, or 128 bits for a
//! whole number, is divided once. `product` rounds the others.
ghost use Rattle.std.specs.Prelude.{◌≡◌, ◌↔◌, ◌<ℤ◌, ◌+ℤ◌, ◌*ℤ◌, ◌≤ℤ◌, IfSome, IsTrue, pos};
ghost use Rattle.ratio_integer.specs.Arithmetic.{product_of};
ghost use Rattle.ratio_integer.specs.Division.{IsMultiple};
ghost use Rattle.ratio_integer.specs.Range.{IsHeld};
ghost use Rattle.ratio_core.specs.Parts.{IsPart};
ghost use Rattle.ratio_decimal.specs.Products.{ChecksRoundedWhole};
ghost use Rattle.ratio_decimal.specs.RoundingRules.{ChecksRounded, GoesUp, IsRoundedBy};
ghost use Rattle.ratio_decimal.specs.Sides.{IsSide, quarters};

use crate::product::{Factor, Target, long_product};
use ratio_core::sign::is_below_zero;
use ratio_core::sums::{carried_on, multiple_over, numerator_of};
use ratio_integer::{Integer, both_held, lowest_terms};

/// How a number between two neighbours is rounded to one of them. The neighbours are whole numbers, or multiples of
/// 1/100 for two decimal places.
#[derive(Clone, Copy, PartialEq, Debug)]
pub enum Rounding {
    /// To the nearer one, and a half away from zero: 5/2 to 3, and -5/2 to -3.
    HalfAway,
    /// To the nearer one, and a half to the even one: 5/2 to 2, and 7/2 to 4. Rust prints floats so in `{:.2}`.
    HalfEven,
    /// Towards zero: 11/4 to 2, and -11/4 to -2.
    Down,
    /// Away from zero: 9/4 to 3, and -9/4 to -3.
    Up,
    /// To the one below: 11/4 to 2, and -9/4 to -3.
    Floor,
    /// To the one above: 9/4 to 3, and -11/4 to -2.
    Ceil,
}

/// The whole number that the rule gives of `n/d`. It always fits the type: `d` is at least 1.
pub(crate) fn rounded_whole<T: Integer>(n: T, d: T, rule: Rounding) -> T
    requires { pos 0 <ℤ T.value d }
    ensures held { IsHeld T.lo T.hi (T.value result) }
    ensures rounded { IsRoundedBy rule (T.value n) (T.value d) (T.value result) }
{
    both_held(n, d);
    if d.is_one() {
        return n;
    }
    let (floor, left) = n.div_mod_floor(d);
    let _ = floor.held();
    let up = takes_next(rule, (floor, T::ZERO), T::ONE, side_of(left, d));
    let whole = carried_on(floor, up);
    let _ = whole.held();
    whole
}

/// The multiple of `1/parts` that the rule says, in lowest terms, or `None` if they do not fit the type. Over `i8`,
/// 100/3 in hundredths does not fit.
pub fn round_to<T: Integer>(n: T, d: T, parts: T, rule: Rounding) -> Option<(T, T)>
    requires positive { pos 0 <ℤ T.value d }
    requires some { pos 0 <ℤ T.value parts }
    ensures { ChecksRounded (λ r. T.value r.0) (λ r. T.value r.1) T.lo T.hi rule (T.value parts)
        (T.value n) (T.value d) result }
{
    let (whole, part) = rounded(n, d, parts, rule);
    let (part, denom) = lowest_terms(part, parts);
    Some((numerator_of(whole, part, denom)?, denom))
}

/// The multiple of `1/parts` that the rule says, as a whole number and how many `1/parts` more.
pub(crate) fn rounded<T: Integer>(n: T, d: T, parts: T, rule: Rounding) -> (T, T)
    requires positive { pos 0 <ℤ T.value d }
    requires some { pos 0 <ℤ T.value parts }
    ensures part { IsPart (T.value result.1) (T.value parts) }
    ensures rounded { IsRoundedBy rule (T.value n *ℤ T.value parts) (T.value d)
        (T.value result.0 *ℤ T.value parts +ℤ T.value result.1) }
{
    both_held(n, d);
    let _ = parts.held();
    let (floor, rest) = n.div_mod_floor(d);
    let _ = floor.held();
    let (part, left) = multiple_over(rest, parts, d);
    if goes_up(rule, (floor, part), parts, left, d) {
        next((floor, part), parts)
    } else {
        (floor, part)
    }
}

/// One `1/parts` more.
pub(crate) fn next<T: Integer>(x: (T, T), parts: T) -> (T, T)
    requires part { IsPart (T.value x.1) (T.value parts) }
    requires room { IsHeld T.lo T.hi (T.value x.0 +ℤ pos 1) }
    ensures part { IsPart (T.value result.1) (T.value parts) }
    ensures next { T.value result.0 *ℤ T.value parts +ℤ T.value result.1
        ≡ (T.value x.0 *ℤ T.value parts +ℤ T.value x.1) +ℤ pos 1 }
{
    let _ = parts.held();
    let part = x.1.plus(T::ONE);
    if part == parts {
        (x.0.plus(T::ONE), T::ZERO)
    } else {
        (x.0, part)
    }
}

// Whether the rule takes the multiple above. The fraction is the multiple x and `left/d` more, in `1/parts`.
fn goes_up<T: Integer>(rule: Rounding, x: (T, T), parts: T, left: T, d: T) -> bool
    requires part { IsPart (T.value x.1) (T.value parts) }
    requires left { IsPart (T.value left) (T.value d) }
    ensures { IsTrue result ↔ GoesUp rule (T.value x.0 *ℤ T.value parts +ℤ T.value x.1) (T.value left) (T.value d) }
{
    takes_next(rule, x, parts, side_of(left, d))
}

/// The whole number that the rule gives of `a/b` times `c/d`, or `None` if it does not fit the type. Over `i8`, 127/3
/// times 2/5 by `HalfEven` is 17, and times 6/1 it is `None`. The fractions may be in any terms.
pub fn rounded_product<T: Integer>(a: T, b: T, c: T, d: T, rule: Rounding) -> Option<T>
    requires left_positive { pos 0 <ℤ T.value b }
    requires right_positive { pos 0 <ℤ T.value d }
    ensures { ChecksRoundedWhole T.value T.lo T.hi rule
        (product_of (T.value a) (T.value b) (T.value c) (T.value d)) result }
{
    if let Some(numer) = a.try_times(c)
        && let Some(denom) = b.try_times(d)
    {
        return Some(rounded_whole(numer, denom, rule));
    }
    if let Some((numer, denom)) = wide_product(a, b, c, d) {
        return T::from_i128(rounded_whole(numer, denom, rule));
    }
    let left = Factor { numer: a, denom: b };
    let right = Factor { numer: c, denom: d };
    let parts = T::ONE;
    let (whole, _) = long_product(left, right, Target { parts, rule })?;
    Some(whole)
}

/// The multiple of `1/parts` that the rule gives of `a/b` times `c/d`, in lowest terms, or `None` if they do not fit the
/// type. Over `i8`, 127/3 times 2/5 in quarters by `HalfEven` is 17/1, and in hundredths it is `None`. The fractions may
/// be in any terms.
pub fn rounded_product_to<T: Integer>(
    a: T,
    b: T,
    c: T,
    d: T,
    parts: T,
    rule: Rounding,
) -> Option<(T, T)>
    requires left_positive { pos 0 <ℤ T.value b }
    requires right_positive { pos 0 <ℤ T.value d }
    requires some { pos 0 <ℤ T.value parts }
    ensures { let x = product_of (T.value a) (T.value b) (T.value c) (T.value d) in
        ChecksRounded (λ r. T.value r.0) (λ r. T.value r.1) T.lo T.hi rule (T.value parts) x.0 x.1 result }
{
    if let Some(numer) = a.try_times(c)
        && let Some(denom) = b.try_times(d)
    {
        return round_to(numer, denom, parts, rule);
    }
    let left = Factor { numer: a, denom: b };
    let right = Factor { numer: c, denom: d };
    long_product(left, right, Target { parts, rule })
}

// The product `ac/(bd)` in 128 bits, or `None` if a number does not fit there. Those of signed types of at most 64 bits fit.
fn wide_product<T: Integer>(a: T, b: T, c: T, d: T) -> Option<(i128, i128)>
    ensures { IfSome result (λ x. x ≡ product_of (T.value a) (T.value b) (T.value c) (T.value d)) }
{
    let numer = a.to_i128()?.try_times(c.to_i128()?)?;
    let denom = b.to_i128()?.try_times(d.to_i128()?)?;
    Some((numer, denom))
}

/// Where a part of 1 lies.
#[derive(Clone, Copy, PartialEq, Debug)]
pub(crate) enum Side {
    /// It is 0.
    Zero,
    /// It is above 0 and below a half.
    BelowHalf,
    /// It is a half.
    Half,
    /// It is above a half.
    AboveHalf,
}

/// Where `left/d` lies.
pub(crate) fn side_of<T: Integer>(left: T, d: T) -> Side
    requires { IsPart (T.value left) (T.value d) }
    ensures { IsSide result (T.value left) (T.value d) }
{
    if left.is_zero() {
        Side::Zero
    } else if is_past_half(left, d) {
        Side::AboveHalf
    } else if is_half(left, d) {
        Side::Half
    } else {
        Side::BelowHalf
    }
}

/// Where `(rest + left/b)/d` lies. With some `left` it is between `rest/d` and `(rest + 1)/d`. So `left/b` decides
/// only if these lie on both sides of a half.
pub(crate) fn side_of_both<T: Integer>(rest: T, d: T, left: T, b: T) -> Side
    requires rest { IsPart (T.value rest) (T.value d) }
    requires left { IsPart (T.value left) (T.value b) }
    ensures { IsSide result (T.value rest *ℤ T.value b +ℤ T.value left) (T.value d *ℤ T.value b) }
{
    if left.is_zero() {
        return side_of(rest, d);
    }
    let _ = d.held();
    let after = d.minus(rest).minus(T::ONE);
    if rest < after {
        Side::BelowHalf
    } else if rest == after {
        side_of(left, b)
    } else {
        Side::AboveHalf
    }
}

/// Whether the rule takes the multiple above x, where the rest lies on this side.
pub(crate) fn takes_next<T: Integer>(rule: Rounding, x: (T, T), parts: T, side: Side) -> bool
    requires { IsPart (T.value x.1) (T.value parts) }
    ensures { IsTrue result ↔ GoesUp rule (T.value x.0 *ℤ T.value parts +ℤ T.value x.1) (quarters side) (pos 4) }
{
    match rule {
        Rounding::HalfAway => match side {
            Side::Zero | Side::BelowHalf => false,
            Side::Half => !is_below_zero(x.0),
            Side::AboveHalf => true,
        },
        Rounding::HalfEven => match side {
            Side::Zero | Side::BelowHalf => false,
            Side::Half => is_odd(x, parts),
            Side::AboveHalf => true,
        },
        Rounding::Down => has_rest(side) && is_below_zero(x.0),
        Rounding::Up => has_rest(side) && !is_below_zero(x.0),
        Rounding::Floor => false,
        Rounding::Ceil => has_rest(side),
    }
}

fn has_rest(side: Side) -> bool
    ensures { IsTrue result ↔ (pos 0 <ℤ quarters side) }
{
    match side {
        Side::Zero => false,
        Side::BelowHalf | Side::Half | Side::AboveHalf => true,
    }
}

// Whether `left/d` is above a half.
fn is_past_half<T: Integer>(left: T, d: T) -> bool
    requires { IsPart (T.value left) (T.value d) }
    ensures { IsTrue result ↔ (T.value d <ℤ (T.value left +ℤ T.value left)) }
{
    let _ = d.held();
    d.minus(left) < left
}

// Whether `left/d` is a half.
fn is_half<T: Integer>(left: T, d: T) -> bool
    requires { IsPart (T.value left) (T.value d) }
    ensures { IsTrue result ↔ (T.value left +ℤ T.value left ≡ T.value d) }
{
    let _ = d.held();
    d.minus(left) == left
}

/// Whether a multiple is an odd number of `1/parts`.
pub(crate) fn is_odd<T: Integer>(x: (T, T), parts: T) -> bool
    ensures { IsTrue result ↔ (¬ (IsMultiple (T.value x.0 *ℤ T.value parts +ℤ T.value x.1) (pos 2))) }
{
    if x.0.is_even() || parts.is_even() {
        x.1.is_odd()
    } else {
        x.1.is_even()
    }
}
