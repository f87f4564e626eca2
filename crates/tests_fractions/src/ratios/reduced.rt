//! Calls of `Reduced` that no row asks, each once at a concrete type.
use crate::asserting::each_holds;
use crate::ratios::forms::has;
use num_rational::{Constants, Reduced, Reduced32, Reduced64};
use ratio_integer::Integer;
use std::test::Fail;

// Whether the result has these fields, or both are `None`.
fn gives<T: Integer>(answer: Option<Reduced<T>>, want: Option<(T, T)>) -> bool {
    match answer {
        Some(x) => want == Some(x.to_ratio().into_raw()),
        None => want.is_none(),
    }
}

#[test]
fn constants_and_whole_numbers(rt: HostRuntime) -> Result<(), Fail> {
    let (whole, wide) = (Reduced32::from(7), i64::MAX as i128);
    let facts = [
        has(whole.clone()?.into(), (7, 1)),
        (*whole.numer(), *whole.denom()) == (7, 1),
        whole.into_raw() == (7, 1),
        whole.is_integer() && !whole.is_zero(),
        has(Reduced64::default().to_ratio(), (0, 1)),
        has(Reduced64::one().to_ratio(), (1, 1)),
        has(Reduced64::ZERO.to_ratio(), (0, 1)),
        has(Reduced64::ONE.to_ratio(), (1, 1)),
        Reduced64::from_integer(1) == Reduced64::one(),
        gives(Reduced64::from_i64(-3), Some((-3, 1))),
        gives(Reduced64::from_i128(wide + 1), None),
        gives(Reduced64::from_u64(u64::MAX), None),
        gives(Reduced64::from_u128(7), Some((7, 1))),
    ];
    each_holds(&rt, &facts);
    Ok(())
}

#[test]
fn where_8_bits_end(rt: HostRuntime) {
    let (least, most) = (
        Reduced::<i8>::from_integer(-128),
        Reduced::<i8>::from_integer(127),
    );
    let facts = [
        gives(least.checked_neg(), None),
        gives(least.checked_abs(), None),
        gives(least.checked_recip(), None),
        gives(most.checked_neg(), Some((-127, 1))),
        gives(most.checked_recip(), Some((1, 127))),
        gives(Reduced::<i8>::zero().checked_recip(), None),
        gives(most.checked_pow_with(-1i64), Some((1, 127))),
    ];
    each_holds(&rt, &facts);
}

#[test]
fn signs_and_the_nearest(rt: HostRuntime) {
    let x = Reduced64::checked_new(3, -4).unwrap_or(Reduced::zero());
    let y = Reduced64::checked_new(355, 113).unwrap_or(Reduced::zero());
    let facts = [
        gives(x.checked_abs(), Some((3, 4))),
        gives(x.checked_recip(), Some((-4, 3))),
        x.is_negative() && !x.is_positive(),
        y.signum() == Reduced::one(),
        gives(y.nearest(100), Some((311, 99))),
        gives(y.nearest(0), None),
    ];
    each_holds(&rt, &facts);
}

#[test]
fn folds_of_lists(rt: HostRuntime) {
    let half = Reduced64::checked_new(1, 2).unwrap_or(Reduced::zero());
    let third = Reduced64::checked_new(1, 3).unwrap_or(Reduced::zero());
    let none: [Reduced64; 0] = [];
    let facts = [
        gives(Reduced64::checked_sum(&[half, third]), Some((5, 6))),
        gives(Reduced64::checked_product(&[&half, &third]), Some((1, 6))),
        gives(Reduced::<i8>::checked_sum(&[127i8, 1, -1]), None),
        gives(Reduced64::checked_product(&none), Some((1, 1))),
    ];
    each_holds(&rt, &facts);
}
