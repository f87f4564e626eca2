//! Sums and products of lists, by every call.
ghost use Rattle.std.specs.Prelude.{IsTrue};
ghost use Rattle.num_rational.specs.Folds.{ArePositive, CanProduct, CanSum};
ghost use Rattle.num_rational.specs.Operators.{numbers};

use crate::asserting::each_holds;
use crate::ratios::forms::{self, fraction, has};
use num_rational::{Ratio, Rational32};
use ratio_integer::Integer;
use std::iter::{Product, Sum};

fn are_positive<T: Integer>(items: &[Ratio<T>]) -> bool
    ensures { IsTrue result → ArePositive numbers items.now }
{
    items.iter().all(|x| *x.denom() > T::ZERO)
}

// The fields of the sum, if both checked calls return it and every other call gives the same.
fn sum<T: Integer>(items: &[Ratio<T>]) -> Option<(T, T)>
    requires { ArePositive numbers items.now }
{
    let fields = Ratio::checked_sum_refs(items.iter())?.into_raw();
    let by_value = Ratio::checked_sum(items.iter().copied())?;
    if has(by_value, fields) && every_sum(items, fields) {
        Some(fields)
    } else {
        None
    }
}

fn every_sum<T: Integer>(items: &[Ratio<T>], fields: (T, T)) -> bool
    requires { CanSum T.EXACT_SUMS T.lo T.hi numbers items.now }
{
    let by_value = Ratio::<T>::sum(items.iter().copied());
    let by_reference = Ratio::<T>::sum_refs(items.iter());
    let of_values = <Ratio<T> as Sum<Ratio<T>>>::sum(items.iter().copied());
    let of_references = <Ratio<T> as Sum<&Ratio<T>>>::sum(items.iter());
    has(by_value, fields)
        && has(by_reference, fields)
        && has(of_values, fields)
        && has(of_references, fields)
}

// The same of the product.
fn product<T: Integer>(items: &[Ratio<T>]) -> Option<(T, T)>
    requires { ArePositive numbers items.now }
{
    let fields = Ratio::checked_product_refs(items.iter())?.into_raw();
    let by_value = Ratio::checked_product(items.iter().copied())?;
    if has(by_value, fields) && every_product(items, fields) {
        Some(fields)
    } else {
        None
    }
}

fn every_product<T: Integer>(items: &[Ratio<T>], fields: (T, T)) -> bool
    requires { CanProduct T.lo T.hi numbers items.now }
{
    let by_value = Ratio::<T>::product(items.iter().copied());
    let by_reference = Ratio::<T>::product_refs(items.iter());
    let of_values = <Ratio<T> as Product<Ratio<T>>>::product(items.iter().copied());
    let of_references = <Ratio<T> as Product<&Ratio<T>>>::product(items.iter());
    has(by_value, fields)
        && has(by_reference, fields)
        && has(of_values, fields)
        && has(of_references, fields)
}

// The sum by `+`, one item after another.
fn added<T: Integer>(items: &[Ratio<T>]) -> Option<(T, T)> {
    let mut total = (T::ZERO, T::ONE);
    for x in items {
        total = forms::sum(fraction(total), fraction(x.into_raw()))?;
    }
    Some(total)
}

// The product by `*`, one item after another.
fn multiplied<T: Integer>(items: &[Ratio<T>]) -> Option<(T, T)> {
    let mut total = (T::ONE, T::ONE);
    for x in items {
        total = forms::product(fraction(total), fraction(x.into_raw()))?;
    }
    Some(total)
}

// Whether every call gives this sum, or none gives any.
fn is_sum<T: Integer>(items: &[Ratio<T>], want: Option<(T, T)>) -> bool {
    are_positive(items) && sum(items) == want && added(items) == want
}

fn is_product<T: Integer>(items: &[Ratio<T>], want: Option<(T, T)>) -> bool {
    are_positive(items) && product(items) == want && multiplied(items) == want
}

// 0/500, 1/500 and so on.
fn five_hundredths() -> [Rational32; 1000] {
    let mut items = [Rational32::zero(); 1000];
    for n in 0..1000usize {
        items[n] = Ratio::new_raw(n as i32, 500);
    }
    items
}

#[test]
fn ratio_iter_sum(rt: HostRuntime) {
    assert!(rt; is_sum(&five_hundredths(), Some((999, 1))));
}

#[test]
fn ratio_iter_product(rt: HostRuntime) {
    assert!(rt; is_product(&five_hundredths(), Some((0, 1))));
}

#[test]
fn of_none(rt: HostRuntime) {
    let none: [Rational32; 0] = [];
    each_holds(
        &rt,
        &[is_sum(&none, Some((0, 1))), is_product(&none, Some((1, 1)))],
    );
}

#[test]
fn refused(rt: HostRuntime) {
    let items = [
        Ratio::new_raw(100i8, 1),
        Ratio::new_raw(100, 1),
        Ratio::new_raw(-100, 1),
    ];
    each_holds(&rt, &[is_sum(&items, None), is_product(&items, None)]);
}
