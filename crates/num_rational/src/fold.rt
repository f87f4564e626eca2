// Written by templates/write from templates/fold.rt.txt: change that file, and write this one anew.
//! The sum and the product of the items of an iterator, and for `Reduced` of a list.
ghost use Rattle.std.specs.Prelude.{IsSome, List};
ghost use Rattle.std.specs.Iterator.{Drains, DrainsIf, HoldsAlong, IsFinite};
ghost use Rattle.num_rational.specs.Folds.{ArePositive, CanProduct, CanSum, ChecksExactSumOf, ChecksProductOf, ChecksSumOf, IsProductOf, IsSumOf};
ghost use Rattle.num_rational.specs.Operators.{numbers};
ghost use Rattle.num_rational.specs.Reduced.{ratio_in};

use crate::operand::{Operand, ReducedOperand};
use crate::ratio::Ratio;
use crate::reduced::Reduced;
use ratio_integer::Integer;
use std::iter::{Product, Sum};

impl<T: Copy + Integer> Ratio<T> {
    /// The sum of the items, in order from 0/1 on. It returns `None` at the first item for which
    /// `checked_add` does.
    pub fn checked_sum<I: Iterator<Item = Ratio<T>>>(iter: I) -> Option<Ratio<T>>
        requires can { I.can_next iter }
        requires finite { IsFinite (I.remaining iter) }
        requires positive { HoldsAlong I.next_gives iter (ArePositive numbers) }
        ensures { (xs : List _) × DrainsIf I.next_gives (IsSome result) iter xs × ChecksSumOf numbers xs result }
    {
        checked_sum_of_operands(iter)
    }

    /// The sum of the items, in order from 0/1 on. It is 0/1 for no items. The call requires that
    /// `checked_sum` returns `Some`.
    pub fn sum<I: Iterator<Item = Ratio<T>>>(iter: I) -> Ratio<T>
        requires can { I.can_next iter }
        requires finite { IsFinite (I.remaining iter) }
        requires answered { HoldsAlong I.next_gives iter (CanSum T.EXACT_SUMS T.lo T.hi numbers) }
        ensures { (xs : List _) × Drains I.next_gives iter xs × IsSumOf numbers xs (numbers result) }
    {
        sum_of_operands(iter)
    }

    /// The sum as `checked_sum` gives it, of an iterator over references to fractions, such as
    /// `list.iter()`.
    pub fn checked_sum_refs<'a, I: Iterator<Item = &'a Ratio<T>>>(iter: I) -> Option<Ratio<T>>
    where
        T: 'a,
        requires can { I.can_next iter }
        requires finite { IsFinite (I.remaining iter) }
        requires positive { HoldsAlong I.next_gives iter (ArePositive (λ x. numbers x.now)) }
        ensures { (xs : List _) × DrainsIf I.next_gives (IsSome result) iter xs × ChecksSumOf (λ x. numbers x.now) xs result }
    {
        checked_sum_of_operands(iter)
    }

    /// The sum of an iterator over references to fractions. It requires that `checked_sum_refs`
    /// returns `Some`.
    pub fn sum_refs<'a, I: Iterator<Item = &'a Ratio<T>>>(iter: I) -> Ratio<T>
    where
        T: 'a,
        requires can { I.can_next iter }
        requires finite { IsFinite (I.remaining iter) }
        requires answered { HoldsAlong I.next_gives iter (CanSum T.EXACT_SUMS T.lo T.hi (λ x. numbers x.now)) }
        ensures { (xs : List _) × Drains I.next_gives iter xs × IsSumOf (λ x. numbers x.now) xs (numbers result) }
    {
        sum_of_operands(iter)
    }
}

// The sum of items that an operator takes on its right.
fn sum_of_operands<T: Copy + Integer, O: Operand<T>, I: Iterator<Item = O>>(iter: I) -> Ratio<T>
    requires can { I.can_next iter }
    requires finite { IsFinite (I.remaining iter) }
    requires answered { HoldsAlong I.next_gives iter (CanSum T.EXACT_SUMS T.lo T.hi O.two_numbers) }
    ensures { (xs : List _) × Drains I.next_gives iter xs × IsSumOf O.two_numbers xs (numbers result) }
{
    let mut total = Ratio::zero();
    'items: for x in iter {
        total = total.add(x.ratio());
    }
    total
}

// The sum by the checked call, or `None` at the first item for which this is `None`.
fn checked_sum_of_operands<T: Copy + Integer, O: Operand<T>, I: Iterator<Item = O>>(
    iter: I,
) -> Option<Ratio<T>>
    requires can { I.can_next iter }
    requires finite { IsFinite (I.remaining iter) }
    requires positive { HoldsAlong I.next_gives iter (ArePositive O.two_numbers) }
    ensures { (xs : List _) × DrainsIf I.next_gives (IsSome result) iter xs × ChecksSumOf O.two_numbers xs result }
{
    let mut total = Ratio::zero();
    'items: for x in iter {
        total = total.checked_add(&x.ratio())?;
    }
    Some(total)
}

impl<T: Copy + Integer> Sum<Ratio<T>> for Ratio<T> {
    ghost can_sum = { CanSum T.EXACT_SUMS T.lo T.hi numbers };

    ghost sum_gives = { λ xs r. IsSumOf numbers xs (numbers r) };

    fn sum<I: Iterator<Item = Ratio<T>>>(iter: I) -> Ratio<T> {
        Ratio::<T>::sum(iter)
    }
}

impl<'a, T: Copy + Integer> Sum<&'a Ratio<T>> for Ratio<T> {
    ghost can_sum = { CanSum T.EXACT_SUMS T.lo T.hi (λ x. numbers x.now) };

    ghost sum_gives = { λ xs r. IsSumOf (λ x. numbers x.now) xs (numbers r) };

    fn sum<I: Iterator<Item = &'a Ratio<T>>>(iter: I) -> Ratio<T> {
        Ratio::<T>::sum_refs(iter)
    }
}

impl<T: Copy + Integer> Reduced<T> {
    /// The sum of the items, in order from 0/1 on. It returns `None` at the first item for which
    /// `checked_add` does. An item is a fraction or a whole number, or a reference to one.
    pub fn checked_sum<O: ReducedOperand<T> + Copy>(items: &[O]) -> Option<Reduced<T>>
        ensures { ChecksExactSumOf O.two_numbers items.now (ratio_in result) }
    {
        let mut total = Reduced::zero();
        'items: for x in items {
            total = total.checked_add((*x).reduced())?;
        }
        Some(total)
    }
}

impl<T: Copy + Integer> Ratio<T> {
    /// The product of the items, in order from 1/1 on. It returns `None` at the first item for which
    /// `checked_mul` does.
    pub fn checked_product<I: Iterator<Item = Ratio<T>>>(iter: I) -> Option<Ratio<T>>
        requires can { I.can_next iter }
        requires finite { IsFinite (I.remaining iter) }
        requires positive { HoldsAlong I.next_gives iter (ArePositive numbers) }
        ensures { (xs : List _) × DrainsIf I.next_gives (IsSome result) iter xs × ChecksProductOf numbers xs result }
    {
        checked_product_of_operands(iter)
    }

    /// The product of the items, in order from 1/1 on. It is 1/1 for no items. The call requires that
    /// `checked_product` returns `Some`.
    pub fn product<I: Iterator<Item = Ratio<T>>>(iter: I) -> Ratio<T>
        requires can { I.can_next iter }
        requires finite { IsFinite (I.remaining iter) }
        requires answered { HoldsAlong I.next_gives iter (CanProduct T.lo T.hi numbers) }
        ensures { (xs : List _) × Drains I.next_gives iter xs × IsProductOf numbers xs (numbers result) }
    {
        product_of_operands(iter)
    }

    /// The product as `checked_product` gives it, of an iterator over references to fractions, such
    /// as `list.iter()`.
    pub fn checked_product_refs<'a, I: Iterator<Item = &'a Ratio<T>>>(iter: I) -> Option<Ratio<T>>
    where
        T: 'a,
        requires can { I.can_next iter }
        requires finite { IsFinite (I.remaining iter) }
        requires positive { HoldsAlong I.next_gives iter (ArePositive (λ x. numbers x.now)) }
        ensures { (xs : List _) × DrainsIf I.next_gives (IsSome result) iter xs × ChecksProductOf (λ x. numbers x.now) xs result }
    {
        checked_product_of_operands(iter)
    }

    /// The product of an iterator over references to fractions. It requires that
    /// `checked_product_refs` returns `Some`.
    pub fn product_refs<'a, I: Iterator<Item = &'a Ratio<T>>>(iter: I) -> Ratio<T>
    where
        T: 'a,
        requires can { I.can_next iter }
        requires finite { IsFinite (I.remaining iter) }
        requires answered { HoldsAlong I.next_gives iter (CanProduct T.lo T.hi (λ x. numbers x.now)) }
        ensures { (xs : List _) × Drains I.next_gives iter xs × IsProductOf (λ x. numbers x.now) xs (numbers result) }
    {
        product_of_operands(iter)
    }
}

// The product of items that an operator takes on its right.
fn product_of_operands<T: Copy + Integer, O: Operand<T>, I: Iterator<Item = O>>(iter: I) -> Ratio<T>
    requires can { I.can_next iter }
    requires finite { IsFinite (I.remaining iter) }
    requires answered { HoldsAlong I.next_gives iter (CanProduct T.lo T.hi O.two_numbers) }
    ensures { (xs : List _) × Drains I.next_gives iter xs × IsProductOf O.two_numbers xs (numbers result) }
{
    let mut total = Ratio::one();
    'items: for x in iter {
        total = total.mul(x.ratio());
    }
    total
}

// The product by the checked call, or `None` at the first item for which this is `None`.
fn checked_product_of_operands<T: Copy + Integer, O: Operand<T>, I: Iterator<Item = O>>(
    iter: I,
) -> Option<Ratio<T>>
    requires can { I.can_next iter }
    requires finite { IsFinite (I.remaining iter) }
    requires positive { HoldsAlong I.next_gives iter (ArePositive O.two_numbers) }
    ensures { (xs : List _) × DrainsIf I.next_gives (IsSome result) iter xs × ChecksProductOf O.two_numbers xs result }
{
    let mut total = Ratio::one();
    'items: for x in iter {
        total = total.checked_mul(&x.ratio())?;
    }
    Some(total)
}

impl<T: Copy + Integer> Product<Ratio<T>> for Ratio<T> {
    ghost can_product = { CanProduct T.lo T.hi numbers };

    ghost product_gives = { λ xs r. IsProductOf numbers xs (numbers r) };

    fn product<I: Iterator<Item = Ratio<T>>>(iter: I) -> Ratio<T> {
        Ratio::<T>::product(iter)
    }
}

impl<'a, T: Copy + Integer> Product<&'a Ratio<T>> for Ratio<T> {
    ghost can_product = { CanProduct T.lo T.hi (λ x. numbers x.now) };

    ghost product_gives = { λ xs r. IsProductOf (λ x. numbers x.now) xs (numbers r) };

    fn product<I: Iterator<Item = &'a Ratio<T>>>(iter: I) -> Ratio<T> {
        Ratio::<T>::product_refs(iter)
    }
}

impl<T: Copy + Integer> Reduced<T> {
    /// The product of the items, in order from 1/1 on. It returns `None` at the first item for which
    /// `checked_mul` does. An item is a fraction or a whole number, or a reference to one.
    pub fn checked_product<O: ReducedOperand<T> + Copy>(items: &[O]) -> Option<Reduced<T>>
        ensures { ChecksProductOf O.two_numbers items.now (ratio_in result) }
    {
        let mut total = Reduced::one();
        'items: for x in items {
            total = total.checked_mul((*x).reduced())?;
        }
        Some(total)
    }
}
