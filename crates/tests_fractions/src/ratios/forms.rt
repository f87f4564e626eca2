//! Every form of an operator: the checked call, the named call, the symbol and its assigning form. The right operand may be a
//! fraction or a whole number, a value or a reference.
ghost use Rattle.std.specs.Prelude.{◌<ℤ◌, pos, IfSome};
ghost use Rattle.num_rational.specs.Operators.{CanAdd, CanDivide, CanMultiply, CanSubtract, CanTakeRemainder, numbers};
ghost use Rattle.num_rational.specs.Ratio.{denominator};

use num_rational::{Operand, Ratio};
use ratio_integer::Integer;

/// The fraction with these fields, or 0 if its denominator is not positive.
pub fn fraction<T: Integer>(fields: (T, T)) -> Ratio<T>
    ensures { pos 0 <ℤ denominator result }
{
    if fields.1 > T::ZERO {
        Ratio::new_raw(fields.0, fields.1)
    } else {
        Ratio::zero()
    }
}

/// The fraction with these fields, if its denominator is positive.
pub fn positive<T: Integer>(numer: T, denom: T) -> Option<Ratio<T>>
    ensures { IfSome result (λ x. pos 0 <ℤ denominator x) }
{
    if T::ZERO < denom {
        Some(Ratio::new_raw(numer, denom))
    } else {
        None
    }
}

/// The fraction with these fields, if its denominator is not 0.
pub(crate) fn raw<T: Integer>(numer: T, denom: T) -> Option<Ratio<T>> {
    if denom.is_zero() {
        None
    } else {
        Some(Ratio::new_raw(numer, denom))
    }
}

/// Whether the fraction has these fields.
pub(crate) fn has<T: Integer>(x: Ratio<T>, fields: (T, T)) -> bool {
    x.into_raw() == fields
}

/// Whether the result has these fields, or both are `None`.
pub(crate) fn answers<T: Integer>(answer: Option<Ratio<T>>, want: Option<(T, T)>) -> bool {
    answer.map(Ratio::into_raw) == want
}

/// The fields of the sum, if the checked call returns it and every other form gives the same.
pub(crate) fn sum<T: Integer, O: Operand<T> + Copy>(x: Ratio<T>, o: O) -> Option<(T, T)>
    requires left { pos 0 <ℤ denominator x }
    requires right { pos 0 <ℤ (O.two_numbers o).1 }
{
    let y = o.ratio();
    let fields = x.checked_add(&y)?.into_raw();
    if every_sum(x, y, o, fields) {
        Some(fields)
    } else {
        None
    }
}

fn every_sum<T: Integer, O: Operand<T> + Copy>(
    x: Ratio<T>,
    y: Ratio<T>,
    o: O,
    fields: (T, T),
) -> bool
    requires named { CanAdd T.EXACT_SUMS T.lo T.hi (numbers x) (numbers y) }
    requires operand { CanAdd T.EXACT_SUMS T.lo T.hi (numbers x) (O.two_numbers o) }
{
    let mut assigned = x;
    assigned += o;
    let named = has(x.add(y), fields);
    let by_value = has(x + o, fields);
    let by_reference = has(&x + o, fields);
    [named, by_value, by_reference, has(assigned, fields)] == [true; 4]
}

/// The same of the difference.
pub(crate) fn difference<T: Integer, O: Operand<T> + Copy>(x: Ratio<T>, o: O) -> Option<(T, T)>
    requires left { pos 0 <ℤ denominator x }
    requires right { pos 0 <ℤ (O.two_numbers o).1 }
{
    let y = o.ratio();
    let fields = x.checked_sub(&y)?.into_raw();
    if every_difference(x, y, o, fields) {
        Some(fields)
    } else {
        None
    }
}

fn every_difference<T: Integer, O: Operand<T> + Copy>(
    x: Ratio<T>,
    y: Ratio<T>,
    o: O,
    fields: (T, T),
) -> bool
    requires named { CanSubtract T.EXACT_SUMS T.lo T.hi (numbers x) (numbers y) }
    requires operand { CanSubtract T.EXACT_SUMS T.lo T.hi (numbers x) (O.two_numbers o) }
{
    let mut assigned = x;
    assigned -= o;
    let named = has(x.sub(y), fields);
    let by_value = has(x - o, fields);
    let by_reference = has(&x - o, fields);
    [named, by_value, by_reference, has(assigned, fields)] == [true; 4]
}

/// The same of the product.
pub(crate) fn product<T: Integer, O: Operand<T> + Copy>(x: Ratio<T>, o: O) -> Option<(T, T)>
    requires left { pos 0 <ℤ denominator x }
    requires right { pos 0 <ℤ (O.two_numbers o).1 }
{
    let y = o.ratio();
    let fields = x.checked_mul(&y)?.into_raw();
    if every_product(x, y, o, fields) {
        Some(fields)
    } else {
        None
    }
}

fn every_product<T: Integer, O: Operand<T> + Copy>(
    x: Ratio<T>,
    y: Ratio<T>,
    o: O,
    fields: (T, T),
) -> bool
    requires named { CanMultiply T.lo T.hi (numbers x) (numbers y) }
    requires operand { CanMultiply T.lo T.hi (numbers x) (O.two_numbers o) }
{
    let mut assigned = x;
    assigned *= o;
    let named = has(x.mul(y), fields);
    let by_value = has(x * o, fields);
    let by_reference = has(&x * o, fields);
    [named, by_value, by_reference, has(assigned, fields)] == [true; 4]
}

/// The same of the quotient.
pub(crate) fn quotient<T: Integer, O: Operand<T> + Copy>(x: Ratio<T>, o: O) -> Option<(T, T)>
    requires left { pos 0 <ℤ denominator x }
    requires right { pos 0 <ℤ (O.two_numbers o).1 }
{
    let y = o.ratio();
    let fields = x.checked_div(&y)?.into_raw();
    if every_quotient(x, y, o, fields) {
        Some(fields)
    } else {
        None
    }
}

fn every_quotient<T: Integer, O: Operand<T> + Copy>(
    x: Ratio<T>,
    y: Ratio<T>,
    o: O,
    fields: (T, T),
) -> bool
    requires named { CanDivide T.lo T.hi (numbers x) (numbers y) }
    requires operand { CanDivide T.lo T.hi (numbers x) (O.two_numbers o) }
{
    let mut assigned = x;
    assigned /= o;
    let named = has(x.div(y), fields);
    let by_value = has(x / o, fields);
    let by_reference = has(&x / o, fields);
    [named, by_value, by_reference, has(assigned, fields)] == [true; 4]
}

/// The same of the remainder.
pub(crate) fn remainder<T: Integer, O: Operand<T> + Copy>(x: Ratio<T>, o: O) -> Option<(T, T)>
    requires left { pos 0 <ℤ denominator x }
    requires right { pos 0 <ℤ (O.two_numbers o).1 }
{
    let y = o.ratio();
    let fields = x.checked_rem(&y)?.into_raw();
    if every_remainder(x, y, o, fields) {
        Some(fields)
    } else {
        None
    }
}

fn every_remainder<T: Integer, O: Operand<T> + Copy>(
    x: Ratio<T>,
    y: Ratio<T>,
    o: O,
    fields: (T, T),
) -> bool
    requires named { CanTakeRemainder T.lo T.hi (numbers x) (numbers y) }
    requires operand { CanTakeRemainder T.lo T.hi (numbers x) (O.two_numbers o) }
{
    let mut assigned = x;
    assigned %= o;
    let named = has(x.rem(y), fields);
    let by_value = has(x % o, fields);
    let by_reference = has(&x % o, fields);
    [named, by_value, by_reference, has(assigned, fields)] == [true; 4]
}
