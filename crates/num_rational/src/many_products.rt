//! The two ways of a product or quotient of many fractions in lowest terms: step by step, and cancelled first.
ghost use Rattle.std.specs.Prelude.{◌≡◌, ◌↔◌, ◌+◌, ◌*◌, ◌<◌, ◌≤◌, ◌<ℤ◌, ◌*ℤ◌, pos, length, IfErr, IfOk, IsTrue, MatchOption};
ghost use Rattle.ratio_integer.specs.Fraction.{Fits, IsLowestTerms, SameValue};
ghost use Rattle.ratio_core.specs.ManyProducts.{product_by};
ghost use Rattle.num_rational.specs.ManyProducts.{denominator_product, numerator_product, quotient_of_items};
ghost use Rattle.num_rational.specs.Operators.{numbers};
ghost use Rattle.num_rational.specs.Ratio.{ChecksRatio, IsLowestOf};
ghost use Rattle.num_rational.specs.Reduced.{ratio_in, ratio_of};

use crate::operand::ReducedOperand;
use crate::ratio::Ratio;
use crate::reduced::Reduced;
use ratio_core::products::many_products;
use ratio_integer::{Integer, both_held, lowest_terms};

// Whether there is room for two numbers an item.
pub(crate) fn has_room(above: usize, below: usize, room: usize) -> bool
    ensures { IsTrue result ↔ (2 * (above + below) ≤ room) }
{
    let half = room / 2;
    above <= half && below <= half - above
}

// The quotient, if the lowest terms of each step fit. Then nothing has to be cancelled first. Else whether the step that does not fit is the
// last one. Then the quotient does not fit.
pub(crate) fn step_by_step<
    T: Copy + Integer,
    O: ReducedOperand<T> + Copy,
    P: ReducedOperand<T> + Copy,
>(above: &[O], below: &[P]) -> Result<Reduced<T>, bool>
    ensures quotient { IfOk result (λ quotient. IsLowestOf (quotient_of_items O.two_numbers above.now P.two_numbers below.now) (ratio_of quotient)) }
    ensures refused { IfErr result (λ last. IsTrue last →
        ¬ (Fits T.lo T.hi (quotient_of_items O.two_numbers above.now P.two_numbers below.now).0 (quotient_of_items O.two_numbers above.now P.two_numbers below.now).1)) }
{
    let mut numer = T::ONE;
    let mut denom = T::ONE;
    let mut lowest = true;
    'above: for (i, x) in above.iter().enumerate() {
        match times(numer, denom, lowest, &(*x).reduced()) {
            Some((n, d, reduced)) => {
                numer = n;
                denom = d;
                lowest = reduced;
            }
            None => return Err(is_last(i, above.len(), below.len())),
        }
    }
    let mut total = in_lowest_terms(numer, denom, lowest);
    'below: for (i, x) in below.iter().enumerate() {
        match total.checked_div((*x).reduced()) {
            Some(quotient) => total = quotient,
            None => return Err(is_last(i, below.len(), 0)),
        }
    }
    Ok(total)
}

// The product of `n/d` and `x`, and whether it is in lowest terms. It is reduced only where its numbers do not fit as they are, or are equal:
// the gcd of these takes no steps. `None` if its lowest terms do not fit. If `lowest` is true, `n/d` is in lowest terms.
fn times<T: Copy + Integer>(n: T, d: T, lowest: bool, x: &Reduced<T>) -> Option<(T, T, bool)>
    requires up { pos 0 <ℤ T.value d }
    requires lowest { IsTrue lowest → IsLowestTerms (T.value n) (T.value d) }
    ensures { let y = numbers (ratio_of x.now) in MatchOption result
        (¬ (Fits T.lo T.hi (T.value n *ℤ y.0) (T.value d *ℤ y.1)))
        (λ r. (pos 0 <ℤ T.value r.1) × SameValue (T.value n *ℤ y.0) (T.value d *ℤ y.1) (T.value r.0) (T.value r.1)
        × (IsTrue r.2 → IsLowestTerms (T.value r.0) (T.value r.1))) }
{
    let (p, q) = (*x).into_raw();
    if n.is_one() && d.is_one() {
        return Some((p, q, true));
    }
    if let Some(numer) = n.try_times(p)
        && let Some(denom) = d.try_times(q)
        && numer != denom
    {
        return Some((numer, denom, false));
    }
    let product = in_lowest_terms(n, d, lowest).checked_mul(x)?;
    let (numer, denom) = product.into_raw();
    Some((numer, denom, true))
}

// `n/d` in lowest terms. If `lowest` is true, it is in lowest terms already.
fn in_lowest_terms<T: Copy + Integer>(n: T, d: T, lowest: bool) -> Reduced<T>
    requires up { pos 0 <ℤ T.value d }
    requires lowest { IsTrue lowest → IsLowestTerms (T.value n) (T.value d) }
    ensures { IsLowestOf (T.value n, T.value d) (ratio_of result) }
{
    if lowest {
        both_held(n, d);
        return Reduced {
            ratio: Ratio::new_raw(n, d),
        };
    }
    let (numer, denom) = lowest_terms(n, d);
    Reduced {
        ratio: Ratio::new_raw(numer, denom),
    }
}

// Whether no item is left, neither of a list after its i-th one nor of `others`.
fn is_last(i: usize, items: usize, others: usize) -> bool
    requires { i < items }
    ensures { IsTrue result ↔ ((i + 1 ≡ items) × (others ≡ 0)) }
{
    i + 1 == items && others == 0
}

// The quotient, with each number above cancelled against each number below before anything is multiplied.
pub(crate) fn cancelled_first<
    T: Copy + Integer,
    O: ReducedOperand<T> + Copy,
    P: ReducedOperand<T> + Copy,
>(above: &[O], below: &[P], room: &mut [T]) -> Option<Reduced<T>>
    requires { 2 * (length above.now + length below.now) ≤ length room.old }
    ensures { ChecksRatio (quotient_of_items O.two_numbers above.now P.two_numbers below.now) (ratio_in result) }
{
    let count = above.len() + below.len();
    let (upper, others) = room.split_at_mut(count);
    let (lower, _) = others.split_at_mut(count);
    let (numers, turned_denoms) = upper.split_at_mut(above.len());
    let (denoms, turned_numers) = lower.split_at_mut(above.len());
    put_numbers(above, numers, denoms);
    put_numbers(below, turned_numers, turned_denoms);
    match many_products::checked_quotient_of_products(upper, lower) {
        Some((numer, denom)) => Some(Reduced {
            ratio: Ratio::new_raw(numer, denom),
        }),
        None => None,
    }
}

// Writes the numerators and the denominators of the items.
fn put_numbers<T: Copy + Integer, O: ReducedOperand<T> + Copy>(
    items: &[O],
    numers: &mut [T],
    denoms: &mut [T],
)
    requires numers_length { length numers.old ≡ length items.now }
    requires denoms_length { length denoms.old ≡ length items.now }
    ensures numers { product_by T.value numers.new ≡ numerator_product O.two_numbers items.now }
    ensures denoms { product_by T.value denoms.new ≡ denominator_product O.two_numbers items.now }
{
    'each: for (i, x) in items.iter().enumerate() {
        let (numer, denom) = (*x).reduced().into_raw();
        numers[i] = numer;
        denoms[i] = denom;
    }
}
