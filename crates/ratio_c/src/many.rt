//! The call for C that multiplies many fractions and divides by many, where no number on the way has to fit.
ghost use Rattle.std.specs.Prelude.{◌≡◌, ◌↔◌, ◌+◌, ◌*◌, ◌≤◌, length, IsTrue};
ghost use Rattle.ratio_core.specs.ManyProducts.{product_by};
ghost use Rattle.ratio_integer.specs.Fraction.{ChecksLowest};
ghost use Rattle.ratio_integer.specs.SignedBits.{greatest64, least64};
ghost use Rattle.num_rational.specs.ManyProducts.{denominator_product, numerator_product, quotient_of_items};
ghost use Rattle.ratio_c.specs.Many.{AreNotZero, AreOverPositive, IsQuotientOfMany};
ghost use Rattle.ratio_c.specs.Numbers64.{fraction64, said64};
ghost use Rattle.ratio_c.specs.TotalReads.{AnswersOne};

use crate::code::{DENOMINATOR_NOT_POSITIVE, DIVISION_BY_ZERO, MORE_ROOM};
use crate::crossing::{checked, refused};
use crate::each::{BAD_LENGTH, DONE};
use crate::numbers64::{Answer64, Fraction64};
use ratio_core::products::many_products;

// Whether each denominator is positive.
pub(crate) fn are_positive(items: &[Fraction64]) -> bool
    ensures { IsTrue result ↔ AreOverPositive items.now }
{
    items.iter().all(|x| 0 < x.denom)
}

// Whether no fraction is 0.
fn are_not_zero(items: &[Fraction64]) -> bool
    ensures { IsTrue result ↔ AreNotZero items.now }
{
    items.iter().all(|x| x.numer != 0)
}

// Whether there is room for two numbers an item.
fn has_room(above: usize, below: usize, room: usize) -> bool
    ensures { IsTrue result ↔ (2 * (above + below) ≤ room) }
{
    let half = room / 2;
    above <= half && below <= half - above
}

// Writes the numerators and the denominators of the items.
fn put_numbers(items: &[Fraction64], numers: &mut [i64], denoms: &mut [i64])
    requires numers_length { length numers.old ≡ length items.now }
    requires denoms_length { length denoms.old ≡ length items.now }
    ensures numers { product_by (λ n. n) numers.new ≡ numerator_product fraction64 items.now }
    ensures denoms { product_by (λ n. n) denoms.new ≡ denominator_product fraction64 items.now }
{
    'each: for (i, x) in items.iter().enumerate() {
        numers[i] = x.numer;
        denoms[i] = x.denom;
    }
}

// The product of the fractions above divided by each below, or `None` if its lowest terms do not fit.
fn quotient(above: &[Fraction64], below: &[Fraction64], room: &mut [i64]) -> Option<(i64, i64)>
    requires { 2 * (length above.now + length below.now) ≤ length room.old }
    ensures { ChecksLowest (λ r. r.0) (λ r. r.1) least64 greatest64 (quotient_of_items fraction64 above.now fraction64 below.now) result }
{
    let count = above.len() + below.len();
    let (upper, others) = room.split_at_mut(count);
    let (lower, _) = others.split_at_mut(count);
    let (numers, turned_denoms) = upper.split_at_mut(above.len());
    let (denoms, turned_numers) = lower.split_at_mut(above.len());
    put_numbers(above, numers, denoms);
    put_numbers(below, turned_numers, turned_denoms);
    many_products::checked_quotient_of_products(upper, lower)
}

// The quotient, or the code that says why there is none.
fn quotient_answer(above: &[Fraction64], below: &[Fraction64], room: &mut [i64]) -> Answer64
    ensures { IsQuotientOfMany above.now below.now (length room.old) (said64 result) }
{
    if !has_room(above.len(), below.len(), room.len()) {
        return refused(MORE_ROOM);
    }
    if !are_positive(above) || !are_positive(below) {
        return refused(DENOMINATOR_NOT_POSITIVE);
    }
    if !are_not_zero(below) {
        return refused(DIVISION_BY_ZERO);
    }
    checked(quotient(above, below, room))
}

/// The product of the fractions above divided by each fraction below.
#[unsafe(no_mangle)]
pub extern "C" fn ratio_quotient_of_i64(
    above: &[Fraction64],
    below: &[Fraction64],
    room: &mut [i64],
    answers: &mut [Answer64],
) -> u32
    ensures { AnswersOne (λ answer. IsQuotientOfMany above.now below.now (length room.old) (said64 answer)) room.old room.new answers.old answers.new result }
{
    if answers.len() != 1 {
        return BAD_LENGTH;
    }
    answers[0] = quotient_answer(above, below, room);
    DONE
}
