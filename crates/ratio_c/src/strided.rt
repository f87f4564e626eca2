//! Calls for C on pairs whose fractions lie apart in memory, such as the answers of another call.
ghost use Rattle.std.specs.Prelude.{◌≡◌, ◌+◌, ◌*◌, ◌<◌, ◌↔◌, length, IsTrue};
ghost use Rattle.ratio_integer.specs.SignedBits.{greatest64, least64};
ghost use Rattle.ratio_c.specs.Calls.{IsDifferenceAnswer, IsOrderAnswer, IsProductAnswer, IsQuotientAnswer, IsSumAnswer};
ghost use Rattle.ratio_c.specs.Numbers64.{fraction64, said64};
ghost use Rattle.ratio_c.specs.Strided.{AnswersStrided, Reaches, strided};

use crate::arithmetic::{Difference, Product, Quotient, Sum};
use crate::compare::{Comparison, Order};
use crate::each::{BAD_LENGTH, Call, DONE};
use crate::numbers64::{Answer64, Fraction64, Pair64};

/// Writes the answer for each pair, if both lists of words have as many fractions as there are answers.
#[inline(always)]
pub fn each_strided<C: Call<Pair64, B>, B: Drop>(
    call: &C,
    left: &[i64],
    left_stride: usize,
    right: &[i64],
    right_stride: usize,
    answers: &mut [B],
) -> u32
    ensures { AnswersStrided (C.gives call.now) left.now left_stride right.now right_stride answers.old answers.new result }
{
    let count = answers.len();
    if !reaches(left, left_stride, count) || !reaches(right, right_stride, count) {
        return BAD_LENGTH;
    }
    for i in 0..count {
        let pair = Pair64 {
            left: fraction_at(left, left_stride, i),
            right: fraction_at(right, right_stride, i),
        };
        answers[i] = call.answer(&pair);
    }
    DONE
}

/// Whether the words have so many fractions, each so many words after the one before.
#[inline(always)]
fn reaches(words: &[i64], stride: usize, count: usize) -> bool
    ensures { IsTrue result ↔ Reaches words.now stride count }
{
    if count == 0 {
        return true;
    }
    if words.len() < 2 {
        return false;
    }
    stride == 0 || count - 1 <= (words.len() - 2) / stride
}

/// The fraction at a place.
#[inline(always)]
fn fraction_at(words: &[i64], stride: usize, place: usize) -> Fraction64
    requires { place * stride + 1 < length words.now }
    ensures { result ≡ strided words.now stride place }
{
    let first = place * stride;
    Fraction64 {
        numer: words[first],
        denom: words[first + 1],
    }
}

/// The sum of each pair, whose fractions lie apart.
#[unsafe(no_mangle)]
pub extern "C" fn ratio_add_strided_i64(
    left: &[i64],
    left_stride: u64,
    right: &[i64],
    right_stride: u64,
    answers: &mut [Answer64],
) -> u32
    ensures { AnswersStrided (λ x answer. IsSumAnswer least64 greatest64 (fraction64 x.left) (fraction64 x.right) (said64 answer)) left.now left_stride right.now right_stride answers.old answers.new result }
{
    each_strided(
        &Sum,
        left,
        left_stride as usize,
        right,
        right_stride as usize,
        answers,
    )
}

/// The difference of each pair, whose fractions lie apart.
#[unsafe(no_mangle)]
pub extern "C" fn ratio_sub_strided_i64(
    left: &[i64],
    left_stride: u64,
    right: &[i64],
    right_stride: u64,
    answers: &mut [Answer64],
) -> u32
    ensures { AnswersStrided (λ x answer. IsDifferenceAnswer least64 greatest64 (fraction64 x.left) (fraction64 x.right) (said64 answer)) left.now left_stride right.now right_stride answers.old answers.new result }
{
    each_strided(
        &Difference,
        left,
        left_stride as usize,
        right,
        right_stride as usize,
        answers,
    )
}

/// The product of each pair, whose fractions lie apart.
#[unsafe(no_mangle)]
pub extern "C" fn ratio_mul_strided_i64(
    left: &[i64],
    left_stride: u64,
    right: &[i64],
    right_stride: u64,
    answers: &mut [Answer64],
) -> u32
    ensures { AnswersStrided (λ x answer. IsProductAnswer least64 greatest64 (fraction64 x.left) (fraction64 x.right) (said64 answer)) left.now left_stride right.now right_stride answers.old answers.new result }
{
    each_strided(
        &Product,
        left,
        left_stride as usize,
        right,
        right_stride as usize,
        answers,
    )
}

/// The quotient of each pair, whose fractions lie apart.
#[unsafe(no_mangle)]
pub extern "C" fn ratio_div_strided_i64(
    left: &[i64],
    left_stride: u64,
    right: &[i64],
    right_stride: u64,
    answers: &mut [Answer64],
) -> u32
    ensures { AnswersStrided (λ x answer. IsQuotientAnswer least64 greatest64 (fraction64 x.left) (fraction64 x.right) (said64 answer)) left.now left_stride right.now right_stride answers.old answers.new result }
{
    each_strided(
        &Quotient,
        left,
        left_stride as usize,
        right,
        right_stride as usize,
        answers,
    )
}

/// The order of each pair, whose fractions lie apart.
#[unsafe(no_mangle)]
pub extern "C" fn ratio_compare_strided_i64(
    left: &[i64],
    left_stride: u64,
    right: &[i64],
    right_stride: u64,
    answers: &mut [Order],
) -> u32
    ensures { AnswersStrided (λ x answer. IsOrderAnswer (fraction64 x.left) (fraction64 x.right) answer.code answer.order) left.now left_stride right.now right_stride answers.old answers.new result }
{
    each_strided(
        &Comparison,
        left,
        left_stride as usize,
        right,
        right_stride as usize,
        answers,
    )
}
