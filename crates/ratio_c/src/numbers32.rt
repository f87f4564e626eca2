// Written by templates/write from templates/numbers.rt.txt: change that file, and write this one anew.
//! The structs of C with fractions of `i32`, and the exported calls over slices of them, such as `ratio_add_i32`.
ghost use Rattle.std.specs.Prelude.{true};
ghost use Rattle.ratio_integer.specs.SignedBits.{greatest128, greatest32, greatest64, least128, least32, least64};
ghost use Rattle.ratio_c.specs.Calls.{AnswersEach, IsAbsoluteAnswer, IsBetweenAnswer, IsCastAnswer, IsCeilingAnswer, IsConvergentAnswer, IsDifferenceAnswer, IsEqualAnswer, IsFloorAnswer, IsFromFloatAnswer, IsHashAnswer, IsLowestAnswer, IsNearestAnswer, IsNegationAnswer, IsOrderAnswer, IsPowerAnswer, IsProductAnswer, IsQuotientAnswer, IsRationalAnswer, IsReadAnswer, IsRemainderAnswer, IsRoundAnswer, IsRoundToAnswer, IsScaledAnswer, IsSumAnswer, IsToFloatAnswer, IsTruncationAnswer, SaysDecimal, SaysText, SaysTyped};
ghost use Rattle.ratio_c.specs.Codes.{decimal_room32, room32};
ghost use Rattle.ratio_c.specs.Crossing.{wide_number};
ghost use Rattle.ratio_c.specs.LowestHash.{IsLowestHashAnswer};
ghost use Rattle.ratio_c.specs.Numbers32.{fraction32, said32};
ghost use Rattle.ratio_c.specs.Numbers64.{said64};
ghost use Rattle.ratio_c.specs.Numbers128.{said128};
ghost use Rattle.ratio_c.specs.Pairs.{IsGcdAnswer, IsLcmAnswer, IsProductToAnswer, IsQuotientToAnswer, IsRoundedProductAnswer};
ghost use Rattle.ratio_c.specs.Texts.{Prints, ShowsDecimal, ShowsFields};

use crate::arithmetic::{Difference, Product, Quotient, Remainder, Sum};
use crate::compare::{Comparison, Equality, Order, Truth};
use crate::crossing::{
    Bounded, FlaggedBounds, OneFraction, Parted, PartedPair, Placed, Pointed, Raised, Reply, Ruled,
    RuledPair, TwoFractions,
};
use crate::decimal::{DecimalTexts, Decimals};
use crate::divisors::{CommonDivisor, CommonMultiple};
use crate::each::each;
use crate::floats::{Float, FromFloat, Rationalizing, ToFloat};
use crate::hash::{Hash, Hashing, LowestHashing};
use crate::near::{Between, ConvergentAt, Nearest};
use crate::numbers64::Answer64;
use crate::numbers128::Answer128;
use crate::one_fraction::{
    Absolute, Casting, Ceiling, Floor, LowestTerms, Negation, Raising, RoundingToWhole, Truncation,
};
use crate::printing::{Fields, Text, print};
use crate::reading::{Fractions, Reading, Span, TypedTexts};
use crate::rounded::{ProductTo, QuotientTo, RoundedProduct, RoundingTo};
use crate::scaled::{Scaled, Scaling};

/// The room for a text: a slash, and two numbers of at most 11 bytes.
pub const ROOM: usize = 23;

/// The room for a decimal: a number of at most 11 bytes, a point and 38 digits.
pub const DECIMAL_ROOM: usize = 50;

/// A fraction as its two numbers.
#[repr(C)]
#[derive(Drop)]
pub struct Fraction32 {
    pub numer: i32,
    pub denom: i32,
}

/// Two fractions.
#[repr(C)]
#[derive(Drop)]
pub struct Pair32 {
    pub left: Fraction32,
    pub right: Fraction32,
}

/// Two fractions, and the rule by which their product is rounded.
#[repr(C)]
#[derive(Drop)]
pub struct Factors32 {
    pub left: Fraction32,
    pub right: Fraction32,
    pub rule: u32,
}

/// A fraction and the exponent of its power.
#[repr(C)]
#[derive(Drop)]
pub struct Power32 {
    pub base: Fraction32,
    pub exponent: i32,
}

/// A fraction and the greatest denominator of the nearest one.
#[repr(C)]
#[derive(Drop)]
pub struct Bounded32 {
    pub value: Fraction32,
    pub most: i32,
}

/// A fraction and the place of one of its convergents.
#[repr(C)]
#[derive(Drop)]
pub struct Place32 {
    pub value: Fraction32,
    pub place: u32,
}

/// The bounds of a fraction, and flags that say which of them is included, and which is open.
#[repr(C)]
#[derive(Drop)]
pub struct Bounds32 {
    pub low: Fraction32,
    pub high: Fraction32,
    pub flags: u32,
}

/// A fraction, a number of parts of 1, and the rule by which it is rounded to a multiple of one part.
#[repr(C)]
#[derive(Drop)]
pub struct Multiple32 {
    pub value: Fraction32,
    pub parts: i32,
    pub rule: u32,
}

/// Two fractions, a number of parts of 1, and the rule by which their product or quotient is rounded to a multiple of one
/// part.
#[repr(C)]
#[derive(Drop)]
pub struct Operands32 {
    pub left: Fraction32,
    pub right: Fraction32,
    pub parts: i32,
    pub rule: u32,
}

/// A fraction, a number of decimal places, and the rule by which it is rounded to so many.
#[repr(C)]
#[derive(Drop)]
pub struct Decimal32 {
    pub value: Fraction32,
    pub places: u32,
    pub rule: u32,
}

/// A fraction. If there is none, the code says why, and the value is 0 over 0.
#[repr(C)]
#[derive(Drop)]
pub struct Answer32 {
    pub code: u32,
    pub value: Fraction32,
}

impl OneFraction for Fraction32 {
    type Inside = i32;

    ghost fraction = { fraction32 };

    #[inline(always)]
    fn fraction(&self) -> (i32, i32) {
        (self.numer, self.denom)
    }
}

impl OneFraction for Power32 {
    type Inside = i32;

    ghost fraction = { λ x. fraction32 x.base };

    #[inline(always)]
    fn fraction(&self) -> (i32, i32) {
        (self.base.numer, self.base.denom)
    }
}

impl Raised for Power32 {
    ghost exponent = { λ x. x.exponent };

    #[inline(always)]
    fn exponent(&self) -> i32 {
        self.exponent
    }
}

impl OneFraction for Bounded32 {
    type Inside = i32;

    ghost fraction = { λ x. fraction32 x.value };

    #[inline(always)]
    fn fraction(&self) -> (i32, i32) {
        (self.value.numer, self.value.denom)
    }
}

impl Bounded for Bounded32 {
    ghost most = { λ x. x.most };

    #[inline(always)]
    fn most(&self) -> i32 {
        self.most
    }
}

impl OneFraction for Place32 {
    type Inside = i32;

    ghost fraction = { λ x. fraction32 x.value };

    #[inline(always)]
    fn fraction(&self) -> (i32, i32) {
        (self.value.numer, self.value.denom)
    }
}

impl Placed for Place32 {
    ghost place = { λ x. x.place };

    #[inline(always)]
    fn place(&self) -> u32 {
        self.place
    }
}

impl OneFraction for Multiple32 {
    type Inside = i32;

    ghost fraction = { λ x. fraction32 x.value };

    #[inline(always)]
    fn fraction(&self) -> (i32, i32) {
        (self.value.numer, self.value.denom)
    }
}

impl Ruled for Multiple32 {
    ghost rule = { λ x. x.rule };

    #[inline(always)]
    fn rule(&self) -> u32 {
        self.rule
    }
}

impl Parted for Multiple32 {
    ghost parts = { λ x. x.parts };

    #[inline(always)]
    fn parts(&self) -> i32 {
        self.parts
    }
}

impl OneFraction for Decimal32 {
    type Inside = i32;

    ghost fraction = { λ x. fraction32 x.value };

    #[inline(always)]
    fn fraction(&self) -> (i32, i32) {
        (self.value.numer, self.value.denom)
    }
}

impl Ruled for Decimal32 {
    ghost rule = { λ x. x.rule };

    #[inline(always)]
    fn rule(&self) -> u32 {
        self.rule
    }
}

impl Pointed for Decimal32 {
    ghost places = { λ x. x.places };

    #[inline(always)]
    fn places(&self) -> u32 {
        self.places
    }
}

impl TwoFractions for Bounds32 {
    type Inside = i32;

    ghost left = { λ x. fraction32 x.low };

    ghost right = { λ x. fraction32 x.high };

    #[inline(always)]
    fn left(&self) -> (i32, i32) {
        (self.low.numer, self.low.denom)
    }

    #[inline(always)]
    fn right(&self) -> (i32, i32) {
        (self.high.numer, self.high.denom)
    }
}

impl FlaggedBounds for Bounds32 {
    ghost flags = { λ x. x.flags };

    #[inline(always)]
    fn flags(&self) -> u32 {
        self.flags
    }
}

impl TwoFractions for Pair32 {
    type Inside = i32;

    ghost left = { λ x. fraction32 x.left };

    ghost right = { λ x. fraction32 x.right };

    #[inline(always)]
    fn left(&self) -> (i32, i32) {
        (self.left.numer, self.left.denom)
    }

    #[inline(always)]
    fn right(&self) -> (i32, i32) {
        (self.right.numer, self.right.denom)
    }
}

impl TwoFractions for Factors32 {
    type Inside = i32;

    ghost left = { λ x. fraction32 x.left };

    ghost right = { λ x. fraction32 x.right };

    #[inline(always)]
    fn left(&self) -> (i32, i32) {
        (self.left.numer, self.left.denom)
    }

    #[inline(always)]
    fn right(&self) -> (i32, i32) {
        (self.right.numer, self.right.denom)
    }
}

impl RuledPair for Factors32 {
    ghost rule = { λ x. x.rule };

    #[inline(always)]
    fn rule(&self) -> u32 {
        self.rule
    }
}

impl TwoFractions for Operands32 {
    type Inside = i32;

    ghost left = { λ x. fraction32 x.left };

    ghost right = { λ x. fraction32 x.right };

    #[inline(always)]
    fn left(&self) -> (i32, i32) {
        (self.left.numer, self.left.denom)
    }

    #[inline(always)]
    fn right(&self) -> (i32, i32) {
        (self.right.numer, self.right.denom)
    }
}

impl RuledPair for Operands32 {
    ghost rule = { λ x. x.rule };

    #[inline(always)]
    fn rule(&self) -> u32 {
        self.rule
    }
}

impl PartedPair for Operands32 {
    ghost parts = { λ x. x.parts };

    #[inline(always)]
    fn parts(&self) -> i32 {
        self.parts
    }
}

impl Reply<i32> for Answer32 {
    ghost said = { said32 };

    #[inline(always)]
    fn reply(code: u32, numer: i32, denom: i32) -> Answer32 {
        let value = Fraction32 { numer, denom };
        Answer32 { code, value }
    }
}

/// The order of each pair, by value.
#[unsafe(no_mangle)]
pub extern "C" fn ratio_compare_i32(asked: &[Pair32], answers: &mut [Order]) -> u32
    ensures { AnswersEach (λ x answer. IsOrderAnswer (fraction32 x.left) (fraction32 x.right) answer.code answer.order) asked.now answers.old answers.new result }
{
    each(&Comparison, asked, answers)
}

/// Whether the fractions of each pair have the same value.
#[unsafe(no_mangle)]
pub extern "C" fn ratio_equal_i32(asked: &[Pair32], answers: &mut [Truth]) -> u32
    ensures { AnswersEach (λ x answer. IsEqualAnswer (fraction32 x.left) (fraction32 x.right) answer.code answer.holds) asked.now answers.old answers.new result }
{
    each(&Equality, asked, answers)
}

/// The hash of each fraction.
#[unsafe(no_mangle)]
pub extern "C" fn ratio_hash_i32(asked: &[Fraction32], answers: &mut [Hash]) -> u32
    ensures { AnswersEach (λ x answer. IsHashAnswer least32 greatest32 (fraction32 x) answer.code answer.hash) asked.now answers.old answers.new result }
{
    each(&Hashing, asked, answers)
}

/// The sum of each pair.
#[unsafe(no_mangle)]
pub extern "C" fn ratio_add_i32(asked: &[Pair32], answers: &mut [Answer32]) -> u32
    ensures { AnswersEach (λ x answer. IsSumAnswer least32 greatest32 (fraction32 x.left) (fraction32 x.right) (said32 answer)) asked.now answers.old answers.new result }
{
    each(&Sum, asked, answers)
}

/// The difference of each pair.
#[unsafe(no_mangle)]
pub extern "C" fn ratio_sub_i32(asked: &[Pair32], answers: &mut [Answer32]) -> u32
    ensures { AnswersEach (λ x answer. IsDifferenceAnswer least32 greatest32 (fraction32 x.left) (fraction32 x.right) (said32 answer)) asked.now answers.old answers.new result }
{
    each(&Difference, asked, answers)
}

/// The product of each pair.
#[unsafe(no_mangle)]
pub extern "C" fn ratio_mul_i32(asked: &[Pair32], answers: &mut [Answer32]) -> u32
    ensures { AnswersEach (λ x answer. IsProductAnswer least32 greatest32 (fraction32 x.left) (fraction32 x.right) (said32 answer)) asked.now answers.old answers.new result }
{
    each(&Product, asked, answers)
}

/// The quotient of each pair.
#[unsafe(no_mangle)]
pub extern "C" fn ratio_div_i32(asked: &[Pair32], answers: &mut [Answer32]) -> u32
    ensures { AnswersEach (λ x answer. IsQuotientAnswer least32 greatest32 (fraction32 x.left) (fraction32 x.right) (said32 answer)) asked.now answers.old answers.new result }
{
    each(&Quotient, asked, answers)
}

/// The remainder of each pair.
#[unsafe(no_mangle)]
pub extern "C" fn ratio_rem_i32(asked: &[Pair32], answers: &mut [Answer32]) -> u32
    ensures { AnswersEach (λ x answer. IsRemainderAnswer true least32 greatest32 (fraction32 x.left) (fraction32 x.right) (said32 answer)) asked.now answers.old answers.new result }
{
    each(&Remainder, asked, answers)
}

/// The greatest fraction that divides both of each pair.
#[unsafe(no_mangle)]
pub extern "C" fn ratio_gcd_i32(asked: &[Pair32], answers: &mut [Answer32]) -> u32
    ensures { AnswersEach (λ x answer. IsGcdAnswer least32 greatest32 (fraction32 x.left) (fraction32 x.right) (said32 answer)) asked.now answers.old answers.new result }
{
    each(&CommonDivisor, asked, answers)
}

/// The least fraction above 0 that both of each pair divide.
#[unsafe(no_mangle)]
pub extern "C" fn ratio_lcm_i32(asked: &[Pair32], answers: &mut [Answer32]) -> u32
    ensures { AnswersEach (λ x answer. IsLcmAnswer least32 greatest32 (fraction32 x.left) (fraction32 x.right) (said32 answer)) asked.now answers.old answers.new result }
{
    each(&CommonMultiple, asked, answers)
}

/// The product of each pair, rounded by a rule, over 1.
#[unsafe(no_mangle)]
pub extern "C" fn ratio_mul_round_i32(asked: &[Factors32], answers: &mut [Answer32]) -> u32
    ensures { AnswersEach (λ x answer. IsRoundedProductAnswer least32 greatest32 (fraction32 x.left) (fraction32 x.right) x.rule (said32 answer)) asked.now answers.old answers.new result }
{
    each(&RoundedProduct, asked, answers)
}

/// The product of each pair, rounded by a rule to a multiple of 1/parts.
#[unsafe(no_mangle)]
pub extern "C" fn ratio_mul_round_to_i32(asked: &[Operands32], answers: &mut [Answer32]) -> u32
    ensures { AnswersEach (λ x answer. IsProductToAnswer least32 greatest32 (fraction32 x.left) (fraction32 x.right) x.parts x.rule (said32 answer)) asked.now answers.old answers.new result }
{
    each(&ProductTo, asked, answers)
}

/// The quotient of each pair, rounded in the same way.
#[unsafe(no_mangle)]
pub extern "C" fn ratio_div_round_to_i32(asked: &[Operands32], answers: &mut [Answer32]) -> u32
    ensures { AnswersEach (λ x answer. IsQuotientToAnswer least32 greatest32 (fraction32 x.left) (fraction32 x.right) x.parts x.rule (said32 answer)) asked.now answers.old answers.new result }
{
    each(&QuotientTo, asked, answers)
}

/// The lowest terms of each fraction.
#[unsafe(no_mangle)]
pub extern "C" fn ratio_reduce_i32(asked: &[Fraction32], answers: &mut [Answer32]) -> u32
    ensures { AnswersEach (λ x answer. IsLowestAnswer least32 greatest32 (fraction32 x) (said32 answer)) asked.now answers.old answers.new result }
{
    each(&LowestTerms, asked, answers)
}

/// The negative of each fraction, not reduced.
#[unsafe(no_mangle)]
pub extern "C" fn ratio_neg_i32(asked: &[Fraction32], answers: &mut [Answer32]) -> u32
    ensures { AnswersEach (λ x answer. IsNegationAnswer least32 greatest32 (fraction32 x) (said32 answer)) asked.now answers.old answers.new result }
{
    each(&Negation, asked, answers)
}

/// The absolute value of each fraction, not reduced.
#[unsafe(no_mangle)]
pub extern "C" fn ratio_abs_i32(asked: &[Fraction32], answers: &mut [Answer32]) -> u32
    ensures { AnswersEach (λ x answer. IsAbsoluteAnswer least32 greatest32 (fraction32 x) (said32 answer)) asked.now answers.old answers.new result }
{
    each(&Absolute, asked, answers)
}

/// The floor of each fraction, over 1.
#[unsafe(no_mangle)]
pub extern "C" fn ratio_floor_i32(asked: &[Fraction32], answers: &mut [Answer32]) -> u32
    ensures { AnswersEach (λ x answer. IsFloorAnswer (fraction32 x) (said32 answer)) asked.now answers.old answers.new result }
{
    each(&Floor, asked, answers)
}

/// The ceiling of each fraction, over 1.
#[unsafe(no_mangle)]
pub extern "C" fn ratio_ceil_i32(asked: &[Fraction32], answers: &mut [Answer32]) -> u32
    ensures { AnswersEach (λ x answer. IsCeilingAnswer (fraction32 x) (said32 answer)) asked.now answers.old answers.new result }
{
    each(&Ceiling, asked, answers)
}

/// Each fraction cut towards zero, over 1.
#[unsafe(no_mangle)]
pub extern "C" fn ratio_trunc_i32(asked: &[Fraction32], answers: &mut [Answer32]) -> u32
    ensures { AnswersEach (λ x answer. IsTruncationAnswer (fraction32 x) (said32 answer)) asked.now answers.old answers.new result }
{
    each(&Truncation, asked, answers)
}

/// Each fraction rounded, a half away from zero.
#[unsafe(no_mangle)]
pub extern "C" fn ratio_round_i32(asked: &[Fraction32], answers: &mut [Answer32]) -> u32
    ensures { AnswersEach (λ x answer. IsRoundAnswer (fraction32 x) (said32 answer)) asked.now answers.old answers.new result }
{
    each(&RoundingToWhole, asked, answers)
}

/// The power of each fraction, not reduced.
#[unsafe(no_mangle)]
pub extern "C" fn ratio_pow_i32(asked: &[Power32], answers: &mut [Answer32]) -> u32
    ensures { AnswersEach (λ x answer. IsPowerAnswer least32 greatest32 (fraction32 x.base) x.exponent (said32 answer)) asked.now answers.old answers.new result }
{
    each(&Raising, asked, answers)
}

/// The nearest fraction with a denominator from 1 to the bound.
#[unsafe(no_mangle)]
pub extern "C" fn ratio_nearest_i32(asked: &[Bounded32], answers: &mut [Answer32]) -> u32
    ensures { AnswersEach (λ x answer. IsNearestAnswer (fraction32 x.value) x.most (said32 answer)) asked.now answers.old answers.new result }
{
    each(&Nearest, asked, answers)
}

/// The simplest fraction within the bounds.
#[unsafe(no_mangle)]
pub extern "C" fn ratio_between_i32(asked: &[Bounds32], answers: &mut [Answer32]) -> u32
    ensures { AnswersEach (λ x answer. IsBetweenAnswer least32 greatest32 (fraction32 x.low) (fraction32 x.high) x.flags (said32 answer)) asked.now answers.old answers.new result }
{
    each(&Between, asked, answers)
}

/// The multiple of 1/parts that the rule says.
#[unsafe(no_mangle)]
pub extern "C" fn ratio_round_to_i32(asked: &[Multiple32], answers: &mut [Answer32]) -> u32
    ensures { AnswersEach (λ x answer. IsRoundToAnswer least32 greatest32 (fraction32 x.value) x.parts x.rule (said32 answer)) asked.now answers.old answers.new result }
{
    each(&RoundingTo, asked, answers)
}

/// The lowest terms of each number by 10^scale.
#[unsafe(no_mangle)]
pub extern "C" fn ratio_from_scaled_i32(asked: &[Scaled], answers: &mut [Answer32]) -> u32
    ensures { AnswersEach (λ x answer. IsScaledAnswer least32 greatest32 (wide_number x.number) x.scale (said32 answer)) asked.now answers.old answers.new result }
{
    each(&Scaling::<i32>::new(), asked, answers)
}

/// The convergent of each fraction at its place, from 0 on.
#[unsafe(no_mangle)]
pub extern "C" fn ratio_convergent_i32(asked: &[Place32], answers: &mut [Answer32]) -> u32
    ensures { AnswersEach (λ x answer. IsConvergentAnswer (fraction32 x.value) x.place (said32 answer)) asked.now answers.old answers.new result }
{
    each(&ConvergentAt, asked, answers)
}

/// The lowest terms of exactly the value of each float.
#[unsafe(no_mangle)]
pub extern "C" fn ratio_from_f64_i32(asked: &[f64], answers: &mut [Answer32]) -> u32
    ensures { AnswersEach (λ x answer. IsFromFloatAnswer least32 greatest32 x (said32 answer)) asked.now answers.old answers.new result }
{
    each(&FromFloat::<i32>::new(), asked, answers)
}

/// The simplest fraction that rounds to each float.
#[unsafe(no_mangle)]
pub extern "C" fn ratio_rationalize_i32(asked: &[f64], answers: &mut [Answer32]) -> u32
    ensures { AnswersEach (λ x answer. IsRationalAnswer least32 greatest32 x (said32 answer)) asked.now answers.old answers.new result }
{
    each(&Rationalizing::<i32>::new(), asked, answers)
}

/// The float nearest to each fraction.
#[unsafe(no_mangle)]
pub extern "C" fn ratio_to_f64_i32(asked: &[Fraction32], answers: &mut [Float]) -> u32
    ensures { AnswersEach (λ x answer. IsToFloatAnswer (fraction32 x) answer.code answer.value) asked.now answers.old answers.new result }
{
    each(&ToFloat, asked, answers)
}

/// The hash of each fraction in lowest terms.
#[unsafe(no_mangle)]
pub extern "C" fn ratio_hash_lowest_i32(asked: &[Fraction32], answers: &mut [Hash]) -> u32
    ensures { AnswersEach (λ x answer. IsLowestHashAnswer (fraction32 x) answer.code answer.hash) asked.now answers.old answers.new result }
{
    each(&LowestHashing, asked, answers)
}

/// Each fraction over `i64`, not reduced.
#[unsafe(no_mangle)]
pub extern "C" fn ratio_cast_i32_to_i64(asked: &[Fraction32], answers: &mut [Answer64]) -> u32
    ensures { AnswersEach (λ x answer. IsCastAnswer least64 greatest64 (fraction32 x) (said64 answer)) asked.now answers.old answers.new result }
{
    each(&Casting::<i64>::new(), asked, answers)
}

/// Each fraction over `i128`, not reduced.
#[unsafe(no_mangle)]
pub extern "C" fn ratio_cast_i32_to_i128(asked: &[Fraction32], answers: &mut [Answer128]) -> u32
    ensures { AnswersEach (λ x answer. IsCastAnswer least128 greatest128 (fraction32 x) (said128 answer)) asked.now answers.old answers.new result }
{
    each(&Casting::<i128>::new(), asked, answers)
}

/// The fraction of each text in `texts`. The spans name the texts.
#[unsafe(no_mangle)]
pub extern "C" fn ratio_read_i32(texts: &[u8], spans: &[Span], answers: &mut [Answer32]) -> u32
    ensures { AnswersEach (λ span answer. IsReadAnswer (SaysText least32 greatest32) texts.now span.start span.end (said32 answer)) spans.now answers.old answers.new result }
{
    let reader = Fractions::<i32>::new();
    each(&Reading { texts, reader }, spans, answers)
}

/// The fraction of each decimal in `texts`, such as `-1.5e-3`, which the spans name.
#[unsafe(no_mangle)]
pub extern "C" fn ratio_read_decimal_i32(
    texts: &[u8],
    spans: &[Span],
    answers: &mut [Answer32],
) -> u32
    ensures { AnswersEach (λ span answer. IsReadAnswer (SaysDecimal least32 greatest32) texts.now span.start span.end (said32 answer)) spans.now answers.old answers.new result }
{
    let reader = DecimalTexts::<i32>::new();
    each(&Reading { texts, reader }, spans, answers)
}

/// The fraction of each text that a person typed, such as `-1 1/2` and `12.5%`. The spans name the texts.
#[unsafe(no_mangle)]
pub extern "C" fn ratio_read_text_i32(texts: &[u8], spans: &[Span], answers: &mut [Answer32]) -> u32
    ensures { AnswersEach (λ span answer. IsReadAnswer (SaysTyped least32 greatest32) texts.now span.start span.end (said32 answer)) spans.now answers.old answers.new result }
{
    let reader = TypedTexts::<i32>::new();
    each(&Reading { texts, reader }, spans, answers)
}

/// The text of each fraction, not reduced, one after another in `texts`, which has `ROOM` bytes for each.
#[unsafe(no_mangle)]
pub extern "C" fn ratio_print_i32(
    asked: &[Fraction32],
    texts: &mut [u8],
    answers: &mut [Text],
) -> u32
    ensures { Prints (λ x. ShowsFields 32 (fraction32 x)) room32 asked.now texts.old texts.new answers.old answers.new result }
{
    print(&Fields, asked, ROOM, texts, answers)
}

/// The text of each fraction as a decimal, one after another in `texts`, which has `DECIMAL_ROOM` bytes for each.
#[unsafe(no_mangle)]
pub extern "C" fn ratio_print_decimal_i32(
    asked: &[Decimal32],
    texts: &mut [u8],
    answers: &mut [Text],
) -> u32
    ensures { Prints (λ x. ShowsDecimal (fraction32 x.value) x.places x.rule) decimal_room32 asked.now texts.old texts.new answers.old answers.new result }
{
    print(&Decimals, asked, DECIMAL_ROOM, texts, answers)
}
