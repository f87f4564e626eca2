// Written by templates/write from templates/numbers.rt.txt: change that file, and write this one anew.
//! The structs of C with fractions of `i128`, and the exported calls over slices of them, such as `ratio_add_i128`.
ghost use Rattle.std.specs.Prelude.{true};
ghost use Rattle.ratio_integer.specs.SignedBits.{greatest128, greatest32, greatest64, least128, least32, least64};
ghost use Rattle.ratio_c.specs.Calls.{AnswersEach, IsAbsoluteAnswer, IsBetweenAnswer, IsCastAnswer, IsCeilingAnswer, IsConvergentAnswer, IsDifferenceAnswer, IsEqualAnswer, IsFloorAnswer, IsFromFloatAnswer, IsHashAnswer, IsLowestAnswer, IsNearestAnswer, IsNegationAnswer, IsOrderAnswer, IsPowerAnswer, IsProductAnswer, IsQuotientAnswer, IsRationalAnswer, IsReadAnswer, IsRemainderAnswer, IsRoundAnswer, IsRoundToAnswer, IsScaledAnswer, IsSumAnswer, IsToFloatAnswer, IsTruncationAnswer, SaysDecimal, SaysText, SaysTyped};
ghost use Rattle.ratio_c.specs.Codes.{decimal_room128, room128};
ghost use Rattle.ratio_c.specs.Crossing.{wide_number};
ghost use Rattle.ratio_c.specs.Numbers128.{fraction128, said128};
ghost use Rattle.ratio_c.specs.Numbers32.{said32};
ghost use Rattle.ratio_c.specs.Numbers64.{said64};
ghost use Rattle.ratio_c.specs.Pairs.{IsGcdAnswer, IsLcmAnswer, IsProductToAnswer, IsQuotientToAnswer, IsRoundedProductAnswer};
ghost use Rattle.ratio_c.specs.Texts.{Prints, ShowsDecimal, ShowsFields};

use crate::arithmetic::{Difference, Product, Quotient, Remainder, Sum};
use crate::compare::{Comparison, Equality, Order, Truth};
use crate::crossing::{
    Bounded, FlaggedBounds, OneFraction, Parted, PartedPair, Placed, Pointed, Raised, Reply, Ruled,
    RuledPair, TwoFractions,
};
use crate::decimal::{DecimalTexts, Decimals};
use crate::divisors::{CommonDivisor, CommonMultiple};
use crate::each::each;
use crate::floats::{Float, FromFloat, Rationalizing, ToFloat};
use crate::hash::{Hash, Hashing};
use crate::near::{Between, ConvergentAt, Nearest};
use crate::numbers32::Answer32;
use crate::numbers64::Answer64;
use crate::one_fraction::{
    Absolute, Casting, Ceiling, Floor, LowestTerms, Negation, Raising, RoundingToWhole, Truncation,
};
use crate::printing::{Fields, Text, print};
use crate::reading::{Fractions, Reading, Span, TypedTexts};
use crate::rounded::{ProductTo, QuotientTo, RoundedProduct, RoundingTo};
use crate::scaled::{Scaled, Scaling};
use crate::wide::Wide;

/// The room for a text: a slash, and two numbers of at most 40 bytes.
pub const ROOM: usize = 81;

/// The room for a decimal: a number of at most 40 bytes, a point and 38 digits.
pub const DECIMAL_ROOM: usize = 79;

/// A fraction as its two numbers.
#[repr(C)]
#[derive(Drop)]
pub struct Fraction128 {
    pub numer: Wide,
    pub denom: Wide,
}

/// Two fractions.
#[repr(C)]
#[derive(Drop)]
pub struct Pair128 {
    pub left: Fraction128,
    pub right: Fraction128,
}

/// Two fractions, and the rule by which their product is rounded.
#[repr(C)]
#[derive(Drop)]
pub struct Factors128 {
    pub left: Fraction128,
    pub right: Fraction128,
    pub rule: u32,
}

/// A fraction and the exponent of its power.
#[repr(C)]
#[derive(Drop)]
pub struct Power128 {
    pub base: Fraction128,
    pub exponent: i32,
}

/// A fraction and the greatest denominator of the nearest one.
#[repr(C)]
#[derive(Drop)]
pub struct Bounded128 {
    pub value: Fraction128,
    pub most: Wide,
}

/// A fraction and the place of one of its convergents.
#[repr(C)]
#[derive(Drop)]
pub struct Place128 {
    pub value: Fraction128,
    pub place: u32,
}

/// The bounds of a fraction, and flags that say which of them is included, and which is open.
#[repr(C)]
#[derive(Drop)]
pub struct Bounds128 {
    pub low: Fraction128,
    pub high: Fraction128,
    pub flags: u32,
}

/// A fraction, a number of parts of 1, and the rule by which it is rounded to a multiple of one part.
#[repr(C)]
#[derive(Drop)]
pub struct Multiple128 {
    pub value: Fraction128,
    pub parts: Wide,
    pub rule: u32,
}

/// Two fractions, a number of parts of 1, and the rule by which their product or quotient is rounded to a multiple of one
/// part.
#[repr(C)]
#[derive(Drop)]
pub struct Operands128 {
    pub left: Fraction128,
    pub right: Fraction128,
    pub parts: Wide,
    pub rule: u32,
}

/// A fraction, a number of decimal places, and the rule by which it is rounded to so many.
#[repr(C)]
#[derive(Drop)]
pub struct Decimal128 {
    pub value: Fraction128,
    pub places: u32,
    pub rule: u32,
}

/// A fraction. If there is none, the code says why, and the value is 0 over 0.
#[repr(C)]
#[derive(Drop)]
pub struct Answer128 {
    pub code: u32,
    pub value: Fraction128,
}

impl OneFraction for Fraction128 {
    type Inside = i128;

    ghost fraction = { fraction128 };

    #[inline(always)]
    fn fraction(&self) -> (i128, i128) {
        (self.numer.number(), self.denom.number())
    }
}

impl OneFraction for Power128 {
    type Inside = i128;

    ghost fraction = { λ x. fraction128 x.base };

    #[inline(always)]
    fn fraction(&self) -> (i128, i128) {
        (self.base.numer.number(), self.base.denom.number())
    }
}

impl Raised for Power128 {
    ghost exponent = { λ x. x.exponent };

    #[inline(always)]
    fn exponent(&self) -> i32 {
        self.exponent
    }
}

impl OneFraction for Bounded128 {
    type Inside = i128;

    ghost fraction = { λ x. fraction128 x.value };

    #[inline(always)]
    fn fraction(&self) -> (i128, i128) {
        (self.value.numer.number(), self.value.denom.number())
    }
}

impl Bounded for Bounded128 {
    ghost most = { λ x. (wide_number x.most) };

    #[inline(always)]
    fn most(&self) -> i128 {
        self.most.number()
    }
}

impl OneFraction for Place128 {
    type Inside = i128;

    ghost fraction = { λ x. fraction128 x.value };

    #[inline(always)]
    fn fraction(&self) -> (i128, i128) {
        (self.value.numer.number(), self.value.denom.number())
    }
}

impl Placed for Place128 {
    ghost place = { λ x. x.place };

    #[inline(always)]
    fn place(&self) -> u32 {
        self.place
    }
}

impl OneFraction for Multiple128 {
    type Inside = i128;

    ghost fraction = { λ x. fraction128 x.value };

    #[inline(always)]
    fn fraction(&self) -> (i128, i128) {
        (self.value.numer.number(), self.value.denom.number())
    }
}

impl Ruled for Multiple128 {
    ghost rule = { λ x. x.rule };

    #[inline(always)]
    fn rule(&self) -> u32 {
        self.rule
    }
}

impl Parted for Multiple128 {
    ghost parts = { λ x. (wide_number x.parts) };

    #[inline(always)]
    fn parts(&self) -> i128 {
        self.parts.number()
    }
}

impl OneFraction for Decimal128 {
    type Inside = i128;

    ghost fraction = { λ x. fraction128 x.value };

    #[inline(always)]
    fn fraction(&self) -> (i128, i128) {
        (self.value.numer.number(), self.value.denom.number())
    }
}

impl Ruled for Decimal128 {
    ghost rule = { λ x. x.rule };

    #[inline(always)]
    fn rule(&self) -> u32 {
        self.rule
    }
}

impl Pointed for Decimal128 {
    ghost places = { λ x. x.places };

    #[inline(always)]
    fn places(&self) -> u32 {
        self.places
    }
}

impl TwoFractions for Bounds128 {
    type Inside = i128;

    ghost left = { λ x. fraction128 x.low };

    ghost right = { λ x. fraction128 x.high };

    #[inline(always)]
    fn left(&self) -> (i128, i128) {
        (self.low.numer.number(), self.low.denom.number())
    }

    #[inline(always)]
    fn right(&self) -> (i128, i128) {
        (self.high.numer.number(), self.high.denom.number())
    }
}

impl FlaggedBounds for Bounds128 {
    ghost flags = { λ x. x.flags };

    #[inline(always)]
    fn flags(&self) -> u32 {
        self.flags
    }
}

impl TwoFractions for Pair128 {
    type Inside = i128;

    ghost left = { λ x. fraction128 x.left };

    ghost right = { λ x. fraction128 x.right };

    #[inline(always)]
    fn left(&self) -> (i128, i128) {
        (self.left.numer.number(), self.left.denom.number())
    }

    #[inline(always)]
    fn right(&self) -> (i128, i128) {
        (self.right.numer.number(), self.right.denom.number())
    }
}

impl TwoFractions for Factors128 {
    type Inside = i128;

    ghost left = { λ x. fraction128 x.left };

    ghost right = { λ x. fraction128 x.right };

    #[inline(always)]
    fn left(&self) -> (i128, i128) {
        (self.left.numer.number(), self.left.denom.number())
    }

    #[inline(always)]
    fn right(&self) -> (i128, i128) {
        (self.right.numer.number(), self.right.denom.number())
    }
}

impl RuledPair for Factors128 {
    ghost rule = { λ x. x.rule };

    #[inline(always)]
    fn rule(&self) -> u32 {
        self.rule
    }
}

impl TwoFractions for Operands128 {
    type Inside = i128;

    ghost left = { λ x. fraction128 x.left };

    ghost right = { λ x. fraction128 x.right };

    #[inline(always)]
    fn left(&self) -> (i128, i128) {
        (self.left.numer.number(), self.left.denom.number())
    }

    #[inline(always)]
    fn right(&self) -> (i128, i128) {
        (self.right.numer.number(), self.right.denom.number())
    }
}

impl RuledPair for Operands128 {
    ghost rule = { λ x. x.rule };

    #[inline(always)]
    fn rule(&self) -> u32 {
        self.rule
    }
}

impl PartedPair for Operands128 {
    ghost parts = { λ x. (wide_number x.parts) };

    #[inline(always)]
    fn parts(&self) -> i128 {
        self.parts.number()
    }
}

impl Reply<i128> for Answer128 {
    ghost said = { said128 };

    #[inline(always)]
    fn reply(code: u32, numer: i128, denom: i128) -> Answer128 {
        let value = Fraction128 {
            numer: Wide::of(numer),
            denom: Wide::of(denom),
        };
        Answer128 { code, value }
    }
}

/// The order of each pair, by value.
#[unsafe(no_mangle)]
pub extern "C" fn ratio_compare_i128(asked: &[Pair128], answers: &mut [Order]) -> u32
    ensures { AnswersEach (λ x answer. IsOrderAnswer (fraction128 x.left) (fraction128 x.right) answer.code answer.order) asked.now answers.old answers.new result }
{
    each(&Comparison, asked, answers)
}

/// Whether the fractions of each pair have the same value.
#[unsafe(no_mangle)]
pub extern "C" fn ratio_equal_i128(asked: &[Pair128], answers: &mut [Truth]) -> u32
    ensures { AnswersEach (λ x answer. IsEqualAnswer (fraction128 x.left) (fraction128 x.right) answer.code answer.holds) asked.now answers.old answers.new result }
{
    each(&Equality, asked, answers)
}

/// The hash of each fraction.
#[unsafe(no_mangle)]
pub extern "C" fn ratio_hash_i128(asked: &[Fraction128], answers: &mut [Hash]) -> u32
    ensures { AnswersEach (λ x answer. IsHashAnswer least128 greatest128 (fraction128 x) answer.code answer.hash) asked.now answers.old answers.new result }
{
    each(&Hashing, asked, answers)
}

/// The sum of each pair.
#[unsafe(no_mangle)]
pub extern "C" fn ratio_add_i128(asked: &[Pair128], answers: &mut [Answer128]) -> u32
    ensures { AnswersEach (λ x answer. IsSumAnswer least128 greatest128 (fraction128 x.left) (fraction128 x.right) (said128 answer)) asked.now answers.old answers.new result }
{
    each(&Sum, asked, answers)
}

/// The difference of each pair.
#[unsafe(no_mangle)]
pub extern "C" fn ratio_sub_i128(asked: &[Pair128], answers: &mut [Answer128]) -> u32
    ensures { AnswersEach (λ x answer. IsDifferenceAnswer least128 greatest128 (fraction128 x.left) (fraction128 x.right) (said128 answer)) asked.now answers.old answers.new result }
{
    each(&Difference, asked, answers)
}

/// The product of each pair.
#[unsafe(no_mangle)]
pub extern "C" fn ratio_mul_i128(asked: &[Pair128], answers: &mut [Answer128]) -> u32
    ensures { AnswersEach (λ x answer. IsProductAnswer least128 greatest128 (fraction128 x.left) (fraction128 x.right) (said128 answer)) asked.now answers.old answers.new result }
{
    each(&Product, asked, answers)
}

/// The quotient of each pair.
#[unsafe(no_mangle)]
pub extern "C" fn ratio_div_i128(asked: &[Pair128], answers: &mut [Answer128]) -> u32
    ensures { AnswersEach (λ x answer. IsQuotientAnswer least128 greatest128 (fraction128 x.left) (fraction128 x.right) (said128 answer)) asked.now answers.old answers.new result }
{
    each(&Quotient, asked, answers)
}

/// The remainder of each pair.
#[unsafe(no_mangle)]
pub extern "C" fn ratio_rem_i128(asked: &[Pair128], answers: &mut [Answer128]) -> u32
    ensures { AnswersEach (λ x answer. IsRemainderAnswer true least128 greatest128 (fraction128 x.left) (fraction128 x.right) (said128 answer)) asked.now answers.old answers.new result }
{
    each(&Remainder, asked, answers)
}

/// The greatest fraction that divides both of each pair.
#[unsafe(no_mangle)]
pub extern "C" fn ratio_gcd_i128(asked: &[Pair128], answers: &mut [Answer128]) -> u32
    ensures { AnswersEach (λ x answer. IsGcdAnswer least128 greatest128 (fraction128 x.left) (fraction128 x.right) (said128 answer)) asked.now answers.old answers.new result }
{
    each(&CommonDivisor, asked, answers)
}

/// The least fraction above 0 that both of each pair divide.
#[unsafe(no_mangle)]
pub extern "C" fn ratio_lcm_i128(asked: &[Pair128], answers: &mut [Answer128]) -> u32
    ensures { AnswersEach (λ x answer. IsLcmAnswer least128 greatest128 (fraction128 x.left) (fraction128 x.right) (said128 answer)) asked.now answers.old answers.new result }
{
    each(&CommonMultiple, asked, answers)
}

/// The product of each pair, rounded by a rule, over 1.
#[unsafe(no_mangle)]
pub extern "C" fn ratio_mul_round_i128(asked: &[Factors128], answers: &mut [Answer128]) -> u32
    ensures { AnswersEach (λ x answer. IsRoundedProductAnswer least128 greatest128 (fraction128 x.left) (fraction128 x.right) x.rule (said128 answer)) asked.now answers.old answers.new result }
{
    each(&RoundedProduct, asked, answers)
}

/// The product of each pair, rounded by a rule to a multiple of 1/parts.
#[unsafe(no_mangle)]
pub extern "C" fn ratio_mul_round_to_i128(asked: &[Operands128], answers: &mut [Answer128]) -> u32
    ensures { AnswersEach (λ x answer. IsProductToAnswer least128 greatest128 (fraction128 x.left) (fraction128 x.right) (wide_number x.parts) x.rule (said128 answer)) asked.now answers.old answers.new result }
{
    each(&ProductTo, asked, answers)
}

/// The quotient of each pair, rounded in the same way.
#[unsafe(no_mangle)]
pub extern "C" fn ratio_div_round_to_i128(asked: &[Operands128], answers: &mut [Answer128]) -> u32
    ensures { AnswersEach (λ x answer. IsQuotientToAnswer least128 greatest128 (fraction128 x.left) (fraction128 x.right) (wide_number x.parts) x.rule (said128 answer)) asked.now answers.old answers.new result }
{
    each(&QuotientTo, asked, answers)
}

/// The lowest terms of each fraction.
#[unsafe(no_mangle)]
pub extern "C" fn ratio_reduce_i128(asked: &[Fraction128], answers: &mut [Answer128]) -> u32
    ensures { AnswersEach (λ x answer. IsLowestAnswer least128 greatest128 (fraction128 x) (said128 answer)) asked.now answers.old answers.new result }
{
    each(&LowestTerms, asked, answers)
}

/// The negative of each fraction, not reduced.
#[unsafe(no_mangle)]
pub extern "C" fn ratio_neg_i128(asked: &[Fraction128], answers: &mut [Answer128]) -> u32
    ensures { AnswersEach (λ x answer. IsNegationAnswer least128 greatest128 (fraction128 x) (said128 answer)) asked.now answers.old answers.new result }
{
    each(&Negation, asked, answers)
}

/// The absolute value of each fraction, not reduced.
#[unsafe(no_mangle)]
pub extern "C" fn ratio_abs_i128(asked: &[Fraction128], answers: &mut [Answer128]) -> u32
    ensures { AnswersEach (λ x answer. IsAbsoluteAnswer least128 greatest128 (fraction128 x) (said128 answer)) asked.now answers.old answers.new result }
{
    each(&Absolute, asked, answers)
}

/// The floor of each fraction, over 1.
#[unsafe(no_mangle)]
pub extern "C" fn ratio_floor_i128(asked: &[Fraction128], answers: &mut [Answer128]) -> u32
    ensures { AnswersEach (λ x answer. IsFloorAnswer (fraction128 x) (said128 answer)) asked.now answers.old answers.new result }
{
    each(&Floor, asked, answers)
}

/// The ceiling of each fraction, over 1.
#[unsafe(no_mangle)]
pub extern "C" fn ratio_ceil_i128(asked: &[Fraction128], answers: &mut [Answer128]) -> u32
    ensures { AnswersEach (λ x answer. IsCeilingAnswer (fraction128 x) (said128 answer)) asked.now answers.old answers.new result }
{
    each(&Ceiling, asked, answers)
}

/// Each fraction cut towards zero, over 1.
#[unsafe(no_mangle)]
pub extern "C" fn ratio_trunc_i128(asked: &[Fraction128], answers: &mut [Answer128]) -> u32
    ensures { AnswersEach (λ x answer. IsTruncationAnswer (fraction128 x) (said128 answer)) asked.now answers.old answers.new result }
{
    each(&Truncation, asked, answers)
}

/// Each fraction rounded, a half away from zero.
#[unsafe(no_mangle)]
pub extern "C" fn ratio_round_i128(asked: &[Fraction128], answers: &mut [Answer128]) -> u32
    ensures { AnswersEach (λ x answer. IsRoundAnswer (fraction128 x) (said128 answer)) asked.now answers.old answers.new result }
{
    each(&RoundingToWhole, asked, answers)
}

/// The power of each fraction, not reduced.
#[unsafe(no_mangle)]
pub extern "C" fn ratio_pow_i128(asked: &[Power128], answers: &mut [Answer128]) -> u32
    ensures { AnswersEach (λ x answer. IsPowerAnswer least128 greatest128 (fraction128 x.base) x.exponent (said128 answer)) asked.now answers.old answers.new result }
{
    each(&Raising, asked, answers)
}

/// The nearest fraction with a denominator from 1 to the bound.
#[unsafe(no_mangle)]
pub extern "C" fn ratio_nearest_i128(asked: &[Bounded128], answers: &mut [Answer128]) -> u32
    ensures { AnswersEach (λ x answer. IsNearestAnswer (fraction128 x.value) (wide_number x.most) (said128 answer)) asked.now answers.old answers.new result }
{
    each(&Nearest, asked, answers)
}

/// The simplest fraction within the bounds.
#[unsafe(no_mangle)]
pub extern "C" fn ratio_between_i128(asked: &[Bounds128], answers: &mut [Answer128]) -> u32
    ensures { AnswersEach (λ x answer. IsBetweenAnswer least128 greatest128 (fraction128 x.low) (fraction128 x.high) x.flags (said128 answer)) asked.now answers.old answers.new result }
{
    each(&Between, asked, answers)
}

/// The multiple of 1/parts that the rule says.
#[unsafe(no_mangle)]
pub extern "C" fn ratio_round_to_i128(asked: &[Multiple128], answers: &mut [Answer128]) -> u32
    ensures { AnswersEach (λ x answer. IsRoundToAnswer least128 greatest128 (fraction128 x.value) (wide_number x.parts) x.rule (said128 answer)) asked.now answers.old answers.new result }
{
    each(&RoundingTo, asked, answers)
}

/// The lowest terms of each number by 10^scale.
#[unsafe(no_mangle)]
pub extern "C" fn ratio_from_scaled_i128(asked: &[Scaled], answers: &mut [Answer128]) -> u32
    ensures { AnswersEach (λ x answer. IsScaledAnswer least128 greatest128 (wide_number x.number) x.scale (said128 answer)) asked.now answers.old answers.new result }
{
    each(&Scaling::<i128>::new(), asked, answers)
}

/// The convergent of each fraction at its place, from 0 on.
#[unsafe(no_mangle)]
pub extern "C" fn ratio_convergent_i128(asked: &[Place128], answers: &mut [Answer128]) -> u32
    ensures { AnswersEach (λ x answer. IsConvergentAnswer (fraction128 x.value) x.place (said128 answer)) asked.now answers.old answers.new result }
{
    each(&ConvergentAt, asked, answers)
}

/// The lowest terms of exactly the value of each float.
#[unsafe(no_mangle)]
pub extern "C" fn ratio_from_f64_i128(asked: &[f64], answers: &mut [Answer128]) -> u32
    ensures { AnswersEach (λ x answer. IsFromFloatAnswer least128 greatest128 x (said128 answer)) asked.now answers.old answers.new result }
{
    each(&FromFloat::<i128>::new(), asked, answers)
}

/// The simplest fraction that rounds to each float.
#[unsafe(no_mangle)]
pub extern "C" fn ratio_rationalize_i128(asked: &[f64], answers: &mut [Answer128]) -> u32
    ensures { AnswersEach (λ x answer. IsRationalAnswer least128 greatest128 x (said128 answer)) asked.now answers.old answers.new result }
{
    each(&Rationalizing::<i128>::new(), asked, answers)
}

/// The float nearest to each fraction.
#[unsafe(no_mangle)]
pub extern "C" fn ratio_to_f64_i128(asked: &[Fraction128], answers: &mut [Float]) -> u32
    ensures { AnswersEach (λ x answer. IsToFloatAnswer (fraction128 x) answer.code answer.value) asked.now answers.old answers.new result }
{
    each(&ToFloat, asked, answers)
}

/// Each fraction over `i32`, not reduced.
#[unsafe(no_mangle)]
pub extern "C" fn ratio_cast_i128_to_i32(asked: &[Fraction128], answers: &mut [Answer32]) -> u32
    ensures { AnswersEach (λ x answer. IsCastAnswer least32 greatest32 (fraction128 x) (said32 answer)) asked.now answers.old answers.new result }
{
    each(&Casting::<i32>::new(), asked, answers)
}

/// Each fraction over `i64`, not reduced.
#[unsafe(no_mangle)]
pub extern "C" fn ratio_cast_i128_to_i64(asked: &[Fraction128], answers: &mut [Answer64]) -> u32
    ensures { AnswersEach (λ x answer. IsCastAnswer least64 greatest64 (fraction128 x) (said64 answer)) asked.now answers.old answers.new result }
{
    each(&Casting::<i64>::new(), asked, answers)
}

/// The fraction of each text in `texts`. The spans name the texts.
#[unsafe(no_mangle)]
pub extern "C" fn ratio_read_i128(texts: &[u8], spans: &[Span], answers: &mut [Answer128]) -> u32
    ensures { AnswersEach (λ span answer. IsReadAnswer (SaysText least128 greatest128) texts.now span.start span.end (said128 answer)) spans.now answers.old answers.new result }
{
    let reader = Fractions::<i128>::new();
    each(&Reading { texts, reader }, spans, answers)
}

/// The fraction of each decimal in `texts`, such as `-1.5e-3`, which the spans name.
#[unsafe(no_mangle)]
pub extern "C" fn ratio_read_decimal_i128(
    texts: &[u8],
    spans: &[Span],
    answers: &mut [Answer128],
) -> u32
    ensures { AnswersEach (λ span answer. IsReadAnswer (SaysDecimal least128 greatest128) texts.now span.start span.end (said128 answer)) spans.now answers.old answers.new result }
{
    let reader = DecimalTexts::<i128>::new();
    each(&Reading { texts, reader }, spans, answers)
}

/// The fraction of each text that a person typed, such as `-1 1/2` and `12.5%`. The spans name the texts.
#[unsafe(no_mangle)]
pub extern "C" fn ratio_read_text_i128(
    texts: &[u8],
    spans: &[Span],
    answers: &mut [Answer128],
) -> u32
    ensures { AnswersEach (λ span answer. IsReadAnswer (SaysTyped least128 greatest128) texts.now span.start span.end (said128 answer)) spans.now answers.old answers.new result }
{
    let reader = TypedTexts::<i128>::new();
    each(&Reading { texts, reader }, spans, answers)
}

/// The text of each fraction, not reduced, one after another in `texts`, which has `ROOM` bytes for each.
#[unsafe(no_mangle)]
pub extern "C" fn ratio_print_i128(
    asked: &[Fraction128],
    texts: &mut [u8],
    answers: &mut [Text],
) -> u32
    ensures { Prints (λ x. ShowsFields 128 (fraction128 x)) room128 asked.now texts.old texts.new answers.old answers.new result }
{
    print(&Fields, asked, ROOM, texts, answers)
}

/// The text of each fraction as a decimal, one after another in `texts`, which has `DECIMAL_ROOM` bytes for each.
#[unsafe(no_mangle)]
pub extern "C" fn ratio_print_decimal_i128(
    asked: &[Decimal128],
    texts: &mut [u8],
    answers: &mut [Text],
) -> u32
    ensures { Prints (λ x. ShowsDecimal (fraction128 x.value) x.places x.rule) decimal_room128 asked.now texts.old texts.new answers.old answers.new result }
{
    print(&Decimals, asked, DECIMAL_ROOM, texts, answers)
}
