//! Reading a fraction from a text in any base, in lowest terms: in one pass over its bytes where it is short,
//! or else each side of its slash alone.
ghost use Rattle.std.specs.Prelude.{◌≡◌, ◌≤◌, ◌+◌, ◌^◌, ◌<◌, drop, get_or, IfSome, length, take};
ghost use Rattle.std.specs.Char.{digit_value};
ghost use Rattle.std.specs.Str.Parse.{AllDigits, digits_value, starts_with_minus};
ghost use Rattle.ratio_core.specs.Reading.{AnswersFields, AnswersFraction, AnswersText, IsFractionText, IsSlashedText, ReadsAs, ReadsNumber, SidesReadAs, slash};

use crate::checked_new::checked_new;
use crate::parse_error::{ParseRatioError, RatioErrorKind};
use ratio_integer::{Integer, Primitive};

/// The fraction of a text in base 10, in lowest terms: `6/4` gives 3/2. The text is `N/D` with two number texts,
/// or `N`, which means `N/1`. A number text is one digit or more, after an optional `+`. If the type has
/// numbers below 0, a `-` may come instead of the `+`. Leading zeros are allowed, and nothing else is.
///
/// The first of these refusals that applies is returned:
///
/// - `ParseError`, if a part is no number text or its number does not fit the type;
/// - `ZeroDenominator`, if the second number is 0;
/// - `ParseError`, if the lowest terms do not fit the type.
pub fn from_str<T: Primitive>(text: &str) -> Result<(T, T), ParseRatioError>
    ensures { AnswersText (λ r. T.value r.0) (λ r. T.value r.1) T.lo T.hi
        (IsFractionText T.lo T.hi text.now) result }
{
    match fields::<T>(text) {
        Err(refusal) => Err(refusal),
        Ok(read) => in_lowest_terms(read.0, read.1),
    }
}

/// The fraction of a text `N/D` in a radix, in lowest terms, with the refusals of `from_str`. A text without a slash is a parse error, as
/// `num-rational` has it. The digits above 9 are the letters, in either case. A number has no prefix such as `0x`.
pub fn from_str_radix<T: Primitive>(text: &str, radix: u32) -> Result<(T, T), ParseRatioError>
    requires low { 2 ≤ radix }
    requires high { radix ≤ 36 }
    ensures { AnswersText (λ r. T.value r.0) (λ r. T.value r.1) T.lo T.hi
        (IsSlashedText T.lo T.hi radix text.now) result }
{
    match slashed_fields::<T>(text, radix) {
        Err(refusal) => Err(refusal),
        Ok(read) => in_lowest_terms(read.0, read.1),
    }
}

// The lowest terms of the two numbers, or a parse error if they do not fit the type.
fn in_lowest_terms<T: Primitive>(numer: T, denom: T) -> Result<(T, T), ParseRatioError>
    ensures { AnswersFraction T.value T.lo T.hi (T.value numer) (T.value denom) result }
{
    match checked_new(numer, denom) {
        Some(low) => Ok(low),
        None => Err(ParseRatioError::new(RatioErrorKind::ParseError)),
    }
}

// The number of the text in the radix, read in 128 bits. `None` if it is no
// number text or its number does not fit the type.
fn number<T: Primitive>(text: &str, radix: u32) -> Option<T>
    requires low { 2 ≤ radix }
    requires high { radix ≤ 36 }
    ensures { ReadsNumber T.value T.lo T.hi radix text.now result }
{
    if T::MIN < T::ZERO {
        T::from_i128(i128::from_str_radix(text, radix).ok()?)
    } else {
        T::from_u128(u128::from_str_radix(text, radix).ok()?)
    }
}

// The numbers of the texts before and after a slash.
fn sides<T: Primitive>(front: &str, back: &str, radix: u32) -> Result<(T, T), ParseRatioError>
    requires low { 2 ≤ radix }
    requires high { radix ≤ 36 }
    ensures { AnswersFields T.value (SidesReadAs T.lo T.hi radix front.now back.now) result }
{
    match number::<T>(front, radix) {
        None => Err(ParseRatioError::new(RatioErrorKind::ParseError)),
        Some(numer) => match number::<T>(back, radix) {
            None => Err(ParseRatioError::new(RatioErrorKind::ParseError)),
            Some(denom) => nonzero(numer, denom),
        },
    }
}

// The two numbers of a text with a slash, not reduced. `quick_slashed_fields` reads most texts.
fn slashed_fields<T: Primitive>(text: &str, radix: u32) -> Result<(T, T), ParseRatioError>
    requires low { 2 ≤ radix }
    requires high { radix ≤ 36 }
    ensures { AnswersFields T.value (IsSlashedText T.lo T.hi radix text.now) result }
{
    if let Some(read) = quick_slashed_fields::<T>(text.as_bytes(), radix) {
        return nonzero(read.0, read.1);
    }
    match text.split_once('/') {
        Some((front, back)) => sides(front, back, radix),
        None => Err(ParseRatioError::new(RatioErrorKind::ParseError)),
    }
}

// The two numbers of a text in base 10, not reduced. `quick_fields` reads most texts.
fn fields<T: Primitive>(text: &str) -> Result<(T, T), ParseRatioError>
    ensures { AnswersFields T.value (IsFractionText T.lo T.hi text.now) result }
{
    match quick_fields::<T>(text.as_bytes()) {
        Some(read) => nonzero(read.0, read.1),
        None => long_fields(text),
    }
}

// The two numbers, or a zero denominator if the second one is 0.
fn nonzero<T: Integer>(numer: T, denom: T) -> Result<(T, T), ParseRatioError>
    ensures { AnswersFields T.value (λ n d. (T.value numer ≡ n) × (T.value denom ≡ d)) result }
{
    if denom.is_zero() {
        Err(ParseRatioError::new(RatioErrorKind::ZeroDenominator))
    } else {
        Ok((numer, denom))
    }
}

// What `fields` returns, by a search for the slash: for what `quick_fields` leaves, such as a plus sign, a long number or no number.
fn long_fields<T: Primitive>(text: &str) -> Result<(T, T), ParseRatioError>
    ensures { AnswersFields T.value (IsFractionText T.lo T.hi text.now) result }
{
    match text.split_once('/') {
        Some((front, back)) => sides(front, back, 10),
        None => match number(text, 10) {
            Some(numer) => Ok((numer, T::ONE)),
            None => Err(ParseRatioError::new(RatioErrorKind::ParseError)),
        },
    }
}

// The two numbers of a text in one pass over its bytes: as many digits at a time as a `u64` holds.

/// The two numbers of a text in base 10 without a plus sign, not reduced. `None` says nothing about the text.
pub(crate) fn quick_fields<T: Primitive>(bytes: &[u8]) -> Option<(T, T)>
    ensures { IfSome result (λ r. IsFractionText T.lo T.hi bytes.now (T.value r.0) (T.value r.1)) }
{
    let (numer, at) = leading_number::<T>(bytes, 10)?;
    if at == bytes.len() {
        return Some((numer, T::ONE));
    }
    let denom = number_after_slash::<T>(bytes, at, 10)?;
    Some((numer, denom))
}

/// The two numbers of a text in base 10 without a plus sign that the bytes begin with, not reduced, and the length of this
/// text. More digits may follow it, so a caller looks at the byte behind it. `None` says nothing about the bytes.
#[inline(always)]
pub fn leading_fields<T: Primitive>(bytes: &[u8]) -> Option<(T, T, usize)>
    ensures inside { IfSome result (λ r. r.2 ≤ length bytes.now) }
    ensures fields { IfSome result (λ r. IsFractionText T.lo T.hi (take r.2 bytes.now) (T.value r.0) (T.value r.1)) }
{
    let (numer, at) = leading_number::<T>(bytes, 10)?;
    if at == bytes.len() || bytes[at] != b'/' {
        return Some((numer, T::ONE, at));
    }
    let (denom, count) = leading_number::<T>(&bytes[at + 1..], 10)?;
    Some((numer, denom, at + 1 + count))
}

/// The two numbers of a text in any radix, with a slash and without a plus sign, not reduced. `None` says nothing about the text.
pub(crate) fn quick_slashed_fields<T: Primitive>(bytes: &[u8], radix: u32) -> Option<(T, T)>
    requires low { 2 ≤ radix }
    requires high { radix ≤ 36 }
    ensures { IfSome result (λ r. IsSlashedText T.lo T.hi radix bytes.now (T.value r.0) (T.value r.1)) }
{
    let (numer, at) = leading_number::<T>(bytes, radix)?;
    let denom = number_after_slash::<T>(bytes, at, radix)?;
    Some((numer, denom))
}

// The number that all bytes after a slash at `at` read as.
#[inline(always)]
fn number_after_slash<T: Primitive>(bytes: &[u8], at: usize, radix: u32) -> Option<T>
    requires low { 2 ≤ radix }
    requires high { radix ≤ 36 }
    ensures inside { IfSome result (λ d. at < length bytes.now) }
    ensures slash { IfSome result (λ d. get_or bytes.now at 0 ≡ slash) }
    ensures number { IfSome result (λ d. ReadsAs T.lo T.hi radix (drop (at + 1) bytes.now) (T.value d)) }
{
    if at >= bytes.len() || bytes[at] != b'/' {
        return None;
    }
    let back = &bytes[at + 1..];
    let (denom, end) = leading_number::<T>(back, radix)?;
    if end == back.len() { Some(denom) } else { None }
}

// The number that the bytes begin with, and the length of its text.
#[inline(always)]
fn leading_number<T: Primitive>(bytes: &[u8], radix: u32) -> Option<(T, usize)>
    requires low { 2 ≤ radix }
    requires high { radix ≤ 36 }
    ensures inside { IfSome result (λ r. r.1 ≤ length bytes.now) }
    ensures number { IfSome result (λ r. ReadsAs T.lo T.hi radix (take r.1 bytes.now) (T.value r.0)) }
{
    if T::MIN < T::ZERO && begins_with_minus(bytes) {
        let (n, count) = read_digits::<T>(&bytes[1..], radix)?;
        if count == 0 || n > i128::MAX as u128 {
            return None;
        }
        Some((T::from_i128(-(n as i128))?, count + 1))
    } else {
        let (n, count) = read_digits::<T>(bytes, radix)?;
        if count == 0 {
            return None;
        }
        Some((T::from_u128(n)?, count))
    }
}

fn begins_with_minus(bytes: &[u8]) -> bool
    ensures { result ≡ starts_with_minus bytes.now }
{
    !bytes.is_empty() && bytes[0] == b'-'
}

// The number of the digits that the bytes begin with, and how many of these were read. For a type of at most
// 64 bits and a radix up to 10, it reads one group of at most 19 digits. In radix 16 a `u64` may have 16
// digits, and a group has 15, so several groups are read.
#[inline(always)]
fn read_digits<T: Primitive>(bytes: &[u8], radix: u32) -> Option<(u128, usize)>
    requires low { 2 ≤ radix }
    requires high { radix ≤ 36 }
    ensures inside { IfSome result (λ r. r.1 ≤ length bytes.now) }
    ensures digits { IfSome result (λ r. AllDigits radix (take r.1 bytes.now)) }
    ensures value { IfSome result (λ r. r.0 ≡ digits_value radix (take r.1 bytes.now)) }
{
    if T::BITS > 64 || radix > 10 {
        return grouped_digits(bytes, radix);
    }
    let (n, count) = leading_digits(bytes, radix);
    Some((n as u128, count))
}

// The number of all digits that the bytes begin with, and how many these are. `None` if the number does not fit `u128`.
#[inline(always)]
fn grouped_digits(bytes: &[u8], radix: u32) -> Option<(u128, usize)>
    requires low { 2 ≤ radix }
    requires high { radix ≤ 36 }
    ensures inside { IfSome result (λ r. r.1 ≤ length bytes.now) }
    ensures digits { IfSome result (λ r. AllDigits radix (take r.1 bytes.now)) }
    ensures value { IfSome result (λ r. r.0 ≡ digits_value radix (take r.1 bytes.now)) }
{
    let most = most_digits(radix);
    let (first, mut count) = leading_digits(bytes, radix);
    let mut n = first as u128;
    let mut at = count;
    'groups: while count == most {
        let (group, more) = leading_digits(&bytes[at..], radix);
        n = n
            .checked_mul((radix as u64).pow(more as u32) as u128)?
            .checked_add(group as u128)?;
        at += more;
        count = more;
    }
    Some((n, at))
}

// The number of the digits that the bytes begin with, and how many of these were read. It reads at most
// `most_digits`, so the number always fits `u64`, and no step tests for overflow.
#[inline(always)]
fn leading_digits(bytes: &[u8], radix: u32) -> (u64, usize)
    requires low { 2 ≤ radix }
    requires high { radix ≤ 36 }
    ensures inside { result.1 ≤ length bytes.now }
    ensures digits { AllDigits radix (take result.1 bytes.now) }
    ensures value { result.0 ≡ digits_value radix (take result.1 bytes.now) }
    ensures few { radix ^ result.1 < 2 ^ 64 }
    ensures short { result.1 ≤ 19 }
{
    let most = most_digits(radix);
    let mut n = 0u64;
    let mut at = 0;
    'digits: while at < bytes.len() && at < most && digit(bytes[at], radix) < radix as u64 {
        n = n * radix as u64 + digit(bytes[at], radix);
        at += 1;
    }
    (n, at)
}

// How many digits always fit `u64`. The radix to this power fits, too.
#[inline(always)]
fn most_digits(radix: u32) -> usize
    requires { radix ≤ 36 }
    ensures some { 1 ≤ result }
    ensures short { result ≤ 19 }
    ensures few { radix ^ result < 2 ^ 64 }
{
    if radix <= 10 {
        19
    } else if radix <= 16 {
        15
    } else {
        12
    }
}

// What the bytes from `0` to `z` are worth as digits, and 36 for a byte that is no digit.
static DIGITS: [u8; 75] = [
    0, 1, 2, 3, 4, 5, 6, 7, 8, 9, 36, 36, 36, 36, 36, 36, 36, 10, 11, 12, 13, 14, 15, 16, 17, 18,
    19, 20, 21, 22, 23, 24, 25, 26, 27, 28, 29, 30, 31, 32, 33, 34, 35, 36, 36, 36, 36, 36, 36, 10,
    11, 12, 13, 14, 15, 16, 17, 18, 19, 20, 21, 22, 23, 24, 25, 26, 27, 28, 29, 30, 31, 32, 33, 34,
    35,
];

// What the byte is worth as a digit, and 36 if it is none. The digits `0` to `9` of a radix up to 10 need no table.
#[inline(always)]
fn digit(byte: u8, radix: u32) -> u64
    ensures { result ≡ digit_value byte }
{
    if byte < b'0' {
        return 36;
    }
    if radix <= 10 && byte <= b'9' {
        return (byte - b'0') as u64;
    }
    if byte > b'z' {
        return 36;
    }
    DIGITS[(byte - b'0') as usize] as u64
}
