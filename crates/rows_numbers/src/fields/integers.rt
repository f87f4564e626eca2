//! The calls of `Integer` and `Primitive`. A row of a call that may refuse asks also the call that requires that it does not.
ghost use Rattle.std.specs.Prelude.{◌≡◌, ◌≢◌, ◌↔◌, ◌-ℤ◌, neg_ℤ, pos, IsTrue};
ghost use Rattle.ratio_integer.specs.Division.{IsAboveMax, IsGcdAboveMax};

use crate::fields::two_positive;
use ratio_core::sign::{is_above_zero, is_below_zero};
use ratio_integer::{Integer, Primitive, both_held};
use rows::answer::{Answer, of_number, of_pair, of_signed, of_unsigned};
use rows::notation::{number, two_numbers};

/// Makes the call and returns its answer.
pub fn answer<T: Primitive>(call: &str, words: &str) -> Option<Answer<T>> {
    match call {
        "ZERO" => Some(Answer::Number(T::ZERO)),
        "ONE" => Some(Answer::Number(T::ONE)),
        "MIN" => Some(Answer::Number(T::MIN)),
        "MAX" => Some(Answer::Number(T::MAX)),
        "BITS" => Some(Answer::Unsigned(T::BITS as u128)),
        "half_base" => Some(of_number(T::half_base())),
        "from_i128" => Some(of_number(T::from_i128(words.parse::<i128>().ok()?))),
        "from_u128" => Some(of_number(T::from_u128(words.parse::<u128>().ok()?))),
        "exact_sum" | "exact_diff" | "gcds" => of_four(call, words),
        _ => match two_numbers(words) {
            Some((a, b)) => of_two(call, a, b),
            None => of_one(call, number(words)?),
        },
    }
}

fn of_one<T: Integer>(call: &str, a: T) -> Option<Answer<T>> {
    Some(match call {
        "held" => Answer::Truth(a.held()),
        "is_zero" => Answer::Truth(a.is_zero()),
        "is_one" => Answer::Truth(a.is_one()),
        "is_even" => Answer::Truth(a.is_even()),
        "is_odd" => Answer::Truth(a.is_odd()),
        "to_i128" => of_signed(a.to_i128()),
        "to_u128" => of_unsigned(a.to_u128()),
        "halves" => match T::half_base() {
            Some(base) => of_both(a.halves(base)),
            None => Answer::Nothing,
        },
        _ => return None,
    })
}

fn of_both<T>((first, second): (T, T)) -> Answer<T> {
    Answer::Pair(first, second)
}

fn of_two<T: Integer>(call: &str, a: T, b: T) -> Option<Answer<T>> {
    Some(match call {
        "try_plus" => match a.try_plus(b) {
            Some(sum) => same(sum, a.plus(b)),
            None => Answer::Nothing,
        },
        "try_minus" => match a.try_minus(b) {
            Some(difference) => same(difference, a.minus(b)),
            None => Answer::Nothing,
        },
        "try_times" => match a.try_times(b) {
            Some(product) => same(product, a.times(b)),
            None => Answer::Nothing,
        },
        "try_lcm" => match a.try_lcm(b) {
            Some(multiple) => same(multiple, a.lcm(b)),
            None => Answer::Nothing,
        },
        "is_multiple_of" => Answer::Truth(a.is_multiple_of(b)),
        "gcd" if has_divisor(a, b) => Answer::Number(a.gcd(b)),
        "div_rem" if has_quotient(a, b) => of_both(a.div_rem(b)),
        "div_mod_floor" if has_quotient(a, b) => floored(a, b),
        _ => return None,
    })
}

// The number, if the other form of the call returned it, too.
fn same<T: Integer>(number: T, other: T) -> Answer<T> {
    if number == other {
        Answer::Number(number)
    } else {
        Answer::FormsDiffer
    }
}

// Whether the number is `-hi-1`, as -128 over `i8`.
fn is_below_negatives<T: Integer>(a: T) -> bool
    ensures { IsTrue result ↔ (T.value a ≡ neg_ℤ T.hi -ℤ pos 1) }
{
    both_held(a, a);
    is_below_zero(a) && is_below_zero(a.plus(T::MAX))
}

/// Whether the greatest common divisor fits the type for sure.
pub fn has_divisor<T: Integer>(a: T, b: T) -> bool
    ensures { IsTrue result → ¬ (IsGcdAboveMax T.hi (T.value a) (T.value b)) }
{
    !is_below_negatives(b) && (!is_below_negatives(a) || !b.is_zero())
}

// Whether there is a quotient, and it fits the type for sure.
fn has_quotient<T: Integer>(a: T, b: T) -> bool
    ensures nonzero { IsTrue result → T.value b ≢ pos 0 }
    ensures held { IsTrue result → ¬ (IsAboveMax T.hi (T.value a) (T.value b)) }
{
    !b.is_zero() && (is_above_zero(b) || !is_below_negatives(a))
}

// The floored quotient and the rest, by all three calls.
fn floored<T: Integer>(a: T, b: T) -> Answer<T>
    requires nonzero { T.value b ≢ pos 0 }
    requires held { ¬ (IsAboveMax T.hi (T.value a) (T.value b)) }
{
    let (quotient, rest) = a.div_mod_floor(b);
    if a.div_floor(b) == quotient && a.mod_floor(b) == rest {
        Answer::Pair(quotient, rest)
    } else {
        Answer::FormsDiffer
    }
}

// The calls on four numbers, which a row writes as two fractions.
fn of_four<T: Integer>(call: &str, words: &str) -> Option<Answer<T>> {
    let (a, b, c, d) = two_positive::<T>(words)?;
    Some(match call {
        "exact_sum" => of_pair(T::exact_sum(a, b, c, d)),
        "exact_diff" => of_pair(T::exact_diff(a, b, c, d)),
        _ => {
            both_held(a, c);
            of_both(T::gcds(a, b, c, d))
        }
    })
}
