//! Fractions of long numbers rounded to whole numbers.
ghost use Rattle.std.specs.Prelude.{◌<◌};

use crate::naturals::digits::{digits, of_digits, used_room};
use ratio_decimal::naturals::{round_fraction, round_quotient};
use ratio_decimal::rounding_rule::Rounding;
use ratio_natural::is_zero;
use rows::answer::{Answer, of_text};
use rows::notation;
use rows::notation::{number, rule};
use std::alloc::Global;

/// A quotient of one digit and a fraction of two, rounded by the rule behind them, or by all six in their order.
pub fn quotient(alloc: Global, below: bool, words: &str) -> Option<Answer<u64>> {
    let (quotient, words) = words.split_once(' ')?;
    let quotient = number::<u64>(quotient)?;
    let (part, name) = match words.split_once(' ') {
        Some((part, name)) => (part, Some(name)),
        None => (words, None),
    };
    let (rest, denom) = notation::fraction::<u64>(part)?;
    if denom <= rest {
        return None;
    }
    match name {
        Some(name) => {
            let number = rounded(rule(name)?, below, quotient, rest, denom);
            Some(Answer::Unsigned(number))
        }
        None => Some(by_all(alloc, below, quotient, rest, denom)),
    }
}

fn rounded(rule: Rounding, below: bool, quotient: u64, rest: u64, denom: u64) -> u128
    requires { rest < denom }
{
    let mut number = [quotient, 0];
    let mut part = [rest];
    round_quotient(rule, below, &mut number, &mut part, &[denom]);
    (number[1] as u128) << 64 | number[0] as u128
}

fn by_all(alloc: Global, below: bool, quotient: u64, rest: u64, denom: u64) -> Answer<u64>
    requires { rest < denom }
{
    let half_away = rounded(Rounding::HalfAway, below, quotient, rest, denom);
    let half_even = rounded(Rounding::HalfEven, below, quotient, rest, denom);
    let down = rounded(Rounding::Down, below, quotient, rest, denom);
    let up = rounded(Rounding::Up, below, quotient, rest, denom);
    let floor = rounded(Rounding::Floor, below, quotient, rest, denom);
    let ceil = rounded(Rounding::Ceil, below, quotient, rest, denom);
    of_text(format!(in alloc; "{half_away} {half_even} {down} {up} {floor} {ceil}"))
}

/// A fraction by its digits, rounded by a rule into room that was used before.
pub fn fraction(alloc: Global, below: bool, words: &str) -> Option<Answer<u64>> {
    let mut words = words.split(' ');
    let mut numer = digits(alloc, words.next()?)?;
    let denom = digits(alloc, words.next()?)?;
    let rule = rule(words.next()?)?;
    if is_zero(&denom) || denom.len() > numer.len() || numer.len() > 1000 {
        return None;
    }
    let mut number = used_room(alloc, numer.len() + 1).ok()?;
    round_fraction(
        number.as_mut_slice(),
        numer.as_mut_slice(),
        &denom,
        below,
        rule,
    );
    Some(of_digits(alloc, &number))
}
