//! The order of two fractions by all three comparisons, the codes of one, and the divisions that both stand on.
use crate::fields::list_of_codes::ListOfCodes;
use crate::fields::positive;
use ratio_core::order::dividing::{divide_left, divide_right};
use ratio_core::{Steps, cmp_counted, compare, cross_order, hash_counted};
use ratio_integer::Integer;
use rows::answer::{Answer, of_text};
use rows::notation::{fraction, two_fractions};
use std::alloc::Global;
use std::fmt;
use std::fmt::Display;

/// Makes the call and returns its answer.
pub fn answer<T: Integer + Display>(alloc: Global, call: &str, words: &str) -> Option<Answer<T>> {
    match call {
        "compare" => order(words),
        "hash_counted" => codes::<T>(alloc, words),
        _ => divided(call, words),
    }
}

fn order<T: Integer>(words: &str) -> Option<Answer<T>> {
    let ((n, d), (m, e)) = two_fractions::<T>(words)?;
    if d.is_zero() || e.is_zero() {
        return None;
    }
    let order = compare(n, d, m, e, &mut Steps::new());
    let same = cmp_counted(n, d, m, e, &mut Steps::new()) == order
        && cross_order(n, d, m, e, &mut Steps::new()) == order;
    Some(if same {
        Answer::Order(order)
    } else {
        Answer::FormsDiffer
    })
}

// The codes that a list received, with spaces between them.
#[derive(Clone, Copy)]
struct Spaced<'a, T>(&'a [T]);

impl<T: Display> Display for Spaced<'_, T> {
    fn fmt<W: fmt::Write>(&self, f: &mut fmt::Formatter<W>) -> fmt::Result {
        for (i, code) in self.0.iter().enumerate() {
            if i > 0 {
                f.write_str(" ")?;
            }
            write!(f, "{code}")?;
        }
        Ok(())
    }
}

fn codes<T: Integer + Display>(alloc: Global, words: &str) -> Option<Answer<T>> {
    let (n, d) = fraction::<T>(words)?;
    if d.is_zero() {
        return None;
    }
    let mut list = ListOfCodes::new(alloc);
    hash_counted(n, d, &mut list, &mut Steps::new());
    Some(match list.codes() {
        Some(codes) => {
            let codes = Spaced(codes);
            of_text(format!(in alloc; "{codes}"))
        }
        None => Answer::NoMemory,
    })
}

// The floored quotient and the rest, as each side of a comparison divides.
fn divided<T: Integer>(call: &str, words: &str) -> Option<Answer<T>> {
    let (n, d) = positive::<T>(words)?;
    let (quotient, rest) = match call {
        "divide_left" => divide_left(n, d, &mut Steps::new()),
        "divide_right" => divide_right(n, d, &mut Steps::new()),
        _ => return None,
    };
    Some(Answer::Pair(quotient, rest))
}
