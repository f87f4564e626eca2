//! Calls on a list, and lists as a row writes them: `[1,-2]`, `[1/2,1/3]`, `[]`.
use super::lowest;
use num_rational::Reduced;
use ratio_approximation::from_quotients::from_quotients;
use ratio_core::products::many_products::checked_quotient_of_products;
use ratio_integer::Integer;
use rows::answer::{Answer, of_pair, of_reduced};
use rows::notation::number;
use std::alloc::Global;
use std::fmt;
use std::fmt::Display;

/// The items as a row writes them.
#[derive(Drop)]
pub struct List<'a, X>(pub &'a [X]);

impl<X: Display> Display for List<'_, X> {
    fn fmt<W: fmt::Write>(&self, f: &mut fmt::Formatter<W>) -> fmt::Result {
        f.write_str("[")?;
        let mut separator = "";
        for item in self.0 {
            write!(f, "{separator}{item}")?;
            separator = ",";
        }
        f.write_str("]")
    }
}

/// The answer, or `None` if no call here has this name, or the words cannot be read.
pub fn answer<T: Copy + Integer>(alloc: Global, call: &str, words: &str) -> Option<Answer<T>> {
    match call {
        "from_continued_fraction" => {
            let quotients = numbers(alloc, words)?;
            let x = Reduced::from_continued_fraction(quotients.as_slice());
            Some(of_reduced(x))
        }
        "from_quotients" => Some(of_pair(from_quotients(numbers(alloc, words)?.as_slice()))),
        "checked_product_of" => product(alloc, words),
        "checked_quotient_of" => quotient(alloc, words),
        "checked_quotient_of_products" => quotient_of_products(alloc, words),
        _ => None,
    }
}

// `[1/2,2/3] 4`: the product of the fractions, with room for 4 numbers.
fn product<T: Copy + Integer>(alloc: Global, words: &str) -> Option<Answer<T>> {
    let (items, length) = words.split_once(' ')?;
    let items = fractions::<T>(alloc, items)?;
    let mut room = room::<T>(alloc, length)?;
    let product = Reduced::checked_product_of(items.as_slice(), room.as_mut_slice());
    Some(of_reduced(product))
}

// `[1,2] [3] 6`: the quotient of the products of the numbers, with room for 6 numbers.
fn quotient<T: Copy + Integer>(alloc: Global, words: &str) -> Option<Answer<T>> {
    let (lists, length) = words.rsplit_once(' ')?;
    let (above, below) = two_lists::<T>(alloc, lists)?;
    let mut room = room::<T>(alloc, length)?;
    let quotient = Reduced::<T>::checked_quotient_of(
        above.as_slice(),
        below.as_slice(),
        room.as_mut_slice(),
    );
    Some(of_reduced(quotient))
}

fn quotient_of_products<T: Integer>(alloc: Global, words: &str) -> Option<Answer<T>> {
    let (mut above, mut below) = two_lists(alloc, words)?;
    let quotient = checked_quotient_of_products(above.as_mut_slice(), below.as_mut_slice());
    Some(of_pair(quotient))
}

fn two_lists<T: Integer>(alloc: Global, words: &str) -> Option<(Vec<T>, Vec<T>)> {
    let (left, right) = words.split_once(' ')?;
    Some((numbers(alloc, left)?, numbers(alloc, right)?))
}

// As many zeros as the word says.
fn room<T: Integer>(alloc: Global, length: &str) -> Option<Vec<T>> {
    let mut room = Vec::new(alloc);
    for _ in 0..length.parse::<u32>().ok()? {
        room.push(T::ZERO).ok()?;
    }
    Some(room)
}

/// The numbers of a list. Like a list that cannot be read, one for which there is no memory is `None`.
pub fn numbers<T: Integer>(alloc: Global, list: &str) -> Option<Vec<T>> {
    let mut numbers = Vec::new(alloc);
    let items = list.strip_prefix('[')?.strip_suffix(']')?;
    if !items.is_empty() {
        for item in items.split(',') {
            numbers.push(number(item)?).ok()?;
        }
    }
    Some(numbers)
}

/// The fractions of a list, in lowest terms.
pub fn fractions<T: Copy + Integer>(alloc: Global, list: &str) -> Option<Vec<Reduced<T>>> {
    let mut fractions = Vec::new(alloc);
    let items = list.strip_prefix('[')?.strip_suffix(']')?;
    if !items.is_empty() {
        for item in items.split(',') {
            fractions.push(lowest(item)?).ok()?;
        }
    }
    Some(fractions)
}
