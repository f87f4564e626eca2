//! The five checked calls, of fractions and of the plain model.
use crate::odd_types::fractions::fraction;
use crate::odd_types::plain::{Plain, Range};
use num_rational::Ratio;
use ratio_integer::Integer;

/// A checked call.
#[derive(Clone, Copy)]
pub enum Call {
    Add,
    Sub,
    Mul,
    Div,
    Rem,
}

/// All five.
pub const CALLS: [Call; 5] = [Call::Add, Call::Sub, Call::Mul, Call::Div, Call::Rem];

/// What the call returns, if `T` has both fractions and their denominators are positive.
pub fn called<T: Integer>(x: Plain, call: Call, y: Plain) -> Option<Option<Ratio<T>>> {
    let left = fraction::<T>(x)?;
    let right = fraction::<T>(y)?;
    if T::ZERO < *left.denom() && T::ZERO < *right.denom() {
        Some(match call {
            Call::Add => left.checked_add(&right),
            Call::Sub => left.checked_sub(&right),
            Call::Mul => left.checked_mul(&right),
            Call::Div => left.checked_div(&right),
            Call::Rem => left.checked_rem(&right),
        })
    } else {
        None
    }
}

/// What the model returns.
pub fn modelled(x: Plain, call: Call, y: Plain, range: Range) -> Option<Plain> {
    match call {
        Call::Add => range.sum(x, y),
        Call::Sub => range.difference(x, y),
        Call::Mul => range.product(x, y),
        Call::Div => range.quotient(x, y),
        Call::Rem => range.remainder(x, y),
    }
}
