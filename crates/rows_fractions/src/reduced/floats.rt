//! The bits of the nearest floats, such as `0x3fd5555555555555` for 1/3, also of a `Ratio` that is not in lowest terms.
use super::lowest;
use num_rational::Ratio;
use ratio_integer::Primitive;
use rows::answer::{Answer, of_f32, of_f64};
use rows::notation::fraction;
use std::alloc::Global;

/// The answer, or `None` if no call here has this name, or the word is no such fraction.
pub fn answer<T: Primitive>(alloc: Global, call: &str, words: &str) -> Option<Answer<T>> {
    match call {
        "to_f64" => Some(of_f64(alloc, lowest::<T>(words)?.to_f64())),
        "to_f32" => Some(of_f32(alloc, lowest::<T>(words)?.to_f32())),
        "Ratio::to_f64" | "Ratio::to_f32" => of_ratio(alloc, call, fraction(words)?),
        _ => None,
    }
}

fn of_ratio<T: Primitive>(alloc: Global, call: &str, fields: (T, T)) -> Option<Answer<T>> {
    if T::ZERO < fields.1 {
        let x = Ratio::new_raw(fields.0, fields.1);
        Some(if call == "Ratio::to_f64" {
            of_f64(alloc, x.to_f64())
        } else {
            of_f32(alloc, x.to_f32())
        })
    } else {
        None
    }
}
