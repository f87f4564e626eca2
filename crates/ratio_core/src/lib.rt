//! What is computed on fractions, given by numerator and denominator: order, hash, lowest terms, sums, products, remainders, powers,
//! rounding to whole numbers, signs, and texts in every base.
//!
//! `both_held(n, d);` and `let _ = n.held();` do nothing at run time. They tell the prover that n lies
//! between the type's least and greatest number: over `i8`, from -128 to 127. A value in hand is in range,
//! and no law can say that.
//!
//! | Module | What is in it |
//! |---|---|
//! | `checked_new` | The lowest terms of a fraction, with its sign moved to the numerator, if they fit the type. |
//! | `order` | The order of two fractions, by what decides it soonest. |
//! | `order::half_digits` | Comparing fractions by their cross products in half digits, which are digits of half the type's width. |
//! | `order::dividing` | Comparing fractions by rounds of Euclid's algorithm on both, with the one pair whose quotient does not fit, and its counted divisions, which hashing and other searches call too. |
//! | `steps` | `Steps`: how many steps each side of a comparison took, a count that only contracts see; and `Side`, the side that a step counts for. |
//! | `hash` | The codes by which a fraction is hashed: handed to a `CodeList` while the steps are counted, and kept for contracts in a `Taken`. |
//! | `sums` | Sums and differences of fractions with positive denominators, in lowest terms, and two fractions over their least common denominator. |
//! | `sums::lowest_sums` | Sums and differences of fractions in lowest terms: `Some` exactly if the lowest terms fit. |
//! | `sums::unreduced_sums` | Sums and differences of any fractions with positive denominators: `Some` exactly if the lowest terms fit. |
//! | `sums::mixed` | Sums and differences of fractions as mixed numbers: the whole numbers and the parts of 1 are added separately, and give one numerator again. |
//! | `sums::multiple` | A multiple of a part of 1, and the sum of two such parts, each as a whole number and a part of 1. |
//! | `sums::words` | A multiple of a part of 1 by words: of the factor 60 binary digits at a time, from the highest ones on, and of the divisor its 63 highest, rounded up. |
//! | `products` | Products and quotients of any fractions in lowest terms, which are `Some` exactly if these fit the type. |
//! | `products::lowest_products` | Products and quotients of fractions that are already in lowest terms, multiplied together or crosswise, where that is quicker. |
//! | `products::many_products` | The product of many numbers divided by the product of many others: each is cancelled against each before anything is multiplied. |
//! | `remainder` | The remainder of one fraction by another in lowest terms, over any type. |
//! | `remainder::lowest_remainders` | Remainders of fractions in lowest terms: over a type of exact remainders, `Some` exactly if the lowest terms fit. |
//! | `remainder::unreduced_remainders` | Remainders of any fractions with positive denominators: over a type of exact remainders, `Some` exactly if the lowest terms fit. |
//! | `remainder::wide_remainder` | The remainder of two fractions whose numbers fit a `u128`, though the products of two may not. |
//! | `pow` | Reciprocals and powers of fractions, not reduced. |
//! | `pow::lowest_powers` | Powers of fractions in lowest terms, which are `Some` exactly if the lowest terms of the power fit the type. |
//! | `exponent` | The trait `Exponent`: whole numbers of any primitive type that may be an exponent, by sign and magnitude. |
//! | `divisors` | The greatest common divisor and the least common multiple of two fractions in lowest terms. |
//! | `sign` | Signs of numbers and of fractions, and the negatives, absolute values and positive differences of fractions. |
//! | `magnitudes` | For this crate alone: the magnitudes of numbers as a `u128`, numbers made from a magnitude and a sign, and the types whose numbers are short or long. |
//! | `rounding` | Whole numbers near a fraction (floor, ceiling, truncation, rounded), its fractional part, and its whole part as an `i64`, `i128`, `u64` or `u128`. |
//! | `text` | Printing a fraction as a text, from the last byte to the first: the forms, their prefixes, the array `FixedText`, decimal digits, and the `magnitude` of a number. |
//! | `text::numeral` | A number in base 2, 8 or 16, and its two's complement, written from the last digit to the first. |
//! | `text::reading` | Reading a fraction from a text in any base, in lowest terms: in one pass over its bytes where it is short, or else each side of its slash alone. |
//! | `parse_error` | Why a text is refused as a fraction: `ParseRatioError`, its kinds, and what it prints. |
//! | `counted` | `Counted`: the numbers of an integer type, with no division that takes no step. |
#![tactic(auto)]

pub mod checked_new;
pub mod counted;
pub mod divisors;
mod exponent;
mod hash;
mod magnitudes;
pub mod order;
mod parse_error;
pub mod pow;
pub mod products;
pub mod remainder;
pub mod rounding;
pub mod sign;
mod steps;
pub mod sums;
pub mod text;

pub use counted::Counted;
pub use exponent::Exponent;
pub use hash::{CodeList, Taken, hash_counted};
pub use order::{cmp_counted, compare, cross_order};
pub use parse_error::{ParseRatioError, RatioErrorKind};
pub use steps::{Side, Steps};
pub use text::{BaseTenText, DecimalText, Form, RatioText};
