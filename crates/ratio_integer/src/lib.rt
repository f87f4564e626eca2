//! The trait of integer types that fractions are generic over, its laws, and its impls for the twelve primitive types, from `i8` to
//! `usize`. Arithmetic is exact: a checked call is `None` exactly if the result does not fit. Here are also the lowest terms of two
//! numbers, and exact sums of fractions over types of at most 64 bits.
//!
//! `both_held(n, d);` and `let _ = n.held();` do nothing at run time. They tell the prover that n lies
//! between the type's least and greatest number: over `i8`, from -128 to 127. A value in hand is in range,
//! and no law can say that, since in a law an `i8` is any whole number.
//!
//! | Module | What is in it |
//! |---|---|
//! | `integer` | The traits `Integer` (range, constants, arithmetic, gcd and lcm, halves, conversions such as `to_u128`, laws), `SignedInteger` (negatives) and `Primitive` (bits), and what tells a proof that a number is in range. |
//! | `signed_types` | The traits `Integer` and `Primitive` for the six signed types, each with the same calls in the same order. |
//! | `unsigned_types` | The traits `Integer` and `Primitive` for the six unsigned types, with the calls in the order that the signed types have. |
//! | `reducing` | The lowest terms of one fraction or two, and their numbers cancelled: divided by their gcd, each with its sign. |
//! | `binary_gcd` | The greatest common divisor of one or two pairs of magnitudes (`u64` or `u128`) by halving and subtracting, without a division, or only if it is above a bound. |
//! | `widths` | Arithmetic in another width: sums and differences of fractions over at most 64 bits are computed and reduced in `i128` (the trait `Narrow`), and products, quotients and remainders of 128 bits in 64, if both numbers fit. |
//! | `laws` | The laws of when a quotient and a greatest common divisor fit the type. |
//! | `negatives` | The trait `SignedInteger` for the six signed types: negatives. |
#![tactic(auto)]

pub mod binary_gcd;
mod integer;
pub mod laws;
mod negatives;
mod reducing;
mod signed_types;
mod unsigned_types;
mod widths;

pub use integer::{Integer, Primitive, SignedInteger, both_held};
pub use reducing::{both_cancelled, both_lowest_terms, cancelled, lowest_terms};
