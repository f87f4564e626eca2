//! Tests of fractions, `Ratio` and `Reduced`: rows from outside, and each call once at a concrete type.
#![tactic(auto)]

#[cfg(test)]
mod asserting;
#[cfg(test)]
mod ratios;
pub mod recorder;
#[cfg(test)]
mod reduced;
pub mod written;
