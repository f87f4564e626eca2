//! Tests of the laws, each of which can be called like any function, and of the odd types, which obey them.
#![tactic(auto)]

#[cfg(test)]
mod big_fraction;
#[cfg(test)]
mod fractions;
#[cfg(test)]
mod numbers;
#[cfg(test)]
mod odd_types;
