//! Tests of what stands on fractions: totals, fractions of any size with expressions, the calculator and the small programs.
#![tactic(auto)]

#[cfg(test)]
mod any_size;
#[cfg(test)]
mod programs;
#[cfg(test)]
mod totals;
