//! The odd types: every fraction of the smallest types, the counted divisions, and rows from outside.
mod calls;
mod ends;
mod fractions;
mod laws;
mod lowest_powers;
mod lowest_sums;
mod plain;
mod powers;
mod rounding;
mod rows;
mod simplest;
mod walks;
mod watched;
