//! Totals, and the natural numbers that they are made of, where they have no rows: steps one after another, ten thousand denominators, sums
//! that take memory, the laws, and a caller.
mod bills;
mod bounded_decimals;
mod in_memory;
mod joining;
mod naturals;
mod slots;
mod whole_bill;
