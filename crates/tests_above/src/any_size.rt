//! Fractions of any size and expressions where they have no rows: hashes, thousands of digits or parentheses, a name that is true, and each
//! law of expressions.
mod decimals;
mod depths;
mod equality;
mod laws;
mod made;
mod truths;
