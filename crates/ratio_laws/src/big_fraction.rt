//! The laws of `BigFraction`: its values are a field, and totally ordered. Each function does nothing: its contract is the law.

pub mod field;
pub mod order;
pub mod powers;
pub mod rounding;
pub mod signs;
pub mod texts;
