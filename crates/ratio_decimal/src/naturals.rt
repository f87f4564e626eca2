//! Fractions of natural numbers of any length: their rounded values, their texts as decimals, and the nearest floats. The numbers are
//! digits of `ratio_natural`, in room that the caller gives. Each result is exact or rounded once.

mod decimal;
mod float;
mod places;
mod rounding;

pub use decimal::put_decimal;
pub use float::{nearest_f64, to_float};
pub use places::put_places;
pub use rounding::{round_fraction, round_quotient};
