//! Public names of the functions that cut a text into signs, digits and the bytes between them: decimals, fractions, mixed numbers and
//! percentages.
pub use crate::reading::cut::{DecimalParts, after_sign, decimal_parts};
pub use crate::typed::parts::{
    MixedParts, QuotientParts, are_digits, before_percent, mixed_parts, quotient_parts,
};
