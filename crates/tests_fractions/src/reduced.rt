//! `Reduced` where it has no rows: long walks, and texts under the options of a format. The rows are in crates/rows_fractions/rows.
mod arranged;
mod lowest_remainders;
mod many_products;
mod precision;
mod refusal_texts;
