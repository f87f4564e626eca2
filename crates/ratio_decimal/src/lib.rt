//! Fractions as decimals such as `12.375` and as floats: printed, read, also from what a person types, and rounded by six rules, the
//! numbers short or of any length.
//!
//! Calls with the type, the operands and what they return, as the tests write them:
//!
//! ```text
//! ratio_decimal::round_to i64 2/3 100 HalfEven = 67/100
//! ratio_decimal::decimal i64 -2/4 1 HalfEven = "-0.5"
//! ratio_decimal::from_decimal i64 "-1.5" = -3/2
//! ratio_decimal::from_text i64 "-1 1/2" = -3/2
//! ```
//!
//! | Module | What is in it |
//! |---|---|
//! | `places` | Printing a fraction as a decimal with a given number of places, at most 38: its sign, and its magnitude by a rule. |
//! | `exact` | Printing a fraction as a decimal with all its places, if they end, and finding how many these are. |
//! | `long` | Writing a fraction to a formatter with more places than `decimal` has: its sign, the digits before and in the last places, and fill. |
//! | `rounding_rule` | The six rules of rounding (`Rounding`), and a fraction or a product of two rounded by them, to a whole number or to a multiple of `1/parts`, such as cents or quarters. |
//! | `product` | The steps of `rounded_product` where the product does not fit, also of two least numbers of a type. |
//! | `product::rest` | A number divided as a multiple of some parts and a rest, and what is left of a product after its first division, rounded to a multiple of `1/parts`. |
//! | `product::quotient` | A quotient of two fractions, also by the number after the greatest one of a type, rounded to a whole number or to a multiple of `1/parts`, such as cents. |
//! | `reading` | Reading a decimal, such as `12.375` or `-1.5e-3`, as a fraction, and why it is refused. |
//! | `reading::cut` | Cutting a decimal text into its sign, its digits before and behind a point, and its exponent, and the number that digits write. |
//! | `reading::value` | The lowest terms of a decimal whose parts are cut, or of its 100th part, after its point has moved: from one number of 64 bits, if the decimal is short. |
//! | `reading::terms` | The lowest terms of digits behind a point, and of those of a whole number, from the last digit on. |
//! | `typed` | Reading what a person types into one field as a fraction: `-0.5`, `3/4`, `-1 1/2` or `12.5%`. |
//! | `typed::parts` | Cutting a typed text: the parts of a fraction or of a mixed number, and what comes before a percent sign. |
//! | `typed::plain` | The lowest terms of a decimal or a fraction, or of their 100th parts. |
//! | `typed::signed` | The lowest terms of fractions and mixed numbers, from the digits of their whole numbers. |
//! | `cuts` | Public names of the functions that cut a text into signs, digits and the bytes between them: decimals, fractions, mixed numbers and percentages. |
//! | `float` | Floats as fractions, the floats nearest to fractions, and the simplest fractions that round to floats. |
//! | `float::exact` | The fraction with exactly the value of a float, and numbers with a sign times powers of 2. |
//! | `float::format` | The trait `FloatType`: the bits, the limits and the quotients of `f64` and `f32`, as the rounding needs them. |
//! | `float::gap` | The simplest fraction between two ends over one denominator, such as those halfway to a float's neighbours. |
//! | `float::leading` | The float nearest to a fraction of any size, from the leading digits of a quotient that the caller has. |
//! | `float::nearest` | The float nearest to a fraction: its leading digits, cut and rounded at the last one, and its bits. |
//! | `float::quotient` | The leading binary digits of the quotient of two numbers of 128 bits, digit by digit or from their upper halves. |
//! | `float::rationalize` | The simplest fraction that rounds to a float, from the float's parts and the gap around it. |
//! | `naturals` | Fractions of natural numbers of any length: their rounded values, their texts as decimals, and the nearest floats. |
//! | `naturals::decimal` | A fraction of two long numbers as a decimal: the numerator is scaled by a power of 10, divided, rounded and written. |
//! | `naturals::float` | The float nearest to a fraction of two long numbers, from their highest digits. |
//! | `naturals::places` | The text of a long number as a decimal with places, with its sign and without it. |
//! | `naturals::rounding` | A fraction of two long numbers, and a quotient with its rest, rounded to a whole number by a rule, from how the rest compares with a half. |
//! | `laws` | The laws of decimals. |
#![tactic(auto)]

pub mod cuts;
mod exact;
pub mod float;
pub mod laws;
mod long;
pub mod naturals;
mod places;
mod product;
mod reading;
pub mod rounding_rule;
mod typed;

pub use exact::exact_decimal;
pub use long::write_places;
pub use places::decimal;
pub use product::{rounded_quotient, rounded_quotient_to};
pub use reading::{DecimalRefusal, from_decimal};
pub use rounding_rule::{round_to, rounded_product, rounded_product_to};
pub use typed::{TextRefusal, from_text};
