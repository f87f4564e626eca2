//! Exact fractions of machine integers. `Ratio<T>` is a fraction whose denominator is not 0, and `Reduced<T>` one that is always in lowest
//! terms. Most calls hand the two numbers on to a function in a crate below: `Ratio::floor` calls `floor` of `ratio_core`.
//!
//! A `Reduced64` is a `Reduced<i64>`. Of 1/3 and 1/2 this returns 5/12:
//!
//! ```rattle
//! /// The mean of two amounts, or `None` exactly where their sum or its half does not fit in 64 bits.
//! pub fn mean(left: &Reduced64, right: &Reduced64) -> Option<Reduced64>
//!     ensures { ChecksMean (lowest_numbers left.now) (lowest_numbers right.now) result }
//! {
//!     left.checked_add(right)?.checked_div(2)
//! }
//! ```
//!
//! `both_held(n, d);` and `let _ = d.held();` do nothing at run time. They tell the prover that d lies
//! between the type's least and greatest number: over `i8`, from -128 to 127. A value in hand is in range,
//! and no law can say that.
//!
//! | Module | What is in it |
//! |---|---|
//! | `ratio` | `Ratio`, the fraction type, and its methods, which the traits hand on to: constructors, `zero` and `one`, fields, conversions such as `to_u128`, order, hash, powers, rounding, the nearest fraction, signs, floats and texts. |
//! | `ratio::traits` | The impls of std's traits for `Ratio` (`Clone`, `From`, order, `Hash`, `Neg`, `FromStr`, `Display` and other formats), and of `Inv` of `num_traits`. |
//! | `reduced` | `Reduced`, the fraction type that is always in lowest terms, and its methods: constructors, `zero` and `one`, fields, conversions such as `to_u128`, the five checked calls, powers, divisors, products of many, rounding, fractions near others, continued fractions, signs and casts. |
//! | `reduced::texts` | The methods of `Reduced` for texts, decimals and floats. |
//! | `reduced::traits` | The impls of std's traits for `Reduced`: `Clone`, `From`, order, `Hash`, `FromStr`, `Display` and other formats. |
//! | `ops` | The five operators of `Ratio`, each as a checked call, as a call that requires a result, and as its two symbols, such as `+` and `+=`. |
//! | `operand` | The traits `Operand` and `ReducedOperand`: the right operand of a symbol or of a checked call, a fraction or a whole number. |
//! | `fold` | The sum and the product of the items of an iterator, and for `Reduced` of a list. |
//! | `many_products` | The two ways of a product or quotient of many fractions in lowest terms: step by step, and cancelled first. |
//! | `continued` | Two iterators over a fraction's continued fraction: `Quotients`, and `Convergents`, each from a quotient and the two before it. |
//! | `splitting` | An amount split by shares (the trait `Share`) or by weights, so that nothing is lost: at marks, which are the amount times the sums of the first shares, rounded. |
//! | `printing` | How a fraction is written into a formatter of std: in base 10, in a form with a prefix, or with a precision as a decimal. |
//! | `json` | Fractions as JSON: a list of the two fields. |
//! | `main_statement` | The main promise of the library as one call, `headline`: its contract is one definition. |
#![tactic(auto)]

mod continued;
mod fold;
mod json;
mod main_statement;
mod many_products;
mod operand;
mod ops;
mod printing;
mod ratio;
mod reduced;
mod splitting;

pub use continued::{Convergents, Quotients};
pub use json::{JsonInteger, JsonRatioError};
pub use main_statement::{HeadlineResult, headline};
pub use operand::{Operand, ReducedOperand};
pub use ratio::{Constants, Ratio, Rational, Rational32, Rational64};
pub use ratio_core::{
    BaseTenText, CodeList, DecimalText, Exponent, Form, ParseRatioError, RatioErrorKind, RatioText,
    Steps, Taken,
};
pub use ratio_decimal::rounding_rule::Rounding;
pub use ratio_decimal::{DecimalRefusal, TextRefusal};
pub use reduced::{Reduced, Reduced32, Reduced64};
pub use splitting::{Share, SplitRefusal, WeightRefusal, split, split_by_weights, split_shares};
