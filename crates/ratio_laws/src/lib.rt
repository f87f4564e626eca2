//! Laws of the calls on fractions, such as that sums commute, for the proofs of callers: on two numbers, of `Ratio` and `Reduced`, of
//! `BigFraction`, and of JSON pairs (`json_pairs`, in this file). Each function changes nothing: its contract is the law.
//!
//! A function calls the laws that its proof needs. Here `part` moves from one account to another, and two laws show that the total stays:
//!
//! ```rattle
//! let rest = from.checked_sub(part)?;
//! let more = part.checked_add(to)?;
//! undoing::sums(from, part);
//! reduced::sums(&rest, part, to);
//! Some((rest, more))
//! ```
//!
//! | Module | What is in it |
//! |---|---|
//! | `laws` | The laws of fractions by their two numbers: of sums, what these require, products, rounding, decimals, powers, fractions near others and floats. |
//! | `laws::texts` | The laws of digits, of decimals and of typed texts: what the words for texts mean. |
//! | `reduced` | The first laws of `Reduced`: of sums, products, powers, parts, order, hash and continued fractions. |
//! | `neutral` | The laws of 0 and 1 as operands and as exponents of `Reduced`. |
//! | `order` | The laws of the order of results: sums, products and negatives of two `Reduced`. |
//! | `signs` | The laws of negatives, absolute values and signs of `Reduced`. |
//! | `remainder` | The laws of the remainder of `Reduced`. |
//! | `powers` | The laws of powers of powers, of products and of reciprocals of `Reduced`, for all whole numbers as exponents. |
//! | `divisors` | The laws of the greatest common divisor and the least common multiple of `Reduced`. |
//! | `rounding` | The laws of a `Reduced` rounded to whole numbers: floor, ceiling, and the six rules. |
//! | `nearest` | The laws of the nearest fraction with a bounded denominator, as `Reduced` returns it. |
//! | `reading` | The laws of reading what a `Reduced` prints, as a text or as a decimal. |
//! | `undoing` | The laws of calls of `Reduced` that undo one another, or that can stand for one another, as the quotient x / y for x times the reciprocal of y. |
//! | `folds` | The laws of sums and products of lists, as `Reduced` returns them. |
//! | `many_products` | The laws of products and quotients of many fractions, as `checked_product_of` and `checked_quotient_of` of `Reduced` return them with room for two numbers an item. |
//! | `splits` | The laws of amounts split by shares or by weights. |
//! | `values` | The laws of fractions as `Ratio` with equal values: 1/2 and 2/4. |
//! | `told_apart` | The law of the numbers of a primitive type before a hasher: no two feed it the same. |
//! | `big_fraction` | The laws of `BigFraction`: its values are a field, and totally ordered. |
//! | `big_fraction::field` | The laws of a field, for `BigFraction`: sums and products in any order and grouping, 0 and 1, negatives and reciprocals. |
//! | `big_fraction::order` | The laws of the order of `BigFraction`, of `==` and of hashes. |
//! | `big_fraction::powers` | The laws of powers of `BigFraction`, for all whole numbers as exponents. |
//! | `big_fraction::signs` | The laws of negatives and absolute values of `BigFraction`. |
//! | `big_fraction::texts` | The law that the text of a `BigFraction` reads back as it. |
//! | `big_fraction::rounding` | The laws of floors, ceilings and remainders of `BigFraction`. |
#![tactic(auto)]

pub mod big_fraction;
pub mod divisors;
pub mod folds;
pub mod laws;
pub mod many_products;
pub mod nearest;
pub mod neutral;
pub mod order;
pub mod powers;
pub mod reading;
pub mod reduced;
pub mod remainder;
pub mod rounding;
pub mod signs;
pub mod splits;
pub mod told_apart;
pub mod undoing;
pub mod values;

ghost use Rattle.std.specs.Prelude.{◌≡◌, ◌≢◌, ℤ, pos, Result, Ok};
ghost use Rattle.ratio_integer.specs.Range.{IsHeld};
ghost use Rattle.num_rational.specs.Json.{AnswersJson, json_pair};
ghost use Rattle.num_rational.specs.declared.json.JsonRatioError.{JsonRatioError};

/// Reading the JSON list of a fraction's two fields gives these fields, and nothing else.
pub fn json_pairs()
    ensures { (lo hi n d : ℤ) (answer : Result (ℤ × ℤ) JsonRatioError)
        → IsHeld lo hi n → IsHeld lo hi d → d ≢ pos 0
        → AnswersJson (λ x. x.0) (λ x. x.1) lo hi (json_pair n d) answer → answer ≡ Ok (n, d) }
{}
