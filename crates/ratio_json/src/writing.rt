//! The JSON value of a fraction.
ghost use Rattle.std.specs.Prelude.{◌≡◌, ◌^◌, ◌<◌, ◌≤◌, pos, unsigned_abs, IfOk, MatchOption};
ghost use Rattle.serde_json.specs.View.{view};
ghost use Rattle.ratio_big.specs.Fractions.{big_numbers};
ghost use Rattle.ratio_json.specs.BigJson.{ratio_json, json_whole};

use ratio_big::BigFraction;
use serde_json::{Value, json};
use std::alloc::{AllocError, Global};

// The greatest number that is written as one.
const MOST: u64 = 1 << 53;

/// The list of the two numbers, the numerator first: `[-1,3]` for -1/3. A number below -2^53 or above 2^53 is a text. An error means
/// that an allocation failed.
pub fn to_json(alloc: Global, x: &BigFraction) -> Result<Value, AllocError>
    ensures { IfOk result (λ v. view v ≡ ratio_json (big_numbers x.now)) }
{
    let numer = x.numer(alloc)?;
    let numer = written(alloc, &numer)?;
    let denom = x.denom(alloc)?;
    let denom = written(alloc, &denom)?;
    json!(in alloc; [numer, denom])
}

// The JSON value of a whole number.
fn written(alloc: Global, x: &BigFraction) -> Result<Value, AllocError>
    requires { (big_numbers x.now).1 ≡ pos 1 }
    ensures { IfOk result (λ v. view v ≡ json_whole (big_numbers x.now).0) }
{
    match at_most(x) {
        Some(n) => Ok(Value::from(n)),
        None => {
            let text = x.to_text(alloc)?;
            Ok(Value::from(text))
        }
    }
}

// The whole number, or `None` exactly if it is below -2^53 or above 2^53.
fn at_most(x: &BigFraction) -> Option<i64>
    requires { (big_numbers x.now).1 ≡ pos 1 }
    ensures { MatchOption result
        (2 ^ 53 < unsigned_abs (big_numbers x.now).0)
        (λ n. (n ≡ (big_numbers x.now).0) × (unsigned_abs (big_numbers x.now).0 ≤ 2 ^ 53)) }
{
    match x.to_reduced() {
        Some(short) => {
            let n = *short.numer();
            if n.unsigned_abs() <= MOST {
                Some(n)
            } else {
                None
            }
        }
        None => None,
    }
}
