//! Fractions as JSON: a list of the two fields.
ghost use Rattle.std.specs.Prelude.{◌≡◌, IfOk, Some};
ghost use Rattle.serde_json.specs.View.{view};
ghost use Rattle.num_rational.specs.Json.{AnswersJson, AnswersJsonInteger, ReadsJson, json_pair, json_refusal_text};
ghost use Rattle.num_rational.specs.Ratio.{denominator, numerator};

use crate::ratio::Ratio;
use ratio_integer::Primitive;
use serde_json::{Value, json};
use std::alloc::{AllocError, Global};
use std::error::Error;
use std::fmt;

/// Why a JSON value is not a fraction.
#[derive(Clone, Copy, PartialEq, Debug)]
pub enum JsonRatioError {
    /// The value is not a list of exactly two values.
    NotAPair = 1,
    /// One of the two is not a whole number that fits the type. A number that is kept as a float is
    /// not one, even `1.0`.
    NotAnInteger = 2,
    /// The second number is 0.
    ZeroDenominator = 3,
}

impl fmt::Display for JsonRatioError {
    ghost output = { λ e. Some (json_refusal_text e) };

    fn fmt<W: fmt::Write>(&self, f: &mut fmt::Formatter<W>) -> fmt::Result {
        match self {
            JsonRatioError::NotAPair => f.write_str("not a list of two"),
            JsonRatioError::NotAnInteger => f.write_str("not a whole number of the type"),
            JsonRatioError::ZeroDenominator => f.write_str("zero value denominator"),
        }
    }
}

impl Error for JsonRatioError {}

/// A type whose fractions can be written as JSON. Each of its numbers fits an `i64`.
pub trait JsonInteger: Primitive {
    /// The number.
    fn json_number(self) -> i64
        ensures { result ≡ Self.value self };
}

impl JsonInteger for i32 {
    fn json_number(self) -> i64 {
        self as i64
    }
}

impl JsonInteger for i64 {
    fn json_number(self) -> i64 {
        self
    }
}

impl<T: JsonInteger> Ratio<T> {
    /// The list of the two fields as they are, the numerator first: `[2,4]` for 2/4. The error means
    /// that an allocation failed. Tests show this, since no contract can say so.
    pub fn to_json(&self, alloc: Global) -> Result<Value, AllocError>
        ensures { IfOk result (λ v. view v ≡ json_pair (numerator self.now) (denominator self.now)) }
    {
        json!(in alloc; [self.numer.json_number(), self.denom.json_number()])
    }

    /// The fraction with the two fields of a list, not reduced. The refusals come in this order: it
    /// is not a list of two, one of the two is not a whole number of the type, the denominator is 0.
    pub fn from_json(value: &Value) -> Result<Ratio<T>, JsonRatioError>
        ensures { ReadsJson (view value.now) result }
    {
        match fields::<T>(value) {
            Ok((numer, denom)) => Ok(Ratio::new_raw(numer, denom)),
            Err(refusal) => Err(refusal),
        }
    }
}

// The two numbers of the list.
fn fields<T: Primitive>(value: &Value) -> Result<(T, T), JsonRatioError>
    ensures { AnswersJson (λ r. T.value r.0) (λ r. T.value r.1) T.lo T.hi (view value.now) result }
{
    let Some(items) = value.as_array() else {
        return Err(JsonRatioError::NotAPair);
    };
    if items.len() != 2 {
        return Err(JsonRatioError::NotAPair);
    }
    let first = integer::<T>(&items[0]);
    let second = integer::<T>(&items[1]);
    match first {
        None => Err(JsonRatioError::NotAnInteger),
        Some(numer) => match second {
            None => Err(JsonRatioError::NotAnInteger),
            Some(denom) => if denom.is_zero() {
                Err(JsonRatioError::ZeroDenominator)
            } else {
                Ok((numer, denom))
            },
        },
    }
}

// The whole number that the value is, if it is one.
fn integer<T: Primitive>(value: &Value) -> Option<T>
    ensures { AnswersJsonInteger T.value T.lo T.hi (view value.now) result }
{
    match value.as_number() {
        None => None,
        Some(number) => match number.as_i128() {
            None => None,
            Some(n) => T::from_i128(n),
        },
    }
}
