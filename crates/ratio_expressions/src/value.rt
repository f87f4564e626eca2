//! `Value`: what an expression is worth.
ghost use Rattle.std.specs.Prelude.{◌≡◌, IfOk, OnErr};
ghost use Rattle.ratio_expressions.specs.Worths.{worth, IsShortWorth};

use ratio_big::BigFraction;
use std::alloc::{AllocError, Global};

/// What an expression is worth: a number, or true or false, as a comparison is.
#[derive(Drop)]
pub enum Value {
    Number(BigFraction),
    Truth(bool),
}

impl Value {
    /// The same value once more. An error means that an allocation failed.
    pub fn copy(&self, alloc: Global) -> Result<Value, AllocError>
        ensures same { IfOk result (λ copy. worth copy ≡ worth self.now) }
        // Only a number with a part that no `i64` has takes memory.
        ensures memory { OnErr result (¬ (IsShortWorth (worth self.now))) }
    {
        match self {
            Value::Number(x) => Ok(Value::Number(x.copy(alloc)?)),
            Value::Truth(b) => Ok(Value::Truth(*b)),
        }
    }
}
