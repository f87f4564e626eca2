//! The value of a text, or its first refusal.
ghost use Rattle.std.specs.Prelude.{◌≤◌, length, IfOk, IsErrOf};
ghost use Rattle.ratio_expressions.specs.Answers.{HasTextRefusal, IsTextWorth};
ghost use Rattle.ratio_expressions.specs.Bound.{named};
ghost use Rattle.ratio_expressions.specs.Tokens.{BeginsWithToken};
ghost use Rattle.ratio_expressions.specs.Worths.{worth};
ghost use Rattle.ratio_expressions.specs.declared.refusal.Refusal.{Refusal};

use crate::evaluation::value_of_steps;
use crate::expression::tree_of;
use crate::names::Names;
use crate::refusal::ValueError;
use crate::value::Value;
use std::alloc::Global;

/// The value of a text, with what each name is worth, or its first refusal. `1/3 + 0.25` is 7/12, and `2 + x`, without an `x`, is
/// refused at 4.
pub fn value_of(alloc: Global, text: &[u8], names: &Names) -> Result<Value, ValueError>
    ensures value { IfOk result (λ v. IsTextWorth text.now (named names.now) (worth v)) }
    ensures refusal { (r : Refusal) → IsErrOf result (ValueError.Refused r) → HasTextRefusal text.now (named names.now) r }
    ensures within { (r : Refusal) → IsErrOf result (ValueError.Refused r) → r.place ≤ length text.now }
    // A text that begins with no token takes no memory.
    ensures memory { IsErrOf result ValueError.Memory → BeginsWithToken text.now }
{
    match tree_of(alloc, text) {
        Ok(steps) => value_of_steps(alloc, text, names, &steps),
        Err(error) => Err(error),
    }
}
