//! The value of a line, which gives it names: `x = 3/7`.
ghost use Rattle.std.specs.Prelude.{◌≡◌, ◌≤◌, ℕ, List, length, IfOk, IfSome, IsErrOf, OnErr, OnOk};
ghost use Rattle.ratio_expressions.specs.Bound.{named};
ghost use Rattle.ratio_expressions.specs.Lines.{AreOldOrNew, HasLineRefusal, IsLineWorth, with_name, with_target};
ghost use Rattle.ratio_expressions.specs.Stacks.{IsStepWithin};
ghost use Rattle.ratio_expressions.specs.Tokens.{BeginsWithToken};
ghost use Rattle.ratio_expressions.specs.Worths.{worth};
ghost use Rattle.ratio_expressions.specs.declared.refusal.Refusal.{Refusal};
ghost use Rattle.ratio_expressions.specs.declared.step.Step.{Step};

use crate::assignment::assignment;
use crate::evaluation::value_of_steps;
use crate::expression::tree_of;
use crate::names::Names;
use crate::refusal::ValueError;
use crate::token::Span;
use crate::value::Value;
use std::alloc::{AllocError, Global};

/// The value of a line, or its first refusal. `x = 3/7` gives the value the name `x`, and each line gives its value the name `ans`. After a
/// refusal the names are what they were. After a want of memory each name has the value that it had, or the new one.
pub fn value_of_line(alloc: Global, text: &[u8], names: &mut Names) -> Result<Value, ValueError>
    ensures value { IfOk result (λ v. IsLineWorth text.now (named names.old) (worth v) (named names.new)) }
    ensures refusal { (r : Refusal) → IsErrOf result (ValueError.Refused r) → HasLineRefusal text.now (named names.old) r }
    ensures within { (r : Refusal) → IsErrOf result (ValueError.Refused r) → r.place ≤ length text.now }
    ensures kept { (r : Refusal) → IsErrOf result (ValueError.Refused r) → (other : List ℕ) → named names.new other ≡ named names.old other }
    // Where memory runs out, a name has the value that it had, or the new one.
    ensures either { IsErrOf result ValueError.Memory → AreOldOrNew text.now (named names.old) (named names.new) }
    // A line that begins with no token takes no memory.
    ensures memory { IsErrOf result ValueError.Memory → BeginsWithToken text.now }
{
    let steps = tree_of(alloc, text)?;
    let (name, expression) = assignment(&steps);
    let value = value_of_steps(alloc, text, names, expression)?;
    put_target(alloc, text, names, name, &value)?;
    put_copy(alloc, names, b"ans", &value)?;
    Ok(value)
}

// Gives a copy of a value the name at a place, if there is one.
fn put_target(
    alloc: Global,
    text: &[u8],
    names: &mut Names,
    name: Option<Span>,
    value: &Value,
) -> Result<(), AllocError>
    requires { IfSome name (λ s. IsStepWithin text.now (Step.Name s)) }
    ensures put { OnOk result ((other : List ℕ) → named names.new other ≡ with_target text.now (named names.old) name (worth value.now) other) }
    ensures kept { OnErr result ((other : List ℕ) → named names.new other ≡ named names.old other) }
{
    match name {
        Some(span) => put_copy(alloc, names, &text[span.start..span.end], value),
        None => Ok(()),
    }
}

// Gives a copy of a value a name.
fn put_copy(alloc: Global, names: &mut Names, name: &[u8], value: &Value) -> Result<(), AllocError>
    ensures put { OnOk result ((other : List ℕ) → named names.new other ≡ with_name (named names.old) name.now (worth value.now) other) }
    ensures kept { OnErr result ((other : List ℕ) → named names.new other ≡ named names.old other) }
{
    let copy = value.copy(alloc)?;
    names.set(alloc, name, copy)
}
