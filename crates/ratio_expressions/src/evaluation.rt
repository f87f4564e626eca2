//! The value of the steps of a tree, over a stack of values.
ghost use Rattle.std.specs.Prelude.{◌≡◌, ◌≤◌, ◌∷◌, Some, None, drop, reverse, take, vec_len, IfOk, IsErrOf, MatchResult};
ghost use Rattle.std.specs.List.{All};
ghost use Rattle.ratio_expressions.specs.Bound.{named};
ghost use Rattle.ratio_expressions.specs.Calls.{GivesCall, RefusesCall};
ghost use Rattle.ratio_expressions.specs.Grammar.{Tree, postfix};
ghost use Rattle.ratio_expressions.specs.Stacks.{AreOfTree, FailsWith, IsStepWithin, TakesStep, StopsAtStep, values_taken, worths};
ghost use Rattle.ratio_expressions.specs.Values.{HasRefusal, IsWorth, piece};
ghost use Rattle.ratio_expressions.specs.Worths.{Worth, worth};
ghost use Rattle.ratio_expressions.specs.declared.refusal.Refusal.{Refusal};
ghost use Rattle.ratio_expressions.specs.declared.refusal.Reason.TheVariants as reasons;

use crate::calls::called;
use crate::names::Names;
use crate::number::number_in;
use crate::operation::{applied, signed};
use crate::refusal::{Reason, ValueError, refused};
use crate::step::{Call, Step};
use crate::value::Value;
use std::alloc::{AllocError, Global};

/// The value of the steps of a tree, or its refusal.
pub(crate) fn value_of_steps(
    alloc: Global,
    text: &[u8],
    names: &Names,
    steps: &[Step],
) -> Result<Value, ValueError>
    requires tree { AreOfTree steps.now }
    requires within { All (IsStepWithin text.now) steps.now }
    ensures value { IfOk result (λ v. (t : Tree) → steps.now ≡ postfix t → IsWorth text.now (named names.now) t (worth v)) }
    ensures refusal { (r : Refusal) → IsErrOf result (ValueError.Refused r) → (t : Tree) → steps.now ≡ postfix t → HasRefusal text.now (named names.now) t r }
{
    let mut stack = Vec::new(alloc);
    for step in steps {
        take(alloc, text, names, *step, &mut stack)?;
    }
    Ok(stack.pop().unwrap())
}

// Takes one step.
fn take(
    alloc: Global,
    text: &[u8],
    names: &Names,
    step: Step,
    stack: &mut Vec<Value>,
) -> Result<(), ValueError>
    requires within { IsStepWithin text.now step }
    requires enough { values_taken step ≤ vec_len stack.old }
    ensures { MatchResult result (λ _. TakesStep text.now (named names.now) step (worths stack.old.items) (worths stack.new.items)) (FailsWith (StopsAtStep text.now (named names.now) step (worths stack.old.items))) }
{
    match step {
        Step::Number(span) => {
            let number = number_in(alloc, &text[span.start..span.end])?;
            put(stack, number, span.start)
        }
        Step::Name(span) => {
            let value = value_named(alloc, names, &text[span.start..span.end])?;
            put(stack, value, span.start)
        }
        Step::Sign(sign, span) => {
            let operand = stack.pop().unwrap();
            let value = signed(alloc, sign, operand)?;
            put(stack, value, span.start)
        }
        Step::Apply(operator, span) => {
            let right = stack.pop().unwrap();
            let left = stack.pop().unwrap();
            let value = applied(alloc, operator, &left, &right)?;
            put(stack, value, span.start)
        }
        Step::Group(_, _) => Ok(()),
        Step::Comma(_) => Ok(()),
        Step::Call(call) => take_call(alloc, text, call, stack),
    }
}

// Takes the step of a call, and with it as many values as it has arguments.
fn take_call(
    alloc: Global,
    text: &[u8],
    call: Call,
    stack: &mut Vec<Value>,
) -> Result<(), ValueError>
    requires within { IsStepWithin text.now (Step.Call call) }
    requires enough { call.arguments ≤ vec_len stack.old }
    ensures { let name = piece text.now call.name in let ws = reverse (take call.arguments (worths stack.old.items)) in MatchResult result
        (λ _. (w : Worth) × GivesCall name ws w × (worths stack.new.items ≡ w ∷ drop call.arguments (worths stack.old.items)))
        (FailsWith (λ r. RefusesCall name ws r.reason × (r.place ≡ call.name.start))) }
{
    let first = stack.len() - call.arguments;
    let name = &text[call.name.start..call.name.end];
    let value = called(alloc, name, &stack[first..])?;
    stack.truncate(first);
    put(stack, value, call.name.start)
}

// Puts down a value that was found, or refuses the place for the reason that there is none.
fn put(stack: &mut Vec<Value>, found: Result<Value, Reason>, place: usize) -> Result<(), ValueError>
    ensures { MatchResult found
        (λ v. MatchResult result (λ _. worths stack.new.items ≡ worth v ∷ worths stack.old.items) (FailsWith (λ _. ⊥)))
        (λ reason. MatchResult result (λ _. ⊥) (FailsWith (λ r. (r.reason ≡ reason) × (r.place ≡ place)))) }
{
    match found {
        Ok(value) => match stack.push(value) {
            Ok(()) => Ok(()),
            Err(_) => Err(ValueError::Memory),
        },
        Err(reason) => Err(refused(reason, place)),
    }
}

// The value with a name, if it has one.
fn value_named(
    alloc: Global,
    names: &Names,
    name: &[u8],
) -> Result<Result<Value, Reason>, AllocError>
    ensures { IfOk result (λ r. MatchResult r (λ v. named names.now name.now ≡ Some (worth v)) (λ reason. (named names.now name.now ≡ None) × (reason ≡ reasons.UnknownName))) }
{
    match names.get(name) {
        Some(value) => Ok(Ok(value.copy(alloc)?)),
        None => Ok(Err(Reason::UnknownName)),
    }
}
