//! The tree of a list of tokens, or the first token that no expression has there.
mod error;
mod mark;

ghost use Rattle.std.specs.Prelude.{◌≡◌, ◌<◌, ◌≤◌, ◌+◌, ◌++◌, ℕ, [], ◌∷◌, length, take, reverse, Some, None, IfOk, OnOk, IfErr, MatchResult, IsErrOf, Option, List, true, false};
ghost use Rattle.ratio_expressions.specs.declared.step.Step.{Step};
ghost use Rattle.ratio_expressions.specs.Grammar.{Tree, HasTree, IsBegun, left_level, rank, postfix};
ghost use Rattle.ratio_expressions.specs.Reading.{Gives, Fails, IsNextState, room, settle, next_state, behind_operand, with_close, with_call, with_comma, work_of, state_of};

use crate::parser::mark::{
    Mark, left_level_of, level_of, level_of_mark, room_of_mark, step_of_mark,
};
use crate::step::{Call, Step};
use crate::token::{Kind, Operator, Sign, Span, Token};
pub use error::ParseError;
use std::alloc::{AllocError, Global};

/// The tree of a list of tokens, in postfix order, or the first token that no expression has there.
pub fn parse(alloc: Global, tokens: &[Token]) -> Result<Vec<Step>, ParseError>
    // What is returned is the tree of the tokens.
    ensures found { IfOk result (λ steps. (t : Tree) × HasTree tokens.now t × (steps.items ≡ postfix t)) }
    // The tokens before the refused one begin an expression.
    ensures begun { (at : ℕ) → IsErrOf result (ParseError.RefusedToken at) → IsBegun (take at tokens.now) }
    // With the refused one they do not.
    ensures stopped { (at : ℕ) → IsErrOf result (ParseError.RefusedToken at) → at < length tokens.now
        → ¬ IsBegun (take (at + 1) tokens.now) }
    // If all tokens are read, they have no tree.
    ensures unfinished { (at : ℕ) → IsErrOf result (ParseError.RefusedToken at) → length tokens.now ≤ at
        → (t : Tree) → ¬ HasTree tokens.now t }
    // It is one of the tokens, or their end.
    ensures within { (at : ℕ) → IsErrOf result (ParseError.RefusedToken at) → at ≤ length tokens.now }
    // No tokens take no memory.
    ensures memory { IsErrOf result ParseError.Memory → 0 < length tokens.now }
{
    read_all(alloc, tokens)
}

// The steps of all tokens.
fn read_all(alloc: Global, tokens: &[Token]) -> Result<Vec<Step>, ParseError>
    ensures read { MatchResult result (λ steps. Gives tokens.now steps.items) (λ e. Fails tokens.now e) }
    ensures memory { IsErrOf result ParseError.Memory → 0 < length tokens.now }
{
    let mut marks = Vec::new(alloc);
    let mut steps = Vec::with_capacity(alloc, tokens.len())?;
    let mut wants = true;
    for (at, token) in tokens.iter().enumerate() {
        match read_token(*token, &mut marks, &mut steps, wants)? {
            None => return Err(ParseError::RefusedToken(at)),
            Some(next) => wants = next,
        }
    }
    if wants {
        return Err(ParseError::RefusedToken(tokens.len()));
    }
    settle_marks(1, &mut marks, &mut steps)?;
    if !marks.is_empty() {
        return Err(ParseError::RefusedToken(tokens.len()));
    }
    Ok(steps)
}

// Reads one token. The result is whether an operand comes next, or `None` if the token is refused.
fn read_token(
    token: Token,
    marks: &mut Vec<Mark>,
    steps: &mut Vec<Step>,
    wants: bool,
) -> Result<Option<bool>, AllocError>
    ensures { IfOk result (λ next. IsNextState (next_state wants token.kind token.span (work_of marks.old.items steps.old.items))
        marks.new.items steps.new.items next) }
{
    if !wants {
        return read_behind(token, marks, steps);
    }
    match token.kind {
        Kind::Number => put_operand(Step::Number(token.span), steps),
        Kind::Name => put_operand(Step::Name(token.span), steps),
        Kind::Operator(Operator::Add) => put_mark(Mark::Prefix(Sign::Plus, token.span), marks),
        Kind::Operator(Operator::Subtract) => {
            put_mark(Mark::Prefix(Sign::Minus, token.span), marks)
        }
        Kind::Open => put_mark(Mark::Opened(token.span), marks),
        Kind::Operator(_) | Kind::Close | Kind::Comma => Ok(None),
    }
}

// Reads one token behind an operand.
fn read_behind(
    token: Token,
    marks: &mut Vec<Mark>,
    steps: &mut Vec<Step>,
) -> Result<Option<bool>, AllocError>
    ensures { IfOk result (λ next. IsNextState (behind_operand token.kind token.span (work_of marks.old.items steps.old.items))
        marks.new.items steps.new.items next) }
{
    match token.kind {
        Kind::Operator(operator) => {
            settle_marks(left_level_of(operator), marks, steps)?;
            if level_of(operator) < room_of(marks) {
                return Ok(None);
            }
            put_mark(Mark::Half(operator, token.span), marks)
        }
        Kind::Close => {
            settle_marks(2, marks, steps)?;
            read_close(token.span, marks, steps)
        }
        Kind::Comma => {
            settle_marks(2, marks, steps)?;
            read_comma(token.span, marks)
        }
        Kind::Open => read_call(token.span, marks, steps),
        Kind::Number | Kind::Name => Ok(None),
    }
}

// Puts down an operand. An operator comes next.
fn put_operand(operand: Step, steps: &mut Vec<Step>) -> Result<Option<bool>, AllocError>
    ensures { IfOk result (λ next. (next ≡ Some false) × (steps.new.items ≡ steps.old.items ++ operand ∷ [])) }
{
    steps.push(operand)?;
    Ok(Some(false))
}

// Puts down a mark. An operand comes next.
fn put_mark(mark: Mark, marks: &mut Vec<Mark>) -> Result<Option<bool>, AllocError>
    ensures { IfOk result (λ next. (next ≡ Some true) × (marks.new.items ≡ marks.old.items ++ mark ∷ [])) }
{
    marks.push(mark)?;
    Ok(Some(true))
}

// How tightly an expression must bind to stand right of what waits last.
fn room_of(marks: &[Mark]) -> u8
    ensures { result ≡ room (reverse marks.now) }
{
    match marks {
        [.., mark] => room_of_mark(*mark),
        [] => 0,
    }
}

// Reads an opening parenthesis behind an operand, if the operand is a name.
fn read_call(
    span: Span,
    marks: &mut Vec<Mark>,
    steps: &mut Vec<Step>,
) -> Result<Option<bool>, AllocError>
    ensures { IfOk result (λ next. IsNextState (with_call span (reverse marks.old.items) (reverse steps.old.items)) marks.new.items
        steps.new.items next) }
{
    match steps.pop() {
        Some(Step::Name(name)) => put_mark(Mark::Called(name, span, 1), marks),
        _ => Ok(None),
    }
}

// Reads a comma, if what waits last is a call. No memory has as many tokens as could not be counted.
fn read_comma(span: Span, marks: &mut Vec<Mark>) -> Result<Option<bool>, AllocError>
    ensures { (steps : List Step) → IfOk result (λ next. IsNextState (with_comma span (reverse marks.old.items) steps)
        marks.new.items steps next) }
{
    match marks.pop() {
        Some(Mark::Called(name, open, count)) => {
            let more = count.checked_add(1).ok_or(AllocError)?;
            marks.push(Mark::Called(name, open, more))?;
            put_mark(Mark::Comma(span), marks)
        }
        _ => Ok(None),
    }
}

// Reads a closing parenthesis, if what waits last is an opening one or a call.
fn read_close(
    span: Span,
    marks: &mut Vec<Mark>,
    steps: &mut Vec<Step>,
) -> Result<Option<bool>, AllocError>
    ensures { IfOk result (λ next. IsNextState (with_close span (reverse marks.old.items) steps.old.items) marks.new.items
        steps.new.items next) }
{
    match marks.pop() {
        Some(Mark::Opened(open)) => put_operand(Step::Group(open, span), steps),
        Some(Mark::Called(name, open, arguments)) => {
            let call = Call {
                name,
                opening: open,
                closing: span,
                arguments,
            };
            put_operand(Step::Call(call), steps)
        }
        _ => Ok(None),
    }
}

// Makes the marks that bind at least so tightly steps, from the last on.
fn settle_marks(least: u8, marks: &mut Vec<Mark>, steps: &mut Vec<Step>) -> Result<(), AllocError>
    ensures { OnOk result (work_of marks.new.items steps.new.items
        ≡ settle least (reverse marks.old.items) steps.old.items) }
{
    while let Some(mark) = marks.last() {
        if level_of_mark(*mark) < least {
            return Ok(());
        }
        steps.push(step_of_mark(*mark))?;
        marks.pop();
    }
    Ok(())
}
