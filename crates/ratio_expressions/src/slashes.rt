//! Which chains of slashes are taken whole, and how a text shows that.
ghost use Rattle.std.specs.Prelude.{◌≡◌, ◌≤◌, ◌==◌, ◌++◌, ◌∷◌, [], length, option_map, reverse, vec_len, IfOk, IsErr, OnOk};
ghost use Rattle.std.specs.List.{list_any};
ghost use Rattle.ratio_expressions.specs.Grammar.{Tree, postfix};
ghost use Rattle.ratio_expressions.specs.Slashes.{IsShownAs, byte_if, chains_by, is_tight, marks_at, part_at, parts_by, shown_from, shown_with, whole_chains, whole_side};
ghost use Rattle.ratio_expressions.specs.Stacks.{AreOfTree, operands};
ghost use Rattle.ratio_expressions.specs.Tokens.{BeginsWithToken};

use crate::expression::tree_of;
use crate::refusal::ValueError;
use crate::step::Step;
use crate::token::{Operator, Spacing, Span};
use std::alloc::{AllocError, Global};

/// How long a text may be that is shown, in bytes.
pub const LONGEST_SHOWN: usize = 1000;

/// Where a part of an expression is, and whether slashes without spaces make it.
#[derive(Clone, Copy, PartialEq, Debug)]
pub(crate) struct Part {
    pub place: Span,
    pub slashed: bool,
}

/// The text with parentheses around each chain of slashes that is taken whole, right of a `/` or a `%` with a space on both sides:
/// `1/2 / 1/3` is read as `1/2 / (1/3)`. It is `None` if there is no such chain, and for a text of more than `LONGEST_SHOWN` bytes. An error means
/// that an allocation failed.
pub fn read_as(alloc: Global, text: &[u8]) -> Result<Option<Vec<u8>>, AllocError>
    ensures shown { IfOk result (λ shown. IsShownAs text.now (option_map (λ bytes. bytes.items) shown)) }
    // A text that begins with no token takes no memory.
    ensures memory { IsErr result → BeginsWithToken text.now }
{
    match tree_of(alloc, text) {
        Ok(steps) => shown_by(alloc, text, &steps),
        Err(ValueError::Refused(_refusal)) => Ok(None),
        Err(ValueError::Memory) => Err(AllocError),
    }
}

// The text with these steps as it is shown.
fn shown_by(alloc: Global, text: &[u8], steps: &[Step]) -> Result<Option<Vec<u8>>, AllocError>
    requires { AreOfTree steps.now }
    ensures { IfOk result (λ shown. (t : Tree) → steps.now ≡ postfix t → option_map (λ bytes. bytes.items) shown ≡ shown_with (whole_chains t) text.now) }
{
    let chains = chains_of(alloc, steps)?;
    shown(alloc, text, &chains)
}

// The chains that are taken whole.
fn chains_of(alloc: Global, steps: &[Step]) -> Result<Vec<Span>, AllocError>
    requires { AreOfTree steps.now }
    ensures { IfOk result (λ chains. (t : Tree) → steps.now ≡ postfix t → chains.items ≡ whole_chains t) }
{
    let mut parts = Vec::new(alloc);
    let mut chains = Vec::new(alloc);
    for step in steps {
        take_step(*step, &mut parts, &mut chains)?;
    }
    Ok(chains)
}

// Takes one step: the parts that it joins become one.
fn take_step(step: Step, parts: &mut Vec<Part>, chains: &mut Vec<Span>) -> Result<(), AllocError>
    requires { operands step ≤ vec_len parts.old }
    ensures parts { OnOk result (reverse parts.new.items ≡ parts_by step (reverse parts.old.items)) }
    ensures chains { OnOk result (chains.new.items ≡ chains.old.items ++ chains_by step (reverse parts.old.items)) }
{
    match step {
        Step::Number(span) | Step::Name(span) => put_part(parts, span.start, span.end, false),
        Step::Sign(_, span) => {
            let part = parts.pop().unwrap();
            put_part(parts, span.start, part.place.end, false)
        }
        Step::Apply(operator, _) => {
            let right = parts.pop().unwrap();
            let left = parts.pop().unwrap();
            put_chain(chains, operator, right)?;
            put_part(
                parts,
                left.place.start,
                right.place.end,
                is_tight_slash(operator),
            )
        }
        Step::Group(open, close) => {
            parts.pop().unwrap();
            put_part(parts, open.start, close.end, false)
        }
        Step::Comma(_) => {
            let right = parts.pop().unwrap();
            let left = parts.pop().unwrap();
            put_part(parts, left.place.start, right.place.end, false)
        }
        Step::Call(call) => {
            parts.pop().unwrap();
            put_part(parts, call.name.start, call.closing.end, false)
        }
    }
}

// Puts down a part from one place to another.
fn put_part(
    parts: &mut Vec<Part>,
    start: usize,
    end: usize,
    slashed: bool,
) -> Result<(), AllocError>
    ensures { OnOk result (parts.new.items ≡ parts.old.items ++ part_at start end slashed ∷ []) }
{
    parts.push(Part {
        place: Span { start, end },
        slashed,
    })?;
    Ok(())
}

// Puts down the right side of an operator, if it is a chain that is taken whole.
fn put_chain(chains: &mut Vec<Span>, operator: Operator, right: Part) -> Result<(), AllocError>
    ensures { OnOk result (chains.new.items ≡ chains.old.items ++ whole_side operator right.slashed right.place) }
{
    match operator {
        Operator::Divide(Spacing::Wide) | Operator::Remainder(Spacing::Wide) if right.slashed => {
            chains.push(right.place)?;
            Ok(())
        }
        _ => Ok(()),
    }
}

// Whether the operator is a slash without spaces.
fn is_tight_slash(operator: Operator) -> bool
    ensures { result ≡ is_tight operator }
{
    match operator {
        Operator::Divide(Spacing::Tight) => true,
        _ => false,
    }
}

// The text with parentheses around the chains, if it is shown.
fn shown(alloc: Global, text: &[u8], chains: &[Span]) -> Result<Option<Vec<u8>>, AllocError>
    ensures { IfOk result (λ shown. option_map (λ bytes. bytes.items) shown ≡ shown_with chains.now text.now) }
{
    if chains.is_empty() || text.len() > LONGEST_SHOWN {
        return Ok(None);
    }
    let bytes = with_parentheses(alloc, text, chains)?;
    Ok(Some(bytes))
}

// The text with parentheses around the chains.
fn with_parentheses(alloc: Global, text: &[u8], chains: &[Span]) -> Result<Vec<u8>, AllocError>
    ensures { IfOk result (λ bytes. bytes.items ≡ shown_from chains.now 0 text.now) }
{
    let mut bytes = Vec::new(alloc);
    for (at, byte) in text.iter().enumerate() {
        put_marks(&mut bytes, chains, at)?;
        bytes.push(*byte)?;
    }
    put_marks(&mut bytes, chains, text.len())?;
    Ok(bytes)
}

// Puts down the parentheses at a place.
fn put_marks(bytes: &mut Vec<u8>, chains: &[Span], at: usize) -> Result<(), AllocError>
    ensures { OnOk result (bytes.new.items ≡ bytes.old.items ++ marks_at chains.now at) }
{
    put_if(bytes, ends_at(chains, at), b')')?;
    put_if(bytes, begins_at(chains, at), b'(')
}

// Puts down a byte, if it is shown.
fn put_if(bytes: &mut Vec<u8>, shown: bool, byte: u8) -> Result<(), AllocError>
    ensures { OnOk result (bytes.new.items ≡ bytes.old.items ++ byte_if shown byte) }
{
    if shown {
        bytes.push(byte)?;
    }
    Ok(())
}

// Whether a chain begins at the place.
fn begins_at(chains: &[Span], at: usize) -> bool
    ensures { result ≡ list_any (λ s. s.start == at) chains.now }
{
    chains.iter().any(|chain| chain.start == at)
}

// Whether a chain ends at the place.
fn ends_at(chains: &[Span], at: usize) -> bool
    ensures { result ≡ list_any (λ s. s.end == at) chains.now }
{
    chains.iter().any(|chain| chain.end == at)
}
