//! Texts with many parentheses.
use ratio_expressions::expression::tree_of;
use ratio_expressions::names::Names;
use ratio_expressions::refusal::{Reason, Refusal, ValueError};
use ratio_expressions::text_value::value_of;
use std::alloc::{AllocError, Global};
use std::test::Fail;

// As many opening parentheses, a 1, and as many closing ones.
fn nested(alloc: Global, open: usize, close: usize) -> Result<Vec<u8>, AllocError> {
    let mut text = Vec::new(alloc);
    for _ in 0..open {
        text.push(b'(')?;
    }
    text.push(b'1')?;
    for _ in 0..close {
        text.push(b')')?;
    }
    Ok(text)
}

// The refusal of the parenthesis with which more than 1,000 are open.
fn too_deep() -> ValueError {
    ValueError::Refused(Refusal {
        reason: Reason::TooDeep,
        place: 1000,
    })
}

#[test]
fn a_thousand_parentheses_have_a_tree(rt: HostRuntime) -> Result<(), Fail> {
    let text = nested(rt.alloc(), 1000, 1000)?;
    let steps = tree_of(rt.alloc(), &text)?;
    assert_eq!(rt; steps.len(), 1001);
    Ok(())
}

#[test]
fn more_are_too_deep(rt: HostRuntime) -> Result<(), Fail> {
    let closed = nested(rt.alloc(), 1001, 1001)?;
    let open = nested(rt.alloc(), 10_000, 0)?;
    assert_eq!(rt; tree_of(rt.alloc(), &closed).err(), Some(too_deep()));
    assert_eq!(rt; tree_of(rt.alloc(), &open).err(), Some(too_deep()));
    Ok(())
}

#[test]
fn too_deep_has_no_value(rt: HostRuntime) -> Result<(), Fail> {
    let open = nested(rt.alloc(), 10_000, 0)?;
    let names = Names::new(rt.alloc());
    assert_eq!(rt; value_of(rt.alloc(), &open, &names).err(), Some(too_deep()));
    Ok(())
}
