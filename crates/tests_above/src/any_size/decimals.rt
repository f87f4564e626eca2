//! Numbers with thousands of digits.

use crate::any_size::made::{is_short, short};
use ratio_big::BigFraction;
use ratio_decimal::rounding_rule::Rounding;
use std::alloc::Global;
use std::test::Fail;

fn decimal(alloc: Global, text: &str) -> Result<BigFraction, Fail> {
    Ok(BigFraction::from_decimal(alloc, text)?.ok_or("no decimal")?)
}

#[test]
fn many_places(rt: HostRuntime) -> Result<(), Fail> {
    let third = short(&rt, 1, 3).decimal(rt.alloc(), 10000, Rounding::Down)?;
    assert_eq!(rt; third.len(), 10002);
    assert!(rt; third.as_str().ends_with("3333"));
    Ok(())
}

/// 10^5000 has 5001 digits, and 3/10^10000 has 10,000 places.
#[test]
fn very_long_decimals(rt: HostRuntime) -> Result<(), Fail> {
    let alloc = rt.alloc();
    let text = decimal(alloc, "1e5000")?.to_text(alloc)?;
    assert_eq!(rt; text.len(), 5001);
    let small = decimal(alloc, "3e-10000")?;
    let text = small.decimal(alloc, 10000, Rounding::Down)?;
    assert_eq!(rt; text.len(), 10002);
    let back = decimal(alloc, text.as_str())?;
    is_short(&rt, &back.divide(alloc, &small)?.ok_or("not 0")?, 1, 1);
    Ok(())
}

/// The 100th part of 10^5000 has 4999 digits.
#[test]
fn typed_texts(rt: HostRuntime) -> Result<(), Fail> {
    let alloc = rt.alloc();
    let part = BigFraction::from_text(alloc, "1e5000%")??.to_text(alloc)?;
    let text = decimal(alloc, "1e4998")?.to_text(alloc)?;
    assert_eq!(rt; text.len(), 4999);
    assert_eq!(rt; part.as_str(), text.as_str());
    Ok(())
}
