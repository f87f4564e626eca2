//! Rows of JSON values, from outside.
use crate::asserting::all_hold;
use num_rational::{JsonInteger, JsonRatioError, Ratio, Rational32, Rational64};
use serde_json::Value;
use std::alloc::Global;
use std::fmt::InlineText;
use std::test::Fail;

// Whether the JSON text gives these fields, or the refusal with this number.
fn reads<T: JsonInteger>(
    text: &str,
    alloc: Global,
    want: Result<(T, T), u8>,
) -> Result<bool, Fail> {
    let value = Value::from_str(alloc, text)?;
    Ok(match (Ratio::<T>::from_json(&value), want) {
        (Ok(x), Ok((numer, denom))) => *x.numer() == numer && *x.denom() == denom,
        (Err(refusal), Err(number)) => refusal as u8 == number,
        _ => false,
    })
}

// The first text that is not refused with this number.
fn first_taken(texts: &[&str], alloc: Global, number: u8) -> Result<Option<usize>, Fail> {
    for (i, text) in texts.iter().enumerate() {
        if !reads::<i32>(text, alloc, Err(number))? {
            return Ok(Some(i));
        }
    }
    Ok(None)
}

#[test]
fn refused_values(rt: HostRuntime) -> Result<(), Fail> {
    let texts = ["[1]", "null", "{}", "[]", "[1,2,3]"];
    all_hold(&rt, "not a pair", first_taken(&texts, rt.alloc(), 1)?);
    let texts = [
        "[1.5,2]",
        "[2147483648,1]",
        "[1.5,0]",
        "[\"1\",2]",
        "[true,1]",
        "[1,null]",
        "[1.0,2]",
        "[2147483648,0]",
    ];
    all_hold(&rt, "not integers", first_taken(&texts, rt.alloc(), 2)?);
    all_hold(&rt, "zero", first_taken(&["[1,0]"], rt.alloc(), 3)?);
    Ok(())
}

#[test]
fn values_are_read(rt: HostRuntime) -> Result<(), Fail> {
    let alloc = rt.alloc();
    assert!(rt; reads::<i32>("[1,-2]", alloc, Ok((1, -2)))?);
    assert!(rt; reads::<i32>("[-2147483648,-2147483648]", alloc, Ok((i32::MIN, i32::MIN)))?);
    assert!(rt; reads::<i64>("[9223372036854775808,1]", alloc, Err(2))?);
    assert!(rt; reads::<i64>("[-9223372036854775808,-1]", alloc, Ok((i64::MIN, -1)))?);
    Ok(())
}

#[test]
fn fractions_are_written(rt: HostRuntime) -> Result<(), Fail> {
    let alloc = rt.alloc();
    let short = Rational32::new_raw(3, 4).to_json(alloc)?;
    assert_eq!(rt; short.to_string(alloc)?.as_str(), "[3,4]");
    let long = Rational64::new_raw(3, 4).to_json(alloc)?;
    assert_eq!(rt; long.to_string(alloc)?.as_str(), "[3,4]");
    Ok(())
}

// The first of a thousand fractions over each of two types that is not written, or that is not given back by its value.
fn first_lost(alloc: Global) -> Result<Option<usize>, Fail> {
    for row in 0..1000usize {
        let short = Rational32::new_raw(row as i32 * 1_000_003 - 500_000_000, 999 - row as i32 * 2);
        let long = Rational64::new_raw(i64::MIN + row as i64, i64::MAX - row as i64);
        if Ratio::from_json(&short.to_json(alloc)?).ok() != Some(short)
            || Ratio::from_json(&long.to_json(alloc)?).ok() != Some(long)
        {
            return Ok(Some(row));
        }
    }
    Ok(None)
}

#[test]
fn fractions_come_back(rt: HostRuntime) -> Result<(), Fail> {
    all_hold(&rt, "written and read", first_lost(rt.alloc())?);
    Ok(())
}

#[test]
fn refusals_of_json_are_printed(rt: HostRuntime) {
    let row = InlineText::<120>::of(format_args!(
        "{}, {}, {}",
        JsonRatioError::NotAPair,
        JsonRatioError::NotAnInteger,
        JsonRatioError::ZeroDenominator
    ));
    assert_eq!(rt;
        row.as_str(),
        "not a list of two, not a whole number of the type, zero value denominator"
    );
}
