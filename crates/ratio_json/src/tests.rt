//! Rows of JSON values, from outside: 2^53 is 9007199254740992, and 2^64 is 18446744073709551616.
use crate::{from_json, laws, to_json};
use num_rational::JsonRatioError;
use ratio_big::BigFraction;
use serde_json::Value;
use std::alloc::Global;
use std::test::Fail;

fn read(alloc: Global, text: &str) -> Result<Result<BigFraction, JsonRatioError>, Fail> {
    let value = Value::from_str(alloc, text)?;
    Ok(from_json(alloc, &value)?)
}

// Whether the JSON text is the fraction that the second text says, and what is written of it reads so, too.
fn reads(alloc: Global, json: &str, want: &str) -> Result<bool, Fail> {
    let Ok(fraction) = read(alloc, json)? else {
        return Ok(false);
    };
    let text = fraction.to_text(alloc)?;
    Ok(text.as_str() == want)
}

fn is_refused(alloc: Global, json: &str, why: JsonRatioError) -> Result<bool, Fail> {
    Ok(read(alloc, json)?.err() == Some(why))
}

// Whether the fraction of the text is this JSON text, and that reads back.
fn writes(alloc: Global, text: &str, want: &str) -> Result<bool, Fail> {
    let Ok(fraction) = BigFraction::from_str(alloc, text)? else {
        return Ok(false);
    };
    let value = to_json(alloc, &fraction)?;
    let json = value.to_string(alloc)?;
    Ok(json.as_str() == want && reads(alloc, want, text)?)
}

#[test]
fn written(rt: HostRuntime) -> Result<(), Fail> {
    laws::reads_back();
    let alloc = rt.alloc();
    assert!(rt; writes(alloc, "-1/3", "[-1,3]")?);
    assert!(rt; writes(alloc, "0", "[0,1]")?);
    assert!(rt; writes(alloc, "9007199254740992", "[9007199254740992,1]")?);
    assert!(rt; writes(alloc, "-9007199254740992", "[-9007199254740992,1]")?);
    assert!(rt; writes(alloc, "9007199254740993", "[\"9007199254740993\",1]")?);
    assert!(rt; writes(alloc, "-9007199254740993", "[\"-9007199254740993\",1]")?);
    assert!(rt; writes(alloc, "-1/9007199254740993", "[-1,\"9007199254740993\"]")?);
    assert!(rt;
        writes(
            alloc,
            "1/18446744073709551616",
            "[1,\"18446744073709551616\"]"
        )?
    );
    assert!(rt;
        writes(
            alloc,
            "-18446744073709551616/3",
            "[\"-18446744073709551616\",3]"
        )?
    );
    Ok(())
}

#[test]
fn numbers_and_texts(rt: HostRuntime) -> Result<(), Fail> {
    let alloc = rt.alloc();
    assert!(rt; reads(alloc, "[6,\"-4\"]", "-3/2")?);
    assert!(rt; reads(alloc, "[\"+006\",-4]", "-3/2")?);
    assert!(rt; reads(alloc, "[\"-0\",\"7\"]", "0")?);
    assert!(rt; reads(alloc, "[18446744073709551615,-1]", "-18446744073709551615")?);
    assert!(rt;
        reads(
            alloc,
            "[\"-9223372036854775808\",-1]",
            "9223372036854775808"
        )?
    );
    Ok(())
}

#[test]
fn no_lists_of_two(rt: HostRuntime) -> Result<(), Fail> {
    for json in [
        "7",
        "null",
        "{}",
        "[]",
        "[1]",
        "[1,2,3]",
        "[1.5,2,3]",
        "\"1/2\"",
    ] {
        assert!(rt; is_refused(rt.alloc(), json, JsonRatioError::NotAPair)?);
    }
    Ok(())
}

#[test]
fn no_whole_numbers(rt: HostRuntime) -> Result<(), Fail> {
    for json in [
        "[1.0,2]",
        "[1,1e2]",
        "[18446744073709551616,1]",
        "[null,1]",
        "[true,0]",
        "[[1],2]",
        "[1.5,0]",
    ] {
        assert!(rt; is_refused(rt.alloc(), json, JsonRatioError::NotAnInteger)?);
    }
    for json in [
        "[1,\"1/2\"]",
        "[\"\",1]",
        "[\"-\",1]",
        "[\"--1\",1]",
        "[\"1.0\",1]",
        "[\" 1\",1]",
        "[\"1_0\",0]",
        "[\"/\",1]",
    ] {
        assert!(rt; is_refused(rt.alloc(), json, JsonRatioError::NotAnInteger)?);
    }
    Ok(())
}

#[test]
fn zero_denominators(rt: HostRuntime) -> Result<(), Fail> {
    for json in ["[1,0]", "[0,0]", "[1,\"-000\"]"] {
        assert!(rt; is_refused(rt.alloc(), json, JsonRatioError::ZeroDenominator)?);
    }
    Ok(())
}
