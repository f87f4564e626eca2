//! A name whose value is true, where a number is wanted.
use ratio_expressions::names::Names;
use ratio_expressions::refusal::{Reason, Refusal, ValueError};
use ratio_expressions::text_value::value_of;
use ratio_expressions::value::Value;
use std::test::Fail;

#[test]
fn no_number(rt: HostRuntime) -> Result<(), Fail> {
    let alloc = rt.alloc();
    let mut names = Names::new(alloc);
    names.set(alloc, b"x", Value::Truth(true))?;
    let refusal = Refusal {
        reason: Reason::NotNumber,
        place: 4,
    };
    match value_of(alloc, b"1 + max(1, x)", &names) {
        Err(error) => assert_eq!(rt; error, ValueError::Refused(refusal), "max of 1 and true"),
        Ok(_) => assert!(rt; false, "max of 1 and true has a value"),
    }
    Ok(())
}
