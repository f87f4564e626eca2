//! Rows of the codes by which a fraction is hashed, from outside.
use crate::asserting::each_holds;
use crate::ratios::forms::raw;
use crate::recorder::Codes;
use crate::written::Written;
use num_rational::Steps;
use ratio_integer::Integer;
use std::hash::Hash;

// Whether an empty list and a hasher get exactly these codes of the fraction with these fields.
fn has_codes<T: Integer>(fields: (T, T), mut list: Codes<T>, expected: &[T]) -> bool {
    let Some(x) = raw(fields.0, fields.1) else {
        return false;
    };
    x.hash_counted(&mut list, &mut Steps::new());
    let mut written = Written::new();
    for code in expected {
        code.hash(&mut written);
    }
    list.as_slice() == expected && Written::of(&x).as_slice() == written.as_slice()
}

#[test]
fn codes(rt: HostRuntime) {
    let facts = [
        has_codes((-128i8, -1), Codes::new(), &[-128, -128, 0]),
        has_codes((127i8, -128), Codes::new(), &[-1, -128, -128, 0]),
        has_codes((1i8, -128), Codes::new(), &[-1, 1, 127, 0]),
        has_codes((-1i8, -128), Codes::new(), &[0, -128, -128, 0]),
        has_codes((-7i8, 3), Codes::new(), &[-3, 1, 2, 0]),
        has_codes((7i8, -3), Codes::new(), &[-3, 1, 2, 0]),
        has_codes((0i8, -5), Codes::new(), &[0, 0]),
        has_codes((-128i8, -128), Codes::new(), &[1, 0]),
        has_codes((4i64, 2), Codes::new(), &[2, 0]),
        has_codes((6i64, 3), Codes::new(), &[2, 0]),
        has_codes((-4i64, -2), Codes::new(), &[2, 0]),
        has_codes((89i64, 55), Codes::new(), &[1, 1, 1, 1, 1, 1, 1, 1, 2, 0]),
    ];
    each_holds(&rt, &facts);
}
