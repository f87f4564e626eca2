//! Sums of lists that take memory: worked rows. Expected values are from Python's `fractions`.

use num_rational::Reduced;
use ratio_totals::{Short, SumFailure, checked_sum};
use std::fmt::InlineText;
use std::process::Abort;

/// The fraction `numer/denom`.
fn of<T: Short>(rt: &impl Abort, numer: T, denom: T) -> Reduced<T> {
    Reduced::checked_new(numer, denom).expect(rt, "the fraction fits")
}

#[test]
fn partial_sums_need_not_fit(rt: HostRuntime) {
    let most = of(&rt, 127i8, 1);
    let tiny = of(&rt, 1i8, 127);
    let less = of(&rt, -1i8, 127);
    assert_eq!(rt;
        checked_sum(rt.alloc(), &[most, tiny, less]),
        Ok(Some(most))
    );
    assert_eq!(rt; checked_sum(rt.alloc(), &[most, tiny]), Ok(None));
    assert_eq!(rt;
        checked_sum(rt.alloc(), &[of(&rt, 1i8, 36), of(&rt, 1, 28)]),
        Ok(Some(of(&rt, 4, 63)))
    );
}

#[test]
fn what_cancels_needs_no_type(rt: HostRuntime) {
    let p = of(&rt, 1i64, 4611686018427387847);
    let q = of(&rt, 1i64, 4611686018427387817);
    let less_p = of(&rt, -1i64, 4611686018427387847);
    let less_q = of(&rt, -1i64, 4611686018427387817);
    let half = of(&rt, 1i64, 2);
    assert_eq!(rt;
        checked_sum(rt.alloc(), &[p, half, q, less_p, less_q]),
        Ok(Some(half))
    );
    assert_eq!(rt; checked_sum(rt.alloc(), &[p, half, q]), Ok(None));
}

/// 1/1 + .. + 1/2000 has more denominators than the call takes slots for at first.
#[test]
fn many_denominators_take_more_slots(rt: HostRuntime) {
    let mut items = [of(&rt, 1i64, 1); 2000];
    let mut denom = 0i64;
    for x in items.iter_mut() {
        if denom < 2000 {
            denom += 1;
        }
        *x = of(&rt, 1, denom);
    }
    let sum: Result<Option<Reduced<i64>>, SumFailure> = checked_sum(rt.alloc(), &items);
    assert_eq!(rt; sum, Ok(None));
}

/// The failure prints this text.
fn prints(rt: &impl Abort, failure: SumFailure, want: &str) {
    let text = InlineText::<80>::of(format_args!("{failure}"));
    assert!(rt; text.as_str() == want);
}

#[test]
fn failures_have_texts(rt: HostRuntime) {
    prints(&rt, SumFailure::NoMemory, "an allocation failed");
    prints(&rt, SumFailure::TooMany, "the items are more than 2^63 - 1");
    prints(
        &rt,
        SumFailure::TooLong,
        "the common denominator is not below 2^(2^20)",
    );
}
