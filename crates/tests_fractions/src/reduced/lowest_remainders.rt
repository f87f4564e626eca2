//! A remainder that `Reduced` has and `Ratio` has not.
use num_rational::Ratio;

// `Ratio` still requires that the numerators over the least common denominator fit.
#[test]
fn rows_of_ratio(rt: HostRuntime) {
    let whole = Ratio::from_integer(i64::MAX);
    assert!(rt; whole.checked_rem(&Ratio::new_raw(1, 2)).is_none());
}
