//! A bill whose first sum does not fit 64 bits.
use crate::totals::bills::bill_total;
use num_rational::Reduced64;
use std::process::Abort;

fn whole(rt: &impl Abort, n: i64) -> Reduced64 {
    Reduced64::checked_new(n, 1).expect(rt, "the number fits")
}

#[test]
fn no_sum_on_the_way_has_to_fit(rt: HostRuntime) {
    let most = whole(&rt, i64::MAX);
    let amounts = [most, whole(&rt, 1), whole(&rt, -1)];
    assert_eq!(rt; bill_total(&amounts, &mut [], &mut []), Ok(Some(most)));
}
