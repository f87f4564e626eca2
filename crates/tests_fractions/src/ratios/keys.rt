//! Fractions as keys of maps.
use crate::asserting::each_holds;
use num_rational::{Rational64, Reduced, Reduced64};
use std::collections::{BTreeMap, HashMap};
use std::process::Abort;
use std::test::Fail;

fn raw(rt: &impl Abort, numer: i64, denom: i64) -> Rational64 {
    assert!(rt; denom != 0);
    Rational64::new_raw(numer, denom)
}

#[test]
fn keys_are_found_by_equal_keys(rt: HostRuntime) -> Result<(), Fail> {
    // The fields of a key, and those of an equal one. Only the least number over -1 has no other
    // fields.
    let rows = [
        (1, 2, -3, -6),
        (4, -6, -2, 3),
        (0, -5, 0, 7),
        (i64::MIN, -1, i64::MIN, -1),
        (i64::MIN, i64::MIN, 5, 5),
        (2, i64::MIN, -1, 1 << 62),
        (-7, 3, 14, -6),
        (8, 4, 2, 1),
    ];
    let mut ordered = BTreeMap::new(rt.alloc());
    let mut hashed = HashMap::new(rt.alloc());
    for (n, d, _, _) in rows {
        let key = raw(&rt, n, d);
        ordered.insert(key, n)?;
        hashed.insert(key, n)?;
    }
    for (n, _, m, e) in rows {
        let key = raw(&rt, m, e);
        let want = Some(&n);
        assert!(rt; ordered.get(&key) == want && hashed.get(&key) == want);
    }
    let other = Rational64::new_raw(1, 3);
    each_holds(
        &rt,
        &[ordered.get(&other).is_none(), hashed.get(&other).is_none()],
    );
    Ok(())
}

#[test]
fn equal_keys_are_one_entry(rt: HostRuntime) -> Result<(), Fail> {
    let mut ordered = BTreeMap::new(rt.alloc());
    let mut hashed = HashMap::new(rt.alloc());
    for (n, d) in [(1, 2), (2, 4), (-1, -2)] {
        let key = Reduced64::checked_new(n, d).unwrap_or(Reduced::zero());
        ordered.insert(key, n)?;
        hashed.insert(key, n)?;
    }
    each_holds(&rt, &[ordered.len() == 1, hashed.len() == 1]);
    Ok(())
}
