//! An order that a user arranges. An item goes to the simplest fraction between its two neighbours, or beyond the
//! last one or the first one.
use crate::asserting::each_holds;
use num_rational::Reduced64;
use std::ops::Bound;

// How many items fit between 0 and 1 if each goes between the last two, and the fields of the last one.
fn zigzag() -> (u32, (i64, i64)) {
    let mut low = Reduced64::zero();
    let mut high = Reduced64::one();
    let mut last = high;
    for turn in 0..100u32 {
        let Some(found) = Reduced64::simplest_between(&low, &high) else {
            return (turn, last.into_raw());
        };
        last = found;
        if turn % 2 == 0 {
            low = found;
        } else {
            high = found;
        }
    }
    (100, last.into_raw())
}

#[test]
fn always_between_the_last_two(rt: HostRuntime) {
    let (count, last) = zigzag();
    each_holds(
        &rt,
        &[
            count == 90,
            last == (4_660_046_610_375_530_309, 7_540_113_804_746_346_429),
        ],
    );
}

// Where the next item goes: after the last item, before the first one, next to 0 or next to 1. The place that is
// given is that of the item before.
fn next_place(side: u8, place: Reduced64) -> Option<Reduced64> {
    match side {
        0 => Reduced64::simplest_within(Bound::Excluded(place), Bound::Unbounded),
        1 => Reduced64::simplest_within(Bound::Unbounded, Bound::Excluded(place)),
        2 => Reduced64::simplest_between(&Reduced64::zero(), &place),
        _ => Reduced64::simplest_between(&place, &Reduced64::one()),
    }
}

// Whether the items that go to one side have the places k/1, -k/1, 1/k or (k-1)/k, for each k below 50.
fn goes_on(side: u8, first: Reduced64) -> bool {
    let mut place = first;
    for k in 2..50i64 {
        let Some(next) = next_place(side, place) else {
            return false;
        };
        let want = match side {
            0 => (k, 1),
            1 => (0i64.wrapping_sub(k), 1),
            2 => (1, k),
            _ => (k.wrapping_sub(1), k),
        };
        if next.into_raw() != want {
            return false;
        }
        place = next;
    }
    true
}

#[test]
fn always_on_one_side(rt: HostRuntime) {
    let facts = [
        goes_on(0, Reduced64::one()),
        goes_on(1, Reduced64::from_integer(-1)),
        goes_on(2, Reduced64::one()),
        goes_on(3, Reduced64::zero()),
    ];
    each_holds(&rt, &facts);
}
