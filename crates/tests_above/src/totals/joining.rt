//! Tests of a read in steps. Expected numbers are from Python's `fractions`.

use ratio_decimal::rounding_rule::Rounding;
use ratio_slots::{Joined, Slot};
use std::cmp::Ordering;
use std::process::Abort;
use std::test::Fail;

/// 1/36 + 1/28 - 1/9 + 5/21, which is 4/21.
fn some_slots() -> [Slot; 5] {
    [
        Slot::new(36, 1),
        Slot::EMPTY,
        Slot::new(28, 1),
        Slot::new(9, -1),
        Slot::new(21, 5),
    ]
}

/// Joins all slots, so many in a step, in room that was used before.
fn joined(rt: &impl Abort, slots: &[Slot], most: usize, room: &mut [u64]) -> Joined {
    let begun = Joined::begin(slots, room);
    assert!(rt; begun.is_some(), "there is room");
    let mut joined = begun.unwrap_or(Joined { done: 0, digits: 0 });
    for _ in 0..slots.len() {
        match joined.go_on(slots, most, room) {
            Ok(next) => {
                assert_eq!(rt;
                    next.done,
                    joined.done.saturating_add(most).min(slots.len()),
                    "steps of {most}"
                );
                joined = next;
            }
            Err(_) => assert!(rt; false, "a step of {most} was refused"),
        }
    }
    joined
}

#[test]
fn steps_of_any_size_come_to_the_sum(rt: HostRuntime) -> Result<(), Fail> {
    for most in [1, 2, 3, 5, 100] {
        let mut room = [7; 22];
        let all = joined(&rt, &some_slots(), most, &mut room);
        assert_eq!(rt; all.done, 5);
        assert_eq!(rt; all.sum(&mut room), Ok(Some((4, 21))), "steps of {most}");
    }
    Ok(())
}

#[test]
fn a_long_sum_is_joined_in_steps(rt: HostRuntime) -> Result<(), Fail> {
    let mut slots = [Slot::EMPTY; 40];
    for i in 0..40 {
        slots[i] = Slot::new(u64::MAX - i as u64, (1 << 100) - i as i128);
    }
    for most in [1, 7, 16, 64] {
        let mut room = [7; 172];
        let mut buf = [0; 912];
        let all = joined(&rt, &slots, most, &mut room);
        match all.put_decimal(6, Rounding::HalfEven, &mut room, &mut buf) {
            Ok(start) => assert!(rt; &buf[start..] == b"2748779069440.000003".as_slice()),
            Err(_) => assert!(rt; false, "there is room"),
        }
        let all = joined(&rt, &slots, most, &mut room);
        assert_eq!(rt; all.sum(&mut room), Ok(None));
        let all = joined(&rt, &slots, most, &mut room);
        assert_eq!(rt; all.sign(&mut room), Ok(Ordering::Greater));
    }
    Ok(())
}
