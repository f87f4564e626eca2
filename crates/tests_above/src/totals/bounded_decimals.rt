//! A test of the decimal of a total with ten thousand denominators. The expected text is from Python's `fractions`.
use ratio_decimal::rounding_rule::Rounding;
use ratio_slots::{Slot, put_decimal_of};
use std::test::Fail;

fn is_prime(n: u64) -> bool {
    for d in 2..324 {
        if d < n && n % d == 0 {
            return false;
        }
    }
    true
}

#[test]
fn ten_thousand_primes(rt: HostRuntime) -> Result<(), Fail> {
    // 1/2 + 1/3 + 1/5 + .. + 1/104729
    let mut slots = [Slot::EMPTY; 10_000];
    let mut count = 0;
    for n in 2..104_730 {
        if is_prime(n) && count < slots.len() {
            slots[count] = Slot::new(n, 1);
            count += 1;
        }
    }
    assert_eq!(rt; count, 10_000);
    let mut room = [7; 40_016];
    let mut buf = [b'x'; 200_181];
    match put_decimal_of(&slots, 38, Rounding::HalfEven, &mut room, &mut buf) {
        Ok(start) => assert!(rt;
            &buf[start..] == b"2.70925824879729457681713206150015315608".as_slice()
        ),
        Err(_) => assert!(rt; false, "there is room"),
    }
    Ok(())
}
