//! Quotients of many fractions in lowest terms without room: they are `None` where a step is.
use num_rational::{Reduced, Reduced64};
use ratio_integer::Integer;

fn of<T: Copy + Integer>(numer: T, denom: T) -> Reduced<T> {
    Reduced::checked_new(numer, denom).unwrap_or(Reduced::zero())
}

fn fields<T: Copy + Integer>(answer: Option<Reduced<T>>) -> Option<(T, T)> {
    Some(answer?.into_raw())
}

// The quotient step by step, each step in lowest terms.
fn stepwise<T: Copy + Integer>(above: &[Reduced<T>], below: &[Reduced<T>]) -> Option<Reduced<T>> {
    let mut total = Reduced::one();
    for x in above {
        total = total.checked_mul(x)?;
    }
    for x in below {
        total = total.checked_div(x)?;
    }
    Some(total)
}

// The next number of a sequence without order.
fn next(state: u64) -> u64 {
    state
        .wrapping_mul(6364136223846793005)
        .wrapping_add(1442695040888963407)
}

fn short(state: u64) -> Reduced<i8> {
    of(
        (state >> 57 >> ((state >> 30) % 6)) as i8 - 3,
        ((state >> 40) % 5) as i8 + 1,
    )
}

fn long(state: u64) -> Reduced64 {
    of(
        (state >> 34 >> ((state >> 8) % 28)) as i64 - 8,
        ((state >> 40) % (1 << 16)) as i64 + 1,
    )
}

// How many of six quotients of five numbers are `Some`, and whether each is what its steps give. There is no room to cancel first.
fn answered<T: Copy + Integer>(items: &[Reduced<T>; 5], none: &mut [T; 0]) -> (u32, bool) {
    let mut some = 0u32;
    let mut same = true;
    for split in 0..6usize {
        let (above, below) = items.split_at(split);
        let answer = fields(Reduced::checked_quotient_of(above, below, none));
        if answer.is_some() {
            some = some.wrapping_add(1);
        }
        same = same && answer == fields(stepwise(above, below));
    }
    (some, same)
}

#[test]
fn quotients_without_room_are_none_where_a_step_is(rt: HostRuntime) {
    let mut state = 1u64;
    let mut some = 0u32;
    for _ in 0..2000 {
        let mut items = [Reduced::<i8>::zero(); 5];
        let mut longer = [Reduced64::zero(); 5];
        for (x, y) in items.iter_mut().zip(longer.iter_mut()) {
            state = next(state);
            *x = short(state);
            *y = long(state);
        }
        let (first, of_i8) = answered(&items, &mut []);
        let (second, of_i64) = answered(&longer, &mut []);
        assert!(rt; of_i8 && of_i64);
        some = some.wrapping_add(first).wrapping_add(second);
    }
    assert!(rt; some > 2000 && some < 20_000);
}
