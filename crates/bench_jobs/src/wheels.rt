//! A workshop looks for wheels: two and four of them for a wanted ratio, and simple fractions near it.
use crate::digest::Digest;
use crate::made::{Made, Turns, fraction};
use num_rational::{Reduced, Reduced64};
use ratio_uses::gears::{Gears, nearest_pair};
use ratio_uses::trains::{Train, nearest_train};

/// So many times: trains of up to 120 teeth for ratios of each kind, one of up to 200, and pairs and simple fractions for many.
pub(crate) fn run(made: &mut Made, count: u32) -> u64 {
    let mut digest = Digest::new();
    let mut trains = Taken::new(made);
    let mut great_trains = Taken::new(made);
    let mut pairs = Taken::new(made);
    let mut great_pairs = Taken::new(made);
    let mut decimals = Turns::new(made);
    for _ in 0..count {
        for kind in 0..5 {
            let wanted = wanted_ratio(made, &mut trains, kind);
            add_train(&mut digest, nearest_train(&wanted, 12, 120));
        }
        let wanted = any_ratio(made, &mut great_trains);
        add_train(&mut digest, nearest_train(&wanted, 12, 200));
        for _ in 0..40 {
            let wanted = any_ratio(made, &mut pairs);
            add_gears(&mut digest, nearest_pair(&wanted, 12, 120));
            let wanted = any_ratio(made, &mut great_pairs);
            add_gears(&mut digest, nearest_pair(&wanted, 12, 400));
        }
        for _ in 0..2000 {
            look_for_fractions(made, &mut decimals, &mut digest);
        }
    }
    digest.value()
}

/// How many ratios were made for one kind of call, of those kinds that have few. They come in turn, so that none comes twice before all
/// have come.
#[derive(Drop)]
struct Taken {
    decimals: Turns,
    wheels: Turns,
    primes: Turns,
}

impl Taken {
    fn new(made: &mut Made) -> Taken {
        Taken {
            decimals: Turns::new(made),
            wheels: Turns::new(made),
            primes: Turns::new(made),
        }
    }
}

// A ratio of any kind.
fn any_ratio(made: &mut Made, taken: &mut Taken) -> Reduced64 {
    let kind = made.below(5);
    wanted_ratio(made, taken, kind)
}

// A ratio as people have it: a decimal, one of two measured numbers, a long one as floats give it, one that wheels have exactly, and one
// with a prime that no wheel has. No ratio is of two kinds: wheels have no denominator as long as the decimals', and no such prime.
fn wanted_ratio(made: &mut Made, taken: &mut Taken, kind: u64) -> Reduced64 {
    match kind {
        0 => decimal_ratio(&mut taken.decimals),
        1 => measured_ratio(made),
        2 => long_ratio(made),
        3 => ratio_of_wheels(&mut taken.wheels),
        _ => {
            let turn = taken.primes.next(2_400);
            let prime = PRIMES[(turn % 8) as usize];
            fraction(prime, (turn / 8) as i64 + 100)
        }
    }
}

// None divides a number from 100 to 399, so each ratio with one is in lowest terms.
static PRIMES: [i64; 8] = [401, 409, 499, 599, 997, 1009, 1499, 2003];

static LAST_DIGITS: [i64; 4] = [1, 3, 7, 9];

// A decimal with exactly four places that 2 and 5 do not shorten.
fn decimal_ratio(turns: &mut Turns) -> Reduced64 {
    let turn = turns.next(20_000);
    let last = LAST_DIGITS[(turn % 4) as usize];
    fraction((turn / 4) as i64 * 10 + 1_000 + last, 10_000)
}

fn measured_ratio(made: &mut Made) -> Reduced64 {
    fraction(
        made.below(3_000_000) as i64 + 1_000_000,
        made.below(3_000_000) as i64 + 1_000_000,
    )
}

fn long_ratio(made: &mut Made) -> Reduced64 {
    fraction(
        made.below(4_000_000_000_000_000) as i64 + 500_000_000_000_000,
        1_000_000_000_000_000,
    )
}

// The ratio of the next two wheels with 12 to 120 teeth whose numbers of teeth are in lowest terms, so that no ratio comes twice. Of three
// pairs nearly two are so.
fn ratio_of_wheels(turns: &mut Turns) -> Reduced64 {
    for _ in 0..100 {
        let turn = turns.next(109 * 109);
        let teeth = (turn % 109) as i64 + 12;
        let ratio = fraction(teeth, (turn / 109) as i64 + 12);
        if *ratio.numer() == teeth {
            return ratio;
        }
    }
    Reduced::zero()
}

// A decimal here has six places, so that there are enough of them.
fn look_for_fractions(made: &mut Made, decimals: &mut Turns, digest: &mut Digest) {
    let wanted = long_ratio(made);
    digest.add_any(&wanted.nearest(made.below(1000) as i64 + 10));
    let low = measured_ratio(made);
    match low.checked_add(&fraction(1, made.below(100_000) as i64 + 10)) {
        Some(high) => digest.add_any(&Reduced::simplest_between(&low, &high)),
        None => digest.add(7),
    }
    let measured = fraction(decimals.next(5_000_000) as i64 + 100_000, 1_000_000);
    digest.add_any(&Reduced::rationalize(measured.to_f64()));
}

fn add_train(digest: &mut Digest, train: Option<Train>) {
    match train {
        Some(train) => {
            digest.add(train.first.driver as u64);
            digest.add(train.first.driven as u64);
            digest.add(train.second.driver as u64);
            digest.add(train.second.driven as u64);
            digest.add_any(&train.off);
        }
        None => digest.add(7),
    }
}

fn add_gears(digest: &mut Digest, gears: Option<Gears>) {
    match gears {
        Some(gears) => {
            digest.add(gears.first as u64);
            digest.add(gears.second as u64);
            digest.add_any(&gears.off);
        }
        None => digest.add(7),
    }
}
