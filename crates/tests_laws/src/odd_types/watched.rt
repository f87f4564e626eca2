//! Counts the divisions of the order, of the codes and of the search for
//! the nearest fraction, where they are made.
use crate::odd_types::fractions::{looked_at, raw};
use crate::odd_types::plain::{self, Euclid, Plain};
use num_rational::Ratio;
use ratio_approximation::nearest::nearest;
use ratio_integer::Integer;
use ratio_odd::{Counter, Halving, Watch8, Watched};
use std::cell::Cell;
use std::cmp::Ordering;
use std::process::Abort;
use std::test::Fail;
use tests_fractions::written::Written;

/// The quotient of -128 by -1. It is the only one that `i8` does not hold.
const ABOVE_MAX: i128 = 128;

/// The fraction with counted divisions, sums and differences.
fn watched<C: Counter>(x: Plain, divs: C, sums: C) -> Option<Ratio<Watched<C>>> {
    raw(Watched::new(x.n, divs, sums), Watched::new(x.d, divs, sums))
}

/// What a fraction over any type feeds a hasher.
fn written<T: Integer>(x: Ratio<T>) -> Written {
    Written::of(&x)
}

/// Whether there are at most `most` divisions, and at most `8 * (most + 1)` sums and differences.
fn are_within(divs: &Cell<u32>, sums: &Cell<u32>, most: u8) -> bool {
    divs.get() <= most as u32 && sums.get() <= 8 * (most as u32 + 1)
}

/// A call that compares two fractions.
#[derive(Clone, Copy)]
enum Comparison {
    Cmp,
    PartialCmp,
    Equal,
    Below,
}

/// Whether the call says that `x` and `y` have this order.
fn says<T: Integer>(x: Ratio<T>, call: Comparison, y: Ratio<T>, order: Ordering) -> bool {
    match call {
        Comparison::Cmp => x.cmp(&y) == order,
        Comparison::PartialCmp => x.partial_cmp(&y) == Some(order),
        Comparison::Equal => (x == y) == order.is_eq(),
        Comparison::Below => (x < y) == order.is_lt(),
    }
}

/// Whether the call says what the model does, if both are fractions.
fn says_well<C: Counter>(x: Plain, call: Comparison, y: Plain, divs: C, sums: C) -> Option<bool> {
    let left = watched(x, divs, sums)?;
    let right = watched(y, divs, sums)?;
    Some(says(left, call, right, plain::order(x, y)))
}

/// Whether the numbers have halves.
#[derive(Clone, Copy)]
enum Numbers {
    Whole,
    Halved,
}

/// Whether the call makes at most `most` divisions and says what the model does, if both are fractions.
fn says_within(x: Plain, call: Comparison, y: Plain, numbers: Numbers, most: u8) -> Option<bool> {
    let divs = Cell::new(0);
    let sums = Cell::new(0);
    let is_well = match numbers {
        Numbers::Whole => says_well(x, call, y, &divs, &sums),
        Numbers::Halved => says_well(x, call, y, Halving(&divs), Halving(&sums)),
    };
    Some(is_well? && are_within(&divs, &sums, most))
}

/// The same for `cmp`, `partial_cmp`, `==` and `<`, each with counters of its own.
fn compares_within(x: Plain, y: Plain, numbers: Numbers, most: u8) -> Option<bool> {
    let mut all = true;
    for call in [
        Comparison::Cmp,
        Comparison::PartialCmp,
        Comparison::Equal,
        Comparison::Below,
    ] {
        all = all && says_within(x, call, y, numbers, most)?;
    }
    Some(all)
}

/// Whether `hash` makes at most `most` divisions, if this is a fraction.
fn hashes_within(x: Plain, most: u8) -> Option<bool> {
    let divs = Cell::new(0);
    let sums = Cell::new(0);
    let fraction = watched::<&Cell<u32>>(x, &divs, &sums)?;
    let _ = written(fraction);
    Some(are_within(&divs, &sums, most))
}

/// Whether the search for the fraction nearest to `x` makes exactly `divisions` divisions, if the
/// denominator of `x` and the bound are positive.
fn searches_in(x: Plain, most: i8, divisions: u32) -> Option<bool> {
    if x.d <= 0 || most <= 0 {
        return None;
    }
    let divs = Cell::new(0);
    let sums = Cell::new(0);
    let _ = nearest(
        Watch8::new(x.n, &divs, &sums),
        Watch8::new(x.d, &divs, &sums),
        Watch8::new(most, &divs, &sums),
    );
    Some(divs.get() == divisions)
}

/// How many divisions both sides may make together: none if both cross products are in range. Otherwise
/// one a side for each pair of quotients that the type holds, up to the first pair that differs.
fn divisions_of_order(x: Plain, y: Plain) -> u8 {
    if i8::from_i128(plain::times(x.n as i128, y.d as i128)).is_some()
        && i8::from_i128(plain::times(y.n as i128, x.d as i128)).is_some()
    {
        return 0;
    }
    let mut left = Euclid::of(x);
    let mut right = Euclid::of(y);
    let mut divisions = 0u8;
    for _ in 0..20 {
        match (left.quotient(), right.quotient()) {
            (Some(p), Some(q)) if p != ABOVE_MAX && q != ABOVE_MAX => {
                divisions = divisions.wrapping_add(2);
                if p != q {
                    return divisions;
                }
            }
            _ => return divisions,
        }
    }
    divisions
}

/// How many divisions both sides may make together over numbers with halves: none if both cross products are in range. Otherwise
/// twice as many a side as the smaller denominator has binary digits.
fn divisions_with_halves(x: Plain, y: Plain) -> u8 {
    if divisions_of_order(x, y) == 0 {
        return 0;
    }
    let smaller = x.d.unsigned_abs().min(y.d.unsigned_abs());
    let digits = 8u8.wrapping_sub(smaller.leading_zeros() as u8);
    digits.wrapping_mul(4)
}

/// How many divisions the codes may take: one for each quotient that the type holds.
fn divisions_of_codes(x: Plain) -> u8 {
    let mut euclid = Euclid::of(x);
    let mut divisions = 0u8;
    for _ in 0..20 {
        match euclid.quotient() {
            Some(q) if q != ABOVE_MAX => divisions = divisions.wrapping_add(1),
            _ => return divisions,
        }
    }
    divisions
}

/// How many divisions both sides of a search make together: one, and two more for each convergent that
/// is not the last and whose denominator is at most `most`.
fn divisions_of_search(x: Plain, most: i8) -> u32 {
    let mut euclid = Euclid::of(x);
    let mut before = 1i128;
    let mut denom = 0i128;
    let mut divisions = 1u32;
    for _ in 0..20 {
        match euclid.quotient() {
            Some(q) => {
                if 0 < denom && denom <= most as i128 {
                    divisions = divisions.wrapping_add(2);
                }
                let next = plain::times(q, denom).wrapping_add(before);
                before = denom;
                denom = next;
            }
            None => return divisions,
        }
    }
    divisions
}

#[test]
fn rows(rt: HostRuntime) {
    for (n, d, m, e, most) in [(125, 127, 124, 125, 6), (127, 2, 1, 3, 2)] {
        let (x, y) = (Plain { n, d }, Plain { n: m, d: e });
        assert!(rt; compares_within(x, y, Numbers::Whole, most) == Some(true));
    }
    for (n, d, most) in [(89, 55, 9), (127, 1, 1), (-128, -1, 0), (-1, -128, 1)] {
        assert!(rt; hashes_within(Plain { n, d }, most) == Some(true));
        assert!(rt; divisions_of_codes(Plain { n, d }) == most);
    }
    for (n, d, most, divisions) in [
        (89, 55, 20, 15),
        (-128, 127, 100, 5),
        (1, 127, 126, 3),
        (127, 1, 5, 1),
    ] {
        assert!(rt; searches_in(Plain { n, d }, most, divisions) == Some(true));
    }
}

/// How many comparisons of fractions with `y`, both ways, stay within the divisions of the model.
fn compared(rt: &impl Abort, y: Plain, numbers: Numbers) -> u32 {
    let mut looked = 0;
    for n in i8::MIN..=i8::MAX {
        for d in i8::MIN..=i8::MAX {
            let x = Plain { n, d };
            let (most, most_back) = match numbers {
                Numbers::Whole => (divisions_of_order(x, y), divisions_of_order(y, x)),
                Numbers::Halved => (divisions_with_halves(x, y), divisions_with_halves(y, x)),
            };
            looked = looked_at(rt, looked, compares_within(x, y, numbers, most));
            looked = looked_at(rt, looked, compares_within(y, x, numbers, most_back));
        }
    }
    looked
}

/// How many fractions are hashed within the divisions of the model.
fn hashed(rt: &impl Abort) -> u32 {
    let mut looked = 0;
    for n in i8::MIN..=i8::MAX {
        for d in i8::MIN..=i8::MAX {
            let x = Plain { n, d };
            looked = looked_at(rt, looked, hashes_within(x, divisions_of_codes(x)));
        }
    }
    looked
}

#[test]
fn every_comparison(rt: HostRuntime) -> Result<(), Fail> {
    for (n, d) in [(1, 3), (-128, -1), (-1, -128)] {
        let looked = compared(&rt, Plain { n, d }, Numbers::Whole);
        println!(rt; "{looked} watched comparisons with {n}/{d}")?;
        assert!(rt; looked == 2 * 65_280);
    }
    Ok(())
}

/// How many divisions `cmp` makes over numbers with halves.
fn divisions_of_words(x: Plain, y: Plain) -> u32 {
    let divs = Cell::new(0);
    let sums = Cell::new(0);
    let _ = says_well(x, Comparison::Cmp, y, Halving(&divs), Halving(&sums));
    divs.get()
}

#[test]
fn words(rt: HostRuntime) {
    // Eight a side, for numerators on either side of 0.
    for (n, d, m, e) in [
        (125, 127, 124, 125),
        (-125, 127, -124, 125),
        (127, 8, 126, 9),
    ] {
        assert!(rt; divisions_of_words(Plain { n, d }, Plain { n: m, d: e }) == 16);
    }
    // Rounds, for a short denominator and for the least number.
    for (n, d, m, e) in [
        (127, 7, 126, 9),
        (-128, 127, -1, 126),
        (-128, -127, 125, 126),
    ] {
        assert!(rt; divisions_of_words(Plain { n, d }, Plain { n: m, d: e }) <= 4);
    }
}

#[test]
fn every_comparison_with_halves(rt: HostRuntime) -> Result<(), Fail> {
    for (n, d) in [(100, 9), (-125, 127), (-1, -128)] {
        let looked = compared(&rt, Plain { n, d }, Numbers::Halved);
        println!(rt; "{looked} watched comparisons with {n}/{d}, by halves")?;
        assert!(rt; looked == 2 * 65_280);
    }
    Ok(())
}

#[test]
fn every_hash(rt: HostRuntime) -> Result<(), Fail> {
    let looked = hashed(&rt);
    println!(rt; "{looked} watched hashes")?;
    assert!(rt; looked == 65_280);
    Ok(())
}

/// How many searches make exactly the divisions of the model.
fn searched(rt: &impl Abort, most: i8) -> u32 {
    let mut looked = 0;
    for n in i8::MIN..=i8::MAX {
        for d in i8::MIN..=i8::MAX {
            let x = Plain { n, d };
            looked = looked_at(
                rt,
                looked,
                searches_in(x, most, divisions_of_search(x, most)),
            );
        }
    }
    looked
}

#[test]
fn every_search(rt: HostRuntime) -> Result<(), Fail> {
    for most in [1, 2, 5, 12, 50, 127] {
        let looked = searched(&rt, most);
        println!(rt; "{looked} watched searches with denominators up to {most}")?;
        assert!(rt; looked == 32_512);
    }
    Ok(())
}
