//! Every fraction of the three smallest types, of either sign, compared with a plain model.
use crate::odd_types::calls::{CALLS, called, modelled};
use crate::odd_types::fractions::{answers, fraction, looked_at};
use crate::odd_types::plain::{self, Euclid, Plain, Range};
use num_rational::Ratio;
use ratio_integer::Integer;
use ratio_odd::{Nat2, Sym5, Two3};
use std::process::Abort;
use std::test::Fail;
use tests_fractions::written::Written;

/// How many pairs of numbers from -5 to 5 there are.
pub const PLACES: u8 = 121;

/// The pair at this place.
pub fn pair_at(place: u8) -> Plain {
    Plain {
        n: (place / 11) as i8 - 5,
        d: (place % 11) as i8 - 5,
    }
}

/// Whether these are the codes of `x`, each as a byte: its quotients, and then 0. A quotient
/// above the range is the least number twice.
fn are_codes(codes: &[u8], x: Plain, range: Range) -> bool {
    let mut euclid = Euclid::of(x);
    let mut twice = false;
    let mut ended = false;
    for code in codes {
        let wanted = if twice {
            twice = false;
            range.lo as i128
        } else {
            match euclid.quotient() {
                None if ended => return false,
                None => {
                    ended = true;
                    0
                }
                Some(quotient) if quotient == range.hi as i128 + 1 => {
                    twice = true;
                    range.lo as i128
                }
                Some(quotient) => quotient,
            }
        };
        if *code as i128 != wanted && *code as i128 - 256 != wanted {
            return false;
        }
    }
    ended
}

/// Whether `cmp` and `==` say what the model does, if `T` has both fractions.
fn ordered_well<T: Integer>(x: Plain, y: Plain) -> Option<bool> {
    let left = fraction::<T>(x)?;
    let right = fraction::<T>(y)?;
    let order = plain::order(x, y);
    Some(left.cmp(&right) == order && (left == right) == order.is_eq())
}

/// Whether the two have the same codes exactly if the model finds
/// them equal. `None` if `T` does not have both.
fn coded_well<T: Integer>(x: Plain, y: Plain) -> Option<bool> {
    let left = fraction::<T>(x)?;
    let right = fraction::<T>(y)?;
    let same_codes = Written::of(&left).as_slice() == Written::of(&right).as_slice();
    Some(same_codes == plain::order(x, y).is_eq())
}

/// Whether the five checked calls return what the model does, if `T` has both
/// fractions and their denominators are positive.
fn computed_well<T: Integer>(x: Plain, y: Plain, range: Range) -> Option<bool> {
    for call in CALLS {
        if !answers(called::<T>(x, call, y)?, modelled(x, call, y, range)) {
            return Some(false);
        }
    }
    Some(true)
}

/// Whether the codes and the lowest terms of the fraction are as in the model, if `T` has it.
fn stands_well<T: Integer>(x: Plain, range: Range) -> Option<bool> {
    let fraction = fraction::<T>(x)?;
    let codes = Written::of(&fraction);
    let lowest = Ratio::checked_new(*fraction.numer(), *fraction.denom());
    Some(
        are_codes(codes.as_slice(), x, range)
            && answers(lowest, range.lowest(x.n as i128, x.d as i128)),
    )
}

/// Whether no fraction of `T` at an earlier place has the same codes as the one at this place.
fn is_new<T: Integer>(place: u8) -> bool {
    let Some(x) = fraction::<T>(pair_at(place)) else {
        return false;
    };
    let codes = Written::of(&x);
    for earlier in 0..place {
        if let Some(y) = fraction::<T>(pair_at(earlier)) {
            if Written::of(&y).as_slice() == codes.as_slice() {
                return false;
            }
        }
    }
    true
}

/// How many of each kind a walk looked at.
#[derive(Clone, Copy, PartialEq, Eq)]
struct Looked {
    fractions: u32,
    lists: u32,
    pairs: u32,
    coded_pairs: u32,
    positive_pairs: u32,
}

/// Looks at each fraction of `T` and each pair of them.
fn walked<T: Integer>(rt: &impl Abort, range: Range) -> Looked {
    let mut fractions = 0;
    let mut lists = 0;
    let mut pairs = 0;
    let mut coded_pairs = 0;
    let mut positive_pairs = 0;
    for i in 0..PLACES {
        let x = pair_at(i);
        fractions = looked_at(rt, fractions, stands_well::<T>(x, range));
        if is_new::<T>(i) {
            lists = looked_at(rt, lists, Some(true));
        }
        for j in 0..PLACES {
            let y = pair_at(j);
            pairs = looked_at(rt, pairs, ordered_well::<T>(x, y));
            coded_pairs = looked_at(rt, coded_pairs, coded_well::<T>(x, y));
            positive_pairs = looked_at(rt, positive_pairs, computed_well::<T>(x, y, range));
        }
    }
    Looked {
        fractions,
        lists,
        pairs,
        coded_pairs,
        positive_pairs,
    }
}

#[test]
fn every_fraction(rt: HostRuntime) -> Result<(), Fail> {
    for (looked, fractions, lists, pairs, positive_pairs) in [
        (
            walked::<Sym5>(&rt, Range { lo: -5, hi: 5 }),
            110,
            39,
            12_100,
            3_025,
        ),
        (walked::<Nat2>(&rt, Range { lo: 0, hi: 2 }), 6, 4, 36, 36),
        (
            walked::<Two3>(&rt, Range { lo: -3, hi: 2 }),
            30,
            15,
            900,
            144,
        ),
    ] {
        println!(rt;
            "{} fractions, {} lists, {} pairs, {} of positive denominators",
            looked.fractions, looked.lists, looked.pairs, looked.positive_pairs
        )?;
        let wanted = Looked {
            fractions,
            lists,
            pairs,
            coded_pairs: pairs,
            positive_pairs,
        };
        assert!(rt; looked == wanted);
    }
    Ok(())
}

/// How many comparisons of raw fractions of `i8` with `y`, both ways, are as in the model.
fn raw_walked(rt: &impl Abort, y: Plain) -> u32 {
    let mut looked = 0;
    for n in i8::MIN..=i8::MAX {
        for d in i8::MIN..=i8::MAX {
            looked = looked_at(rt, looked, ordered_well::<i8>(Plain { n, d }, y));
            looked = looked_at(rt, looked, ordered_well::<i8>(y, Plain { n, d }));
        }
    }
    looked
}

#[test]
fn every_raw_fraction_of_i8(rt: HostRuntime) -> Result<(), Fail> {
    for (n, d) in [(1, 3), (-128, -1), (-1, -128)] {
        let looked = raw_walked(&rt, Plain { n, d });
        println!(rt; "{looked} comparisons with {n}/{d}")?;
        assert!(rt; looked == 2 * 65_280);
    }
    Ok(())
}
