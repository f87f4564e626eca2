//! Two wheels whose ratio of teeth is near a wanted one.
ghost use Rattle.std.specs.Prelude.{◌≡◌, ◌+◌, ◌*◌, ◌<◌, ◌≤◌, ◌^◌, pos};
ghost use Rattle.ratio_approximation.specs.Nearest.{gap};
ghost use Rattle.num_rational.specs.Operators.{ChecksExactDifference};
ghost use Rattle.num_rational.specs.Reduced.{lowest_numbers, ratio_in};
ghost use Rattle.ratio_uses.specs.Gears.{AreNearestWheels, ChecksGears, IsBestFor, IsRoundedDown};

use crate::quotients::{divided, sum_of};
use num_rational::Reduced64;

/// The teeth of two wheels, and how far their ratio is from the wanted one.
#[derive(Clone, Copy, Debug)]
pub struct Gears {
    /// The teeth of the first wheel.
    pub first: u32,
    /// The teeth of the second wheel.
    pub second: u32,
    /// The wanted ratio minus the ratio of the wheels, or `None` where that does not fit in 64 bits.
    pub off: Option<Reduced64>,
}

/// The pair of wheels whose ratio of teeth, first to second, is nearest to the wanted one. Each wheel has from `least`
/// to `most` teeth. Of two pairs that are equally near, it is the one with the smaller second wheel, and then the one
/// with the smaller first wheel. `None` exactly where the wanted ratio is not above 0, `least` is 0, or `most` is below
/// `least`. For example, 355/113 with 8 to 100 teeth gives 44 and 14. It takes a step for each number of teeth of the second
/// wheel.
pub fn nearest_pair(wanted: &Reduced64, least: u32, most: u32) -> Option<Gears>
    ensures { ChecksGears (lowest_numbers wanted.now) least most result }
{
    if *wanted.numer() < 1 || least < 1 || most < least {
        return None;
    }
    let (numer, denom) = (wanted.numer().unsigned_abs(), wanted.denom().unsigned_abs());
    let (first, second) = nearest_wheels(numer, denom, least, most);
    Some(Gears {
        first,
        second,
        off: off_from(wanted, first, second),
    })
}

// The wanted ratio minus the ratio of the teeth.
pub(crate) fn off_from(wanted: &Reduced64, first: u32, second: u32) -> Option<Reduced64>
    requires second { 0 < second }
    ensures { ChecksExactDifference (lowest_numbers wanted.now) (pos first, pos second) (ratio_in result) }
{
    let wheels = Reduced64::checked_new(first.into(), second.into())?;
    wanted.checked_sub(&wheels)
}

// The teeth of the nearest wheels. The whole number next to the best first wheel mostly tells that a pair is not nearer.
fn nearest_wheels(numer: u64, denom: u64, least: u32, most: u32) -> (u32, u32)
    requires denom { 0 < denom }
    requires least { 0 < least }
    requires most { least ≤ most }
    ensures { AreNearestWheels (pos numer, pos denom) least most result.0 result.1 }
{
    if least == most {
        return (least, least);
    }
    let step = divided(numer as u128, denom);
    let mut best = divided(numer as u128 * least as u128, denom);
    let mut second = least;
    let mut first = best_first(best, denom, least, most);
    let mut gap = gap_of(numer as u128, denom as u128, first, second);
    for before in least..most {
        let next = before + 1;
        best = sum_of(best, step, denom);
        let near = best.1.min(denom as u128 - best.1);
        if near * (second as u128) < gap * next as u128 {
            let other = best_first(best, denom, least, most);
            let other_gap = gap_of(numer as u128, denom as u128, other, next);
            if other_gap * (second as u128) < gap * next as u128 {
                first = other;
                second = next;
                gap = other_gap;
            }
        }
    }
    (first, second)
}

// The first wheel that is best with a second one: the wanted ratio times the teeth of the second, which has this whole
// quotient and rest, rounded to the nearest whole number, a half down, and then held between `least` and `most`.
fn best_first(best: (u128, u128), denom: u64, least: u32, most: u32) -> u32
    requires denom { 0 < denom }
    requires small { best.0 < 2 ^ 100 }
    requires rest { best.1 < denom }
    requires most { least ≤ most }
    ensures { IsBestFor denom best.0 best.1 least most result }
{
    let rounded = rounded_down(best, denom);
    if rounded < least as u128 {
        least
    } else if rounded > most as u128 {
        most
    } else {
        rounded as u32
    }
}

// The number with this whole quotient and this rest, rounded to the nearest whole number, a half down.
fn rounded_down(number: (u128, u128), denom: u64) -> u128
    requires small { number.0 < 2 ^ 100 }
    requires rest { number.1 < denom }
    ensures { IsRoundedDown (number.0 * denom + number.1) denom result }
{
    let (whole, rest) = number;
    if rest + rest > denom as u128 {
        whole + 1
    } else {
        whole
    }
}

// The distance of two wheels from the wanted ratio, times its denominator and the teeth of the second.
pub(crate) fn gap_of(numer: u128, denom: u128, first: u32, second: u32) -> u128
    requires numer_small { numer * second < 2 ^ 96 }
    requires denom_small { denom * first < 2 ^ 96 }
    ensures gap { result ≡ gap (pos numer) (pos denom) (pos first) (pos second) }
    ensures small { result < 2 ^ 96 }
{
    let scaled = numer * second as u128;
    scaled.abs_diff(denom * first as u128)
}
