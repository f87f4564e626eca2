//! Two pairs of wheels, one after the other, whose ratio is near a wanted one.
mod products;

ghost use Rattle.std.specs.Prelude.{◌≡◌, ◌+◌, ◌*◌, ◌<◌, ◌≤◌, pos};
ghost use Rattle.num_rational.specs.Reduced.{lowest_numbers};
ghost use Rattle.ratio_uses.specs.Gears.{IsWheel};
ghost use Rattle.ratio_uses.specs.Trains.{AreFirstOver, AreNearestPairs, AreNearestProducts, AreWheelsOf, ChecksTrain, FirstOfTwo, IsFirstRatio, IsMultipleOf, IsProductOfTwo, driven_teeth, driver_teeth};

use crate::gears::{gap_of, off_from};
use crate::quotients::{divided, sum_of};
use num_rational::Reduced64;
use products::{greatest_up_to, least_above, wheels_of};

/// The teeth of two wheels, of which one drives the other.
#[derive(Clone, Copy, Debug)]
pub struct Pair {
    /// The teeth of the wheel that drives.
    pub driver: u16,
    /// The teeth of the wheel that it drives.
    pub driven: u16,
}

/// Two pairs of wheels, and how far their ratio is from the wanted one. The ratio of a pair is the teeth of its driver over
/// those of its driven wheel, and the ratio of the train is the product of both.
#[derive(Clone, Copy, Debug)]
pub struct Train {
    /// The first pair.
    pub first: Pair,
    /// The second pair. Its driver turns with the driven wheel of the first.
    pub second: Pair,
    /// The wanted ratio minus the ratio of the train, or `None` where that does not fit in 64 bits.
    pub off: Option<Reduced64>,
}

/// The two pairs of wheels whose ratio is nearest to the wanted one. Each of the four wheels has from `least` to `most`
/// teeth. Of two trains that are equally near, it is the one with the smaller product of the driven wheels' teeth, and then
/// the one with the smaller product of the drivers' teeth. `None` exactly where the wanted ratio is not above 0, `least`
/// is 0, or `most` is below `least`. For example, 355/113 with 8 to 20 teeth gives 19/11 times 20/11. It takes a step for
/// each choice of the two driven wheels: 5,000 for a range of 100 numbers of teeth. Where the whole number next to the best
/// product of the drivers' teeth could be nearer than all before, it looks at each number of teeth of a driver, too. For
/// 9999/10000 with 12 to 120 teeth this is so at 239 of 5,995 choices, with 90 to 100 teeth at all but one of 66, and for
/// 99999/100000 with 60,000 to 60,300 teeth at all but one of 45,451. So at worst the steps are the cube of the range.
pub fn nearest_train(wanted: &Reduced64, least: u16, most: u16) -> Option<Train>
    ensures { ChecksTrain (lowest_numbers wanted.now) least most result }
{
    if *wanted.numer() < 1 || least < 1 || most < least {
        return None;
    }
    let (first, second) = nearest_pairs(Request {
        numer: wanted.numer().unsigned_abs(),
        denom: wanted.denom().unsigned_abs(),
        least,
        most,
    });
    let (drivers, driven) = teeth(first, second);
    Some(Train {
        first,
        second,
        off: off_from(wanted, drivers, driven),
    })
}

// What is wanted: a ratio, and the least and the greatest number of teeth of each wheel.
#[derive(Clone, Copy)]
struct Request {
    numer: u64,
    denom: u64,
    least: u16,
    most: u16,
    ghost ratio: { 0 < denom },
    ghost teeth: { 0 < least },
    ghost range: { least ≤ most },
}

// The pairs of the nearest train. Of all trains with the same products, it is the one whose second pair has the fewest teeth.
fn nearest_pairs(request: Request) -> (Pair, Pair)
    ensures nearest { AreNearestPairs (pos request.numer, pos request.denom) request.least request.most result.0 result.1 }
    ensures drivers { AreWheelsOf request.least request.most (driver_teeth result.0 result.1) result.0.driver result.1.driver }
    ensures driven { AreWheelsOf request.least request.most (driven_teeth result.0 result.1) result.0.driven result.1.driven }
{
    let (drivers, driven) = nearest_products(request);
    let (first_driver, second_driver) = wheels_of(drivers, request.least, request.most);
    let (first_driven, second_driven) = wheels_of(driven, request.least, request.most);
    let first = Pair {
        driver: first_driver,
        driven: first_driven,
    };
    let second = Pair {
        driver: second_driver,
        driven: second_driven,
    };
    (first, second)
}

// The products of the drivers' and of the driven wheels' teeth in the nearest train.
fn nearest_products(request: Request) -> (u32, u32)
    ensures { AreNearestProducts (pos request.numer, pos request.denom) request.least request.most result.0 result.1 }
{
    let start = request.least as u32 * request.least as u32;
    let mut nearest = (start, start);
    if request.least == request.most {
        return nearest;
    }
    for small in request.least as u32..request.most as u32 + 1 {
        nearest = nearest_with(request, small, nearest);
    }
    nearest
}

// The products of the first train of this one and of all with a driven wheel of `small` teeth and another of as many or more.
// For each product of the driven wheels, `best` is the best one of the drivers, and mostly no whole number. A product is
// whole. So where even the nearest whole number is farther than the nearest train so far, no drivers are looked for.
fn nearest_with(request: Request, small: u32, nearest: (u32, u32)) -> (u32, u32)
    requires small { IsWheel request.least request.most small }
    requires nearest_drivers { IsProductOfTwo request.least request.most nearest.0 }
    requires nearest_driven { IsProductOfTwo request.least request.most nearest.1 }
    ensures { AreFirstOver (pos request.numer, pos request.denom) request.least request.most (IsMultipleOf small request.most) nearest result }
{
    let (numer, denom) = (request.numer, request.denom);
    let step = divided(numer as u128 * small as u128, denom);
    let mut best = divided(numer as u128 * (small * small) as u128, denom);
    let mut first = nearest;
    let mut gap = gap_of(numer as u128, denom as u128, first.0, first.1);
    for large in small..request.most as u32 + 1 {
        let driven = large * small;
        let near = best.1.min(denom as u128 - best.1);
        if near * first.1 as u128 <= gap * driven as u128 {
            first = nearer(request, driven, best.0, first);
            gap = gap_of(numer as u128, denom as u128, first.0, first.1);
        }
        best = sum_of(best, step, denom);
    }
    first
}

// The products of the first train of this one and of all whose driven wheels have this product of teeth. The best product
// of the drivers lies from `best` to the next whole number. Drivers are looked for only where one of these two would come
// before the nearest train so far, and there only the products next to the best one can be the nearest.
fn nearer(request: Request, driven: u32, best: u128, nearest: (u32, u32)) -> (u32, u32)
    requires best_at_most { best * request.denom ≤ request.numer * driven }
    requires best_next { request.numer * driven < best * request.denom + request.denom }
    requires driven { IsProductOfTwo request.least request.most driven }
    requires nearest_drivers { IsProductOfTwo request.least request.most nearest.0 }
    requires nearest_driven { IsProductOfTwo request.least request.most nearest.1 }
    ensures { AreFirstOver (pos request.numer, pos request.denom) request.least request.most (λ y. y ≡ driven) nearest result }
{
    let (numer, denom) = (request.numer, request.denom);
    let (least, most) = (request.least, request.most);
    let lowest = least as u32 * least as u32;
    let highest = most as u32 * most as u32;
    if best < lowest as u128 {
        return first_of(numer, denom, nearest, (lowest, driven));
    }
    if best >= highest as u128 {
        return first_of(numer, denom, nearest, (highest, driven));
    }
    let whole = best as u32;
    let below_later = comes_first(numer, denom, nearest, (whole, driven));
    if below_later && comes_first(numer, denom, nearest, (whole + 1, driven)) {
        return nearest;
    }
    let below = (greatest_up_to(whole, least, most), driven);
    let above = (least_above(whole, least, most), driven);
    let other = first_of(numer, denom, below, above);
    first_of(numer, denom, nearest, other)
}

// That one of both ratios which comes first by its distance from the wanted one.
fn first_of(numer: u64, denom: u64, one: (u32, u32), other: (u32, u32)) -> (u32, u32)
    ensures { IsFirstRatio (pos numer, pos denom) one other result }
{
    if comes_first(numer, denom, one, other) {
        one
    } else {
        other
    }
}

// Whether the first ratio comes first by its distance from the wanted one.
fn comes_first(numer: u64, denom: u64, first: (u32, u32), second: (u32, u32)) -> bool
    ensures { FirstOfTwo (pos numer, pos denom) first second result }
{
    let near = gap_of(numer as u128, denom as u128, first.0, first.1) * second.1 as u128;
    let far = gap_of(numer as u128, denom as u128, second.0, second.1) * first.1 as u128;
    if near != far {
        near < far
    } else if first.1 != second.1 {
        first.1 < second.1
    } else {
        first.0 <= second.0
    }
}

// The product of the drivers' teeth, and that of the driven wheels' teeth.
fn teeth(first: Pair, second: Pair) -> (u32, u32)
    ensures drivers { result.0 ≡ driver_teeth first second }
    ensures driven { result.1 ≡ driven_teeth first second }
{
    let drivers = first.driver as u32 * second.driver as u32;
    let driven = first.driven as u32 * second.driven as u32;
    (drivers, driven)
}
