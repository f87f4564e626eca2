//! The products of the teeth of two wheels, next to a number, and the wheels of such a product.
ghost use Rattle.std.specs.Prelude.{◌*◌, ◌<◌, ◌≤◌};
ghost use Rattle.ratio_uses.specs.Trains.{AreWheelsOf, IsGreatestUpTo, IsLeastAbove, IsProductOfTwo};

// The greatest product up to this number. It takes a step for each number of teeth.
pub(crate) fn greatest_up_to(bound: u32, least: u16, most: u16) -> u32
    requires least { 0 < least }
    requires most { least ≤ most }
    requires bound { least * least ≤ bound }
    ensures { IsGreatestUpTo least most bound result }
{
    let mut best = least as u32 * least as u32;
    for small in least as u32..most as u32 + 1 {
        let large = (bound / small).min(most as u32);
        if large >= least as u32 {
            best = best.max(large * small);
        }
    }
    best
}

// The least product above this number. It takes a step for each number of teeth.
pub(crate) fn least_above(bound: u32, least: u16, most: u16) -> u32
    requires least { 0 < least }
    requires most { least ≤ most }
    requires bound { bound < most * most }
    ensures { IsLeastAbove least most bound result }
{
    let mut best = most as u32 * most as u32;
    for small in least as u32..most as u32 + 1 {
        let large = (bound / small + 1).max(least as u32);
        if large <= most as u32 {
            best = best.min(large * small);
        }
    }
    best
}

// The wheels of this product, the second as small as it can be.
pub(crate) fn wheels_of(product: u32, least: u16, most: u16) -> (u16, u16)
    requires least { 0 < least }
    requires product { IsProductOfTwo least most product }
    ensures { AreWheelsOf least most product result.0 result.1 }
{
    for small in least..most {
        let large = product / small as u32;
        if large <= most as u32 && large * small as u32 == product {
            return (large as u16, small);
        }
    }
    (most, most)
}
