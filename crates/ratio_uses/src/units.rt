//! Amounts converted by a chain of rates, and intervals brought into one octave by doublings and halvings.
ghost use Rattle.std.specs.Prelude.{◌≤ℤ◌, ◌<ℤ◌, ◌*ℤ◌, pos};
ghost use Rattle.num_rational.specs.Reduced.{lowest_numbers};
ghost use Rattle.ratio_uses.specs.Units.{ChecksConversion, ChecksDoubled, ChecksOctave, IsHalved, OrderIsFree};

use num_rational::Reduced64;

/// The amount times each rate of the chain. For example, 2 miles times 5280 feet a mile and 12 inches a
/// foot are 126720 inches. `None` exactly where some step does not fit in 64 bits: the amount times the
/// first rate, times the first two, and so on.
pub fn convert(amount: &Reduced64, rates: &[Reduced64]) -> Option<Reduced64>
    ensures { ChecksConversion lowest_numbers (lowest_numbers amount.now) rates.now result }
{
    let mut total = *amount;
    for rate in rates {
        total = total.checked_mul(rate)?;
    }
    Some(total)
}

/// Rates convert an amount to one result in each order, if both chains have a result.
pub fn any_order()
    ensures { OrderIsFree }
{}

/// The interval in the octave from 1 to below 2, by doublings or halvings. For example, 3 gives 3/2. `None` only where
/// the interval is not above 0, or where it is below 1 and a doubling that it still needs does not fit in 64 bits.
pub fn in_octave(interval: &Reduced64) -> Option<Reduced64>
    ensures { ChecksOctave (lowest_numbers interval.now) result }
{
    if *interval.numer() < 1 {
        return None;
    }
    Some(halved(&doubled(interval)?))
}

// The interval doubled until it is at least 1.
fn doubled(interval: &Reduced64) -> Option<Reduced64>
    requires { pos 0 <ℤ (lowest_numbers interval.now).0 }
    ensures { ChecksDoubled (lowest_numbers interval.now) result }
{
    let mut pitch = *interval;
    while *pitch.numer() < *pitch.denom() {
        pitch = pitch.checked_mul(2)?;
    }
    Some(pitch)
}

// The interval halved until it is below 2.
fn halved(interval: &Reduced64) -> Reduced64
    requires { (lowest_numbers interval.now).1 ≤ℤ (lowest_numbers interval.now).0 }
    ensures halved { IsHalved (lowest_numbers interval.now) (lowest_numbers result) }
    ensures below_two { (lowest_numbers result).0 <ℤ (pos 2 *ℤ (lowest_numbers result).1) }
{
    let mut pitch = *interval;
    while *pitch.numer() - *pitch.denom() >= *pitch.denom() {
        pitch = pitch.checked_div(2).unwrap();
    }
    pitch
}
