//! The laws of a `Reduced` rounded to whole numbers: floor, ceiling, and the six rules. Each function changes nothing: its contract is the
//! law, for the fractions that it is given.
ghost use Rattle.ratio_decimal.specs.declared.rounding_rule.Rounding.TheVariants.{Floor, Ceil};
ghost use Rattle.ratio_laws.specs.RoundingLaws.{AddsWhole, IsCeilingOfNegative, IsNearFloor, IsNearRounded, KeepsWhole, RoundsInOrder};

use num_rational::Reduced;
use ratio_integer::{Integer, SignedInteger, both_held};

/// By each rule, x rounded is not above y rounded if x is not above y.
pub fn orders<T: Copy + Integer>(x: &Reduced<T>, y: &Reduced<T>)
    ensures { RoundsInOrder x.now y.now }
{}

/// By each rule, a whole number stays as it is. |x - round x| is at most a half. x - floor x lies from 0 up to 1.
pub fn distances<T: Copy + Integer>(x: &Reduced<T>)
    ensures whole { KeepsWhole x.now }
    ensures round { IsNearRounded x.now }
    ensures floor { IsNearFloor x.now }
{
    both_held(*x.numer(), *x.denom());
}

/// The floor of x + n is the floor of x plus n, for a whole number n. The ceiling of x + n is the ceiling of x plus n.
pub fn sums<T: Copy + Integer>(x: &Reduced<T>, n: &Reduced<T>)
    ensures floor { AddsWhole Floor x.now n.now }
    ensures ceiling { AddsWhole Ceil x.now n.now }
{}

/// The ceiling of x is the negative of the floor of -x.
pub fn negatives<T: Copy + SignedInteger>(x: &Reduced<T>)
    ensures { IsCeilingOfNegative x.now }
{
    both_held(*x.numer(), *x.denom());
}
