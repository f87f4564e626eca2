//! The laws of 0 and 1 as operands and as exponents of `Reduced`. Each function changes nothing: its contract is the law, for the
//! fraction that it is given. All these calls return `Some`.
ghost use Rattle.ratio_laws.specs.NeutralLaws.{HasFirstPowers, IsKeptByOne, IsKeptByZero, IsZeroTimesZero};

use num_rational::Reduced;
use ratio_integer::{Integer, both_held};

/// x + 0 and 0 + x are x. x * 0 is 0.
pub fn zeros<T: Copy + Integer>(x: &Reduced<T>)
    ensures sums { IsKeptByZero x.now }
    ensures product { IsZeroTimesZero x.now }
{
    both_held(*x.numer(), *x.denom());
}

/// x * 1, 1 * x and x / 1 are x.
pub fn ones<T: Copy + Integer>(x: &Reduced<T>)
    ensures { IsKeptByOne x.now }
{
    both_held(*x.numer(), *x.denom());
}

/// x to the 1 is x, and x to the 0 is 1.
pub fn powers<T: Copy + Integer>(x: &Reduced<T>)
    ensures { HasFirstPowers x.now }
{
    both_held(*x.numer(), *x.denom());
}
