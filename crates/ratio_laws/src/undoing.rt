//! The laws of calls of `Reduced` that undo one another, or that can stand for one another, as the quotient x / y for x
//! times the reciprocal of y. Each function changes nothing: its contract is the law, for the fractions that it is
//! given.
ghost use Rattle.ratio_laws.specs.UndoingLaws.{DividesByReciprocal, IsDifferenceUndone, IsProductUndone, IsQuotientUndone, IsSumUndone, IsZeroWithoutItself, SubtractsByNegative};

use num_rational::Reduced;
use ratio_integer::{Integer, SignedInteger, both_held};

/// (x + y) - y and (x - y) + y are x.
pub fn sums<T: Copy + Integer>(x: &Reduced<T>, y: &Reduced<T>)
    ensures sum { IsSumUndone x.now y.now }
    ensures difference { IsDifferenceUndone x.now y.now }
{
    both_held(*x.numer(), *x.denom());
}

/// (x * y) / y and (x / y) * y are x, if y is not 0.
pub fn products<T: Copy + Integer>(x: &Reduced<T>, y: &Reduced<T>)
    ensures product { IsProductUndone x.now y.now }
    ensures quotient { IsQuotientUndone x.now y.now }
{
    both_held(*x.numer(), *x.denom());
}

/// x - x is 0, for each x.
pub fn itself<T: Copy + Integer>(x: &Reduced<T>)
    ensures { IsZeroWithoutItself x.now }
{}

/// x - y is x + (-y).
pub fn negatives<T: Copy + SignedInteger>(x: &Reduced<T>, y: &Reduced<T>)
    ensures { SubtractsByNegative x.now y.now }
{}

/// x / y is x times the reciprocal of y.
pub fn reciprocals<T: Copy + Integer>(x: &Reduced<T>, y: &Reduced<T>)
    ensures { DividesByReciprocal x.now y.now }
{}
