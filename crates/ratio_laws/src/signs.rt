//! The laws of negatives, absolute values and signs of `Reduced`. Each function changes nothing: its contract is the law, for the
//! fractions that it is given.
ghost use Rattle.ratio_laws.specs.SignLaws.{AddsAbsolutes, IsAbsoluteTimesSign, IsDoubleNegative, MultipliesAbsolutes, MultipliesSigns};

use num_rational::Reduced;
use ratio_integer::{SignedInteger, both_held};

/// -(-x) is x.
pub fn negatives<T: Copy + SignedInteger>(x: &Reduced<T>)
    ensures { IsDoubleNegative x.now }
{
    both_held(*x.numer(), *x.denom());
}

/// |x * y| is |x| * |y|, and |x + y| is at most |x| + |y|.
pub fn absolutes<T: Copy + SignedInteger>(x: &Reduced<T>, y: &Reduced<T>)
    ensures product { MultipliesAbsolutes x.now y.now }
    ensures sum { AddsAbsolutes x.now y.now }
{}

/// |x| times the sign of x is x.
pub fn parts<T: Copy + SignedInteger>(x: &Reduced<T>)
    ensures { IsAbsoluteTimesSign x.now }
{
    both_held(*x.numer(), *x.denom());
}

/// The sign of x * y is the product of the signs.
pub fn products<T: Copy + SignedInteger>(x: &Reduced<T>, y: &Reduced<T>)
    ensures { MultipliesSigns x.now y.now }
{}
