//! The laws of the remainder of `Reduced`. Each function does nothing: its contract is the law, for the fractions that
//! it is given.
ghost use Rattle.ratio_laws.specs.RemainderLaws.{HasRestOnItsSide, HasSmallerRest, IsQuotientAndRest};

use num_rational::Reduced;
use ratio_integer::Integer;

/// x is q * y + x % y, where q is x / y cut towards 0. |x % y| is below |y|, and x % y is 0 or has the sign of x.
pub fn parts<T: Copy + Integer>(x: &Reduced<T>, y: &Reduced<T>)
    ensures sum { IsQuotientAndRest x.now y.now }
    ensures smaller { HasSmallerRest x.now y.now }
    ensures sign { HasRestOnItsSide x.now y.now }
{}
