//! The laws of the greatest common divisor and the least common multiple of `Reduced`. Each function does nothing: its contract is the law,
//! for the fractions that it is given.
ghost use Rattle.ratio_laws.specs.DivisorLaws.{HasDivisorOfBoth, HasMultipleOfBoth, HasNoDivisorAbove, HasNoMultipleBelow, IsWholeByDivisor, MultipliesToProduct};

use num_rational::Reduced;
use ratio_integer::Integer;

/// The greatest common divisor divides both fractions, and x by it is a whole number. No fraction above it divides both, unless both are 0.
pub fn greatest<T: Copy + Integer>(x: &Reduced<T>, y: &Reduced<T>)
    ensures divides { HasDivisorOfBoth x.now y.now }
    ensures whole { IsWholeByDivisor x.now y.now }
    ensures none_above { HasNoDivisorAbove x.now y.now }
{}

/// Both fractions divide the least common multiple. They do not both divide a fraction above 0 that is below it.
pub fn least<T: Copy + Integer>(x: &Reduced<T>, y: &Reduced<T>)
    ensures divided { HasMultipleOfBoth x.now y.now }
    ensures none_below { HasNoMultipleBelow x.now y.now }
{}

/// The greatest common divisor times the least common multiple is |x * y|.
pub fn products<T: Copy + Integer>(x: &Reduced<T>, y: &Reduced<T>)
    ensures { MultipliesToProduct x.now y.now }
{}
