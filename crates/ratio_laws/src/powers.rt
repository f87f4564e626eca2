//! The laws of powers of powers, of products and of reciprocals of `Reduced`, for all whole numbers as exponents. Each function does
//! nothing: its contract is the law, for the fractions that it is given.
ghost use Rattle.ratio_laws.specs.PowerLaws.{HasNoPowerBelowZero, IsPowerOfReciprocal, IsReciprocalOfPower, MultipliesExponents, MultipliesPowers};

use num_rational::Reduced;
use ratio_integer::Integer;

/// (x to the e) to the f is x to the e * f.
pub fn exponents<T: Copy + Integer>(x: &Reduced<T>)
    ensures { MultipliesExponents x.now }
{}

/// x * y to an exponent is the product of the powers of x and y.
pub fn products<T: Copy + Integer>(x: &Reduced<T>, y: &Reduced<T>)
    ensures { MultipliesPowers x.now y.now }
{}

/// x to an exponent below 0 is a power of the reciprocal of x. It is `None` if x has no reciprocal. If x to an exponent is `Some`, x
/// to its negative is the reciprocal of that. Over `i8`, -1/2 to the 7 is `None`, and -1/2 to the -7 is -128/1.
pub fn reciprocals<T: Copy + Integer>(x: &Reduced<T>)
    ensures base { IsPowerOfReciprocal x.now }
    ensures none { HasNoPowerBelowZero x.now }
    ensures power { IsReciprocalOfPower x.now }
{}
