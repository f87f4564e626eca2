//! The laws of when a quotient and a greatest common divisor fit the type. Each function does nothing: its contract
//! is the law.
ghost use Rattle.ratio_integer.specs.HeldResults.{FlooredHeldButOne, GcdHeldButThree, QuotientHeldButOne};

/// What a division requires of its two numbers is exactly what its result needs to fit.
pub fn quotients()
    ensures truncated { QuotientHeldButOne }
    ensures floored { FlooredHeldButOne }
{}

/// What a greatest common divisor requires of its two numbers is exactly what it needs to fit.
pub fn divisors()
    ensures { GcdHeldButThree }
{}
