//! The laws of reading what a `Reduced` prints, as a text or as a decimal. Each function changes nothing: its contract is the law, for the
//! fraction that it is given.
ghost use Rattle.ratio_laws.specs.ReadingLaws.{ReadsItsDecimal, ReadsItsRoundedDecimal, ReadsItsText, ReadsItsTextInBase, RefusesBelowZeroInBase, RefusesWholeInBase};

use num_rational::Reduced;
use ratio_integer::{Primitive, both_held};

/// Reading the text of a fraction in base 10 gives `Ok` of the fraction.
pub fn base_ten<T: Copy + Primitive>(x: &Reduced<T>)
    ensures { ReadsItsText T.BITS x.now }
{
    both_held(*x.numer(), *x.denom());
}

/// Reading a text without prefixes in its base gives `Ok` of the fraction if this is neither whole nor below 0: over `i8`, `f/10`
/// in base 16 gives 15/16. A whole number has no slash, so its text is a parse error. So is that of a number below 0 in another
/// base than 10: -1/2 is `ff/2`, and 255 does not fit `i8`.
pub fn in_base<T: Copy + Primitive>(x: &Reduced<T>)
    ensures back { ReadsItsTextInBase T.BITS x.now }
    ensures whole { RefusesWholeInBase T.BITS x.now }
    ensures below { RefusesBelowZeroInBase T.BITS x.now }
{
    both_held(*x.numer(), *x.denom());
}

/// Reading all of a fraction as a decimal gives `Ok` of the fraction: 99/8 is `12.375`, and `from_decimal` of that is 99/8.
pub fn exact_decimal<T: Copy + Primitive>(x: &Reduced<T>)
    ensures { ReadsItsDecimal x.now }
{
    both_held(*x.numer(), *x.denom());
}

/// Reading a decimal to so many places gives a fraction that is less than one unit of the last place away, and at most half a
/// unit by `HalfAway` and `HalfEven`: 2/3 to two places is `0.67`, and 67/100 is 1/300 away. It gives `NotHeld` where that
/// fraction does not fit the type, as 333/1000 over `i8`.
pub fn rounded_decimal<T: Copy + Primitive>(x: &Reduced<T>)
    ensures { ReadsItsRoundedDecimal x.now }
{
    both_held(*x.numer(), *x.denom());
}
