//! The first laws of `Reduced`: of sums, products, powers, parts, order, hash and continued fractions. Each function
//! changes nothing: its contract is the law, for the fractions that it is given. A premise only says what a call
//! returned. `hashes` also has one about the type.
ghost use Rattle.std.specs.Prelude.{◌≡◌, ◌↔◌};
ghost use Rattle.std.specs.declared.cmp.Ordering.TheVariants.{Equal};
ghost use Rattle.num_rational.specs.Comparison.{HaveSameFields, order_of};
ghost use Rattle.num_rational.specs.Reduced.{ratio_of, writes_of_fields};
ghost use Rattle.ratio_laws.specs.ReducedLaws.{AddsExponents, AssociatesInProduct, AssociatesInSum, ComesFromQuotients, CommutesInProduct, CommutesInSum, DistributesOverSum, IsInvertedByReciprocal, IsSumOfParts};
ghost use Rattle.ratio_laws.specs.ToldApart.{AreToldApart};

use num_rational::Reduced;
use ratio_integer::{Integer, both_held};

/// Sums commute and associate.
pub fn sums<T: Copy + Integer>(x: &Reduced<T>, y: &Reduced<T>, z: &Reduced<T>)
    ensures commute { CommutesInSum x.now y.now }
    ensures associate { AssociatesInSum x.now y.now z.now }
{}

/// Products commute and associate, and distribute over sums.
pub fn products<T: Copy + Integer>(x: &Reduced<T>, y: &Reduced<T>, z: &Reduced<T>)
    ensures commute { CommutesInProduct x.now y.now }
    ensures associate { AssociatesInProduct x.now y.now z.now }
    ensures distribute { DistributesOverSum x.now y.now z.now }
{}

/// Exponents add, and a fraction times its reciprocal is 1/1.
pub fn powers<T: Copy + Integer>(x: &Reduced<T>)
    ensures add { AddsExponents x.now }
    ensures invert { IsInvertedByReciprocal x.now }
{}

/// `trunc` and `fract` of a fraction add up to it.
pub fn parts<T: Copy + Integer>(x: &Reduced<T>)
    ensures { IsSumOfParts x.now }
{
    both_held(*x.numer(), *x.denom());
}

/// The order is `Equal` exactly if the fields are equal. `==` is true for the same fractions.
pub fn orders<T: Copy + Integer>(x: &Reduced<T>, y: &Reduced<T>)
    ensures { (order_of (ratio_of x.now) (ratio_of y.now) ≡ Equal) ↔ HaveSameFields (ratio_of x.now) (ratio_of y.now) }
{}

/// Fractions that feed a hasher the same have the same fields, if the numbers of the type are told
/// apart.
pub fn hashes<T: Copy + Integer>(x: &Reduced<T>, y: &Reduced<T>)
    ensures { AreToldApart T.lo T.hi T.number_hash_input → writes_of_fields x.now ≡ writes_of_fields y.now → HaveSameFields (ratio_of x.now) (ratio_of y.now) }
{
    both_held(*x.numer(), *x.denom());
    both_held(*y.numer(), *y.denom());
}

/// From the quotients of a fraction comes the fraction itself.
pub fn continued_fractions<T: Copy + Integer>(x: &Reduced<T>)
    ensures { ComesFromQuotients x.now }
{
    both_held(*x.numer(), *x.denom());
}
