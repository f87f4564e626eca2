//! The laws of the nearest fraction with a bounded denominator, as `Reduced` returns it. Each function does nothing: its contract is
//! the law, for the fraction that it is given.
ghost use Rattle.ratio_laws.specs.NearestBoundLaws.{HasNearest, KeepsNearest, NearsWithBound};

use num_rational::Reduced;
use ratio_integer::Integer;

/// For each bound of at least 1 there is a nearest fraction, and for a larger bound it is no further away. The nearest fraction to
/// the nearest one is itself.
pub fn bounds<T: Copy + Integer>(x: &Reduced<T>)
    ensures exists { HasNearest x.now }
    ensures nearer { NearsWithBound x.now }
    ensures kept { KeepsNearest x.now }
{}
