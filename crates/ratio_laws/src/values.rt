//! The laws of fractions as `Ratio` with equal values: 1/2 and 2/4. Each function does nothing: its contract is the law, for the
//! fractions that it is given. So a caller may replace a fraction by its `reduced`. `ratio_laws::laws::roundings_by_value` has the whole
//! numbers near them.
ghost use Rattle.ratio_laws.specs.ValueLaws.{AddsByValue, DividesByValue, IsNearestByValue, MultipliesByValue, SubtractsByValue};

use num_rational::Ratio;
use ratio_integer::Integer;

/// If x equals u and y equals v, then x * y is u * v, and x / y is u / v.
pub fn products<T: Copy + Integer>(x: &Ratio<T>, y: &Ratio<T>, u: &Ratio<T>, v: &Ratio<T>)
    ensures product { MultipliesByValue x.now y.now u.now v.now }
    ensures quotient { DividesByValue x.now y.now u.now v.now }
{}

/// If x equals u and y equals v, then x + y is u + v, and x - y is u - v, over a type of exact sums.
pub fn sums<T: Copy + Integer>(x: &Ratio<T>, y: &Ratio<T>, u: &Ratio<T>, v: &Ratio<T>)
    ensures sum { AddsByValue x.now y.now u.now v.now }
    ensures difference { SubtractsByValue x.now y.now u.now v.now }
{}

/// If x equals u, both have the same nearest fraction.
pub fn nearest<T: Copy + Integer>(x: &Ratio<T>, u: &Ratio<T>)
    ensures { IsNearestByValue x.now u.now }
{}
