//! The laws of the order of results: sums, products and negatives of two `Reduced`. Each function does nothing: its contract
//! is the law, for the fractions that it is given.
ghost use Rattle.ratio_laws.specs.OrderLaws.{AddsInOrder, MultipliesInOrder, MultipliesInReverse, NegatesInReverse};

use num_rational::Reduced;
use ratio_integer::{Integer, SignedInteger};

/// x + z and y + z have the order of x and y.
pub fn sums<T: Copy + Integer>(x: &Reduced<T>, y: &Reduced<T>, z: &Reduced<T>)
    ensures { AddsInOrder x.now y.now z.now }
{}

/// x * z and y * z have the order of x and y for z above 0, and the reverse order for z below 0.
pub fn products<T: Copy + Integer>(x: &Reduced<T>, y: &Reduced<T>, z: &Reduced<T>)
    ensures above { MultipliesInOrder x.now y.now z.now }
    ensures below { MultipliesInReverse x.now y.now z.now }
{}

/// -x and -y have the reverse order.
pub fn negatives<T: Copy + SignedInteger>(x: &Reduced<T>, y: &Reduced<T>)
    ensures { NegatesInReverse x.now y.now }
{}
