//! The laws of sums and products of lists, as `Reduced` returns them. Each function does nothing: its contract is the law, for the lists
//! that it is given. x is the result of the first list, wherever that is `Some`.
ghost use Rattle.ratio_laws.specs.FoldLaws.{AddsInAnyOrder, AddsInParts, HasNoProductOfBoth, HasNoSumOfBoth, MultipliesInAnyOrder, MultipliesInParts, ProductsGoOn, SumsGoOn};

use num_rational::{Reduced, ReducedOperand};
use ratio_integer::Integer;

/// Adding the second list to the sum of the first, item by item, is the sum of both lists, one after the other. It is `None` if
/// the sum of the first list is. The sum of both is also the sum of their two sums, and lists with the same items have the same
/// sum. Over `i8`, 127, 1 and -1 have no sum, and 127, -1 and 1 have one. So these two laws are for sums that are `Some`.
pub fn sums<T: Copy + Integer, O: ReducedOperand<T> + Copy>(
    x: &Reduced<T>,
    first: &[O],
    second: &[O],
)
    ensures on { SumsGoOn O.two_numbers x.now first.now second.now }
    ensures none { HasNoSumOfBoth T.lo T.hi O.two_numbers first.now second.now }
    ensures parts { AddsInParts O.two_numbers x.now first.now second.now }
    ensures order { AddsInAnyOrder O.two_numbers x.now first.now second.now }
{}

/// The laws of products of lists, as those of `sums`: multiplying goes on, lists may be cut in two, and their order is free. Over `i8`, 127, 2 and 1/2
/// have no product, and 127, 1/2 and 2 have one.
pub fn products<T: Copy + Integer, O: ReducedOperand<T> + Copy>(
    x: &Reduced<T>,
    first: &[O],
    second: &[O],
)
    ensures on { ProductsGoOn O.two_numbers x.now first.now second.now }
    ensures none { HasNoProductOfBoth T.lo T.hi O.two_numbers first.now second.now }
    ensures parts { MultipliesInParts O.two_numbers x.now first.now second.now }
    ensures order { MultipliesInAnyOrder O.two_numbers x.now first.now second.now }
{}
