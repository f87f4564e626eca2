//! What refusals print under options of a format: a text written by hand.
use crate::asserting::reads;
use num_rational::{DecimalRefusal, SplitRefusal, TextRefusal, WeightRefusal};
use std::fmt::InlineText;

// Each is cut or padded as a text is.
#[test]
fn under_options(rt: HostRuntime) {
    let (decimal, typed) = (DecimalRefusal::NotDecimal, TextRefusal::ZeroDenominator);
    let (shares, weights) = (SplitRefusal::BelowZero, WeightRefusal::AllZero);
    let row = InlineText::<80>::of(format_args!(
        "{decimal:.8}|{typed:>21}|{shares:<20}|{weights:^22}|"
    ));
    let want = "the text| the denominator is 0|a share is below 0  | no weight is above 0 |";
    reads(&rt, row.as_str(), want);
}
