//! What the refusals of totals of fractions print.
ghost use Rattle.std.specs.Fmt.{padded};
ghost use Rattle.std.specs.Prelude.{Some};
ghost use Rattle.ratio_totals.specs.RoomSplits.{room_split_refusal_text};
ghost use Rattle.ratio_totals.specs.Texts.{dot_refusal_text, product_refusal_text, short_room_text, sum_refusal_text, wide_product_refusal_text, wide_refusal_text};

use crate::list_sums::SumRefusal;
use crate::splitting::RoomSplitRefusal;
use crate::total_changes::{DotRefusal, ProductRefusal};
use crate::wide_changes::{WideProductRefusal, WideRefusal};
use crate::wide_total::ShortRoom;
use std::error::Error;
use std::fmt;

impl fmt::Display for ProductRefusal {
    ghost output = { λ why. Some (product_refusal_text why) };

    ghost styled_output = { λ why options. Some (padded options (product_refusal_text why)) };

    fn fmt<W: fmt::Write>(&self, f: &mut fmt::Formatter<W>) -> fmt::Result {
        f.pad(match self {
            ProductRefusal::MoreRoom => "all slots are taken by other denominators",
            ProductRefusal::TooMany => "the total has its greatest weight, 2^63 - 1",
            ProductRefusal::TooGreat => "one of the lowest terms of the product is 2^64 or more",
        })
    }
}

impl fmt::Display for DotRefusal {
    ghost output = { λ why. Some (dot_refusal_text why) };

    ghost styled_output = { λ why options. Some (padded options (dot_refusal_text why)) };

    fn fmt<W: fmt::Write>(&self, f: &mut fmt::Formatter<W>) -> fmt::Result {
        f.pad(match self {
            DotRefusal::UnlikeLengths => "the lists have different lengths",
            DotRefusal::MoreRoom => "the slots are fewer than the denominators of the products",
            DotRefusal::TooMany => "the lists have more than 2^63 - 1 items",
            DotRefusal::TooGreat => "one of the lowest terms of a product is 2^64 or more",
        })
    }
}

impl fmt::Display for SumRefusal {
    ghost output = { λ why. Some (sum_refusal_text why) };

    ghost styled_output = { λ why options. Some (padded options (sum_refusal_text why)) };

    fn fmt<W: fmt::Write>(&self, f: &mut fmt::Formatter<W>) -> fmt::Result {
        f.pad(match self {
            SumRefusal::MoreSlots => "the items have more denominators than there are slots",
            SumRefusal::MoreRoom => "the room is too small",
            SumRefusal::TooMany => "the items are more than 2^63 - 1",
            SumRefusal::TooLong => "the common denominator is not below 2^(2^20)",
        })
    }
}

impl fmt::Display for WideRefusal {
    ghost output = { λ why. Some (wide_refusal_text why) };

    ghost styled_output = { λ why options. Some (padded options (wide_refusal_text why)) };

    fn fmt<W: fmt::Write>(&self, f: &mut fmt::Formatter<W>) -> fmt::Result {
        f.pad(match self {
            WideRefusal::MoreRoom => "the room or the spare digits are too few",
            WideRefusal::TooMany => "the total has its greatest weight, 2^63 - 1",
            WideRefusal::MoreDigits => "the common denominator needs more digits",
        })
    }
}

impl fmt::Display for WideProductRefusal {
    ghost output = { λ why. Some (wide_product_refusal_text why) };

    ghost styled_output = { λ why options. Some (padded options (wide_product_refusal_text why)) };

    fn fmt<W: fmt::Write>(&self, f: &mut fmt::Formatter<W>) -> fmt::Result {
        f.pad(match self {
            WideProductRefusal::MoreRoom => "the spare digits are too few",
            WideProductRefusal::TooMany => "the total has its greatest weight, 2^63 - 1",
            WideProductRefusal::MoreDigits => "the common denominator needs more digits",
            WideProductRefusal::TooGreat => {
                "one of the lowest terms of the product is 2^128 or more"
            }
        })
    }
}

impl fmt::Display for ShortRoom {
    ghost output = { λ why. Some short_room_text };

    ghost styled_output = { λ why options. Some (padded options short_room_text) };

    fn fmt<W: fmt::Write>(&self, f: &mut fmt::Formatter<W>) -> fmt::Result {
        f.pad("the room is too small")
    }
}

impl fmt::Display for RoomSplitRefusal {
    ghost output = { λ why. Some (room_split_refusal_text why) };

    ghost styled_output = { λ why options. Some (padded options (room_split_refusal_text why)) };

    fn fmt<W: fmt::Write>(&self, f: &mut fmt::Formatter<W>) -> fmt::Result {
        f.pad(match self {
            RoomSplitRefusal::Length => "the number of parts is not the number of shares",
            RoomSplitRefusal::BelowZero => "a share is below 0",
            RoomSplitRefusal::Room(_) => "the sum of the shares has no place in the room",
            RoomSplitRefusal::NotOne => "the shares do not add up to 1",
        })
    }
}

impl Error for ProductRefusal {}

impl Error for DotRefusal {}

impl Error for SumRefusal {}

impl Error for WideRefusal {}

impl Error for WideProductRefusal {}

impl Error for ShortRoom {}

impl Error for RoomSplitRefusal {}
