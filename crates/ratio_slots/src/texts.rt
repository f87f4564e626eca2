//! What the refusals of totals print.
ghost use Rattle.std.specs.Fmt.{padded};
ghost use Rattle.std.specs.Prelude.{Some};
ghost use Rattle.ratio_slots.specs.Texts.{add_refusal_text, compare_refusal_text, join_refusal_text, loose_refusal_text, no_sum_text, order_refusal_text, read_refusal_text, total_refusal_text};

use crate::changes::LooseRefusal;
use crate::comparing::CompareRefusal;
use crate::joined::{JoinRefusal, NoSum};
use crate::orders::OrderRefusal;
use crate::reading::ReadRefusal;
use crate::rooms::AddRefusal;
use crate::tally::Refusal;
use std::error::Error;
use std::fmt;

impl fmt::Display for Refusal {
    ghost output = { λ why. Some (total_refusal_text why) };

    ghost styled_output = { λ why options. Some (padded options (total_refusal_text why)) };

    fn fmt<W: fmt::Write>(&self, f: &mut fmt::Formatter<W>) -> fmt::Result {
        f.pad(match self {
            Refusal::MoreRoom => "all slots are taken by other denominators",
            Refusal::TooMany => "the total has its greatest weight, 2^63 - 1",
        })
    }
}

impl fmt::Display for ReadRefusal {
    ghost output = { λ why. Some (read_refusal_text why) };

    ghost styled_output = { λ why options. Some (padded options (read_refusal_text why)) };

    fn fmt<W: fmt::Write>(&self, f: &mut fmt::Formatter<W>) -> fmt::Result {
        f.pad(match self {
            ReadRefusal::MoreRoom => "the room is too small",
            ReadRefusal::TooLong => "the common denominator is not below 2^(2^20)",
        })
    }
}

impl fmt::Display for CompareRefusal {
    ghost output = { λ why. Some (compare_refusal_text why) };

    ghost styled_output = { λ why options. Some (padded options (compare_refusal_text why)) };

    fn fmt<W: fmt::Write>(&self, f: &mut fmt::Formatter<W>) -> fmt::Result {
        f.pad(match self {
            CompareRefusal::MoreSlots => "the slots are fewer than the denominators of both totals",
            CompareRefusal::TooMany => "the weights of both totals are together above 2^63 - 1",
            CompareRefusal::MoreRoom => "the room has too few digits",
            CompareRefusal::TooLong => {
                "the common denominator of both totals is not below 2^(2^20)"
            }
        })
    }
}

impl fmt::Display for OrderRefusal {
    ghost output = { λ why. Some (order_refusal_text why) };

    ghost styled_output = { λ why options. Some (padded options (order_refusal_text why)) };

    fn fmt<W: fmt::Write>(&self, f: &mut fmt::Formatter<W>) -> fmt::Result {
        f.pad(match self {
            OrderRefusal::MoreSlots => "the slots are fewer than those of both lists",
            OrderRefusal::TooGreat => {
                "the negative of a numerator of the second list does not fit 128 bits"
            }
            OrderRefusal::MoreRoom => "the room has too few digits",
            OrderRefusal::TooLong => "the common denominator of both lists is not below 2^(2^20)",
        })
    }
}

impl fmt::Display for LooseRefusal {
    ghost output = { λ why. Some (loose_refusal_text why) };

    ghost styled_output = { λ why options. Some (padded options (loose_refusal_text why)) };

    fn fmt<W: fmt::Write>(&self, f: &mut fmt::Formatter<W>) -> fmt::Result {
        f.pad(match self {
            LooseRefusal::MoreRoom => "all slots are taken by other denominators",
            LooseRefusal::NotEmpty => {
                "the slot has the denominator 0, and a numerator that is not 0"
            }
            LooseRefusal::TooGreat => "the sum of the numerators does not fit 128 bits",
        })
    }
}

impl fmt::Display for JoinRefusal {
    ghost output = { λ why. Some (join_refusal_text why) };

    ghost styled_output = { λ why options. Some (padded options (join_refusal_text why)) };

    fn fmt<W: fmt::Write>(&self, f: &mut fmt::Formatter<W>) -> fmt::Result {
        f.pad(match self {
            JoinRefusal::NotJoined => "the room does not look as the last step left it",
            JoinRefusal::TooLong => "the common denominator is not below 2^(2^20)",
        })
    }
}

impl fmt::Display for NoSum {
    ghost output = { λ why. Some no_sum_text };

    ghost styled_output = { λ why options. Some (padded options no_sum_text) };

    fn fmt<W: fmt::Write>(&self, f: &mut fmt::Formatter<W>) -> fmt::Result {
        f.pad("the room holds no sum, or is too small")
    }
}

impl fmt::Display for AddRefusal {
    ghost output = { λ why. Some (add_refusal_text why) };

    ghost styled_output = { λ why options. Some (padded options (add_refusal_text why)) };

    fn fmt<W: fmt::Write>(&self, f: &mut fmt::Formatter<W>) -> fmt::Result {
        f.pad(match self {
            AddRefusal::NoSum => "one of the rooms holds no sum",
            AddRefusal::MoreRoom => "the spare digits are too few",
            AddRefusal::TooMany => "both sums together have 2^64 fractions or more",
            AddRefusal::MoreDigits => "the common denominator needs more digits",
        })
    }
}

impl Error for Refusal {}

impl Error for ReadRefusal {}

impl Error for CompareRefusal {}

impl Error for OrderRefusal {}

impl Error for LooseRefusal {}

impl Error for JoinRefusal {}

impl Error for NoSum {}

impl Error for AddRefusal {}
