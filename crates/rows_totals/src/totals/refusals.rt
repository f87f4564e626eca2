//! What refusals of totals print where no other row has them: `ratio_slots::Refusal::fmt TooMany`.
use super::Asked;
use super::said::written;
use ratio_slots::{CompareRefusal, JoinRefusal, OrderRefusal, ReadRefusal, Refusal};
use ratio_totals::{
    DotRefusal, ProductRefusal, RoomSplitRefusal, SumRefusal, WideProductRefusal, WideRefusal,
};

/// The text of a refusal.
pub fn answer(refusal: &str, asked: Asked<'_>) -> Option<String> {
    if asked.words == "TooLong" {
        too_long(refusal, asked)
    } else {
        too_many(refusal, asked)
    }
}

fn too_long(refusal: &str, asked: Asked<'_>) -> Option<String> {
    match refusal {
        "ReadRefusal" => written(asked.alloc, ReadRefusal::TooLong),
        "CompareRefusal" => written(asked.alloc, CompareRefusal::TooLong),
        "OrderRefusal" => written(asked.alloc, OrderRefusal::TooLong),
        "JoinRefusal" => written(asked.alloc, JoinRefusal::TooLong),
        "SumRefusal" => written(asked.alloc, SumRefusal::TooLong),
        _ => None,
    }
}

fn too_many(refusal: &str, asked: Asked<'_>) -> Option<String> {
    match (refusal, asked.words) {
        ("Refusal", "TooMany") => written(asked.alloc, Refusal::TooMany),
        ("CompareRefusal", "TooMany") => written(asked.alloc, CompareRefusal::TooMany),
        ("ProductRefusal", "TooMany") => written(asked.alloc, ProductRefusal::TooMany),
        ("DotRefusal", "TooMany") => written(asked.alloc, DotRefusal::TooMany),
        ("SumRefusal", "TooMany") => written(asked.alloc, SumRefusal::TooMany),
        ("WideRefusal", "TooMany") => written(asked.alloc, WideRefusal::TooMany),
        ("WideProductRefusal", "TooMany") => written(asked.alloc, WideProductRefusal::TooMany),
        ("RoomSplitRefusal", "TooMany") => {
            written(asked.alloc, RoomSplitRefusal::Room(WideRefusal::TooMany))
        }
        _ => None,
    }
}
