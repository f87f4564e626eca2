//! Reads of a sum in a room whose numbers have up to 128 bits.
use super::Asked;
use super::numbers::number;
use super::said::said_wide;
use ratio_slots::Joined;

/// Reads the sum in the room.
pub fn wide_read(call: &str, asked: Asked<'_>, joined: Joined, room: &mut [u64]) -> Option<String> {
    match call {
        "wide_sum" => said_wide(asked.alloc, joined.wide_sum(room)),
        "wide_mean" => {
            let mean = joined.wide_mean(number(asked.args)?, room);
            said_wide(asked.alloc, mean)
        }
        "wide_round_to" => {
            let parts = number::<u128>(asked.args)?;
            if parts == 0 {
                return None;
            }
            let multiple = joined.wide_round_to(parts, asked.rule?, room);
            said_wide(asked.alloc, multiple)
        }
        _ => None,
    }
}
