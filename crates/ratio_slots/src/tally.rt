//! The struct `Tally`, which stands beside the slots of a total, and the enum `Refusal`: why the slots took nothing.

/// The weight is the number of additions. The count is the number of fractions that went in, less those that went out.
#[derive(Clone, Copy)]
pub struct Tally {
    pub weight: u64,
    pub count: i64,
}

/// The greatest weight of a total.
pub const MOST_WEIGHT: u64 = i64::MAX as u64;

/// Why a call changed nothing.
#[derive(Clone, Copy, PartialEq, Eq, Debug)]
pub enum Refusal {
    /// All slots are taken by other denominators. A larger room takes the total: see `move_slots`.
    MoreRoom,
    /// The total has its greatest weight, 2^63 - 1.
    TooMany,
}
