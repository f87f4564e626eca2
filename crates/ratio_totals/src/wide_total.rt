//! The struct `WideTotal`, a total of fractions over any primitive type, which loses nothing: how it begins, counts, and moves to another
//! room.
ghost use Rattle.std.specs.Prelude.{◌≡◌, ◌<◌, ◌≤◌, ◌⊎◌, pos, length, IfNone, IfOk, IfSome, OnErr, OnOk};
ghost use Rattle.ratio_slots.specs.Joined.{joined_pair};
ghost use Rattle.ratio_totals.specs.WideTotals.{HasTotalRoom, IsWideKept};

use ratio_integer::Primitive;
use ratio_slots::Joined;
use std::marker::PhantomData;

/// A total of fractions over any primitive type, also one of 128 bits, as one sum in a room that the caller gives. 1/36 and 1/28 are
/// 16/252 in it: the common denominator is the least common multiple of all.
///
/// `joined.digits` numbers of the room are for the common denominator. `joined.done` is the weight of the total, the number of additions.
#[derive(Drop)]
pub struct WideTotal<'a, T> {
    pub room: &'a mut [u64],
    pub joined: Joined,
    pub count: i64,
    of: PhantomData<T>,
    pub ghost kept: { IsWideKept joined room.now count },
}

/// The free digits are too few for a read of a wide total, or the bytes for its text.
#[derive(Clone, Copy, PartialEq, Eq, Debug)]
pub struct ShortRoom;

impl<'a, T: Primitive> WideTotal<'a, T> {
    /// The total of no fractions, with so many digits for the common denominator. It is `None` exactly if `digits` is below 2 or above
    /// `MOST_DIGITS`, or if the room has fewer than `4 * digits + 6` digits.
    pub fn new(digits: usize, room: &'a mut [u64]) -> Option<WideTotal<'a, T>>
        ensures same_room { IfSome result (λ total. total.room.ghost_name ≡ room.entry.ghost_name) }
        ensures room { IfSome result (λ total. length total.room.now ≡ length room.old) }
        ensures none { IfSome result (λ total. joined_pair total.joined.digits total.room.now ≡ (pos 0, 1)) }
        ensures joined { IfSome result (λ total. total.joined ≡ record { done = 0; digits = digits }) }
        ensures count { IfSome result (λ total. total.count ≡ pos 0) }
        ensures accepted { IfSome result (λ _. HasTotalRoom digits (length room.old)) }
        ensures refused { IfNone result (¬ (HasTotalRoom digits (length room.old))) }
    {
        if digits < 2 {
            return None;
        }
        let joined = Joined::zero(digits, room)?;
        Some(WideTotal {
            room,
            joined,
            count: 0,
            of: PhantomData,
        })
    }

    /// This total moved to another room, with so many digits for the common denominator, such as more of them. It is refused exactly if
    /// `digits` is below those of this total or above `MOST_DIGITS`, or if the room has fewer than `4 * digits + 6` digits.
    pub fn moved_to<'b>(
        &self,
        digits: usize,
        room: &'b mut [u64],
    ) -> Result<WideTotal<'b, T>, ShortRoom>
        ensures same_room { IfOk result (λ total. total.room.ghost_name ≡ room.entry.ghost_name) }
        ensures room { IfOk result (λ total. length total.room.now ≡ length room.old) }
        ensures sum { IfOk result (λ total. joined_pair total.joined.digits total.room.now ≡ joined_pair self.now.joined.digits self.now.room.now) }
        ensures digits { IfOk result (λ total. total.joined.digits ≡ digits) }
        ensures weight { IfOk result (λ total. total.joined.done ≡ self.now.joined.done) }
        ensures count { IfOk result (λ total. total.count ≡ self.now.count) }
        ensures more { OnOk result (self.now.joined.digits ≤ digits) }
        ensures place { OnOk result (HasTotalRoom digits (length room.old)) }
        ensures refused { OnErr result ((digits < self.now.joined.digits) ⊎ (¬ (HasTotalRoom digits (length room.old)))) }
    {
        let Some(joined) = self.joined.moved_to(self.room, digits, room) else {
            return Err(ShortRoom);
        };
        Ok(WideTotal {
            room,
            joined,
            count: self.count,
            of: PhantomData,
        })
    }

    /// How many fractions went into the wide total, less those that went out.
    pub fn count(&self) -> i64
        ensures { result ≡ self.now.count }
    {
        self.count
    }
}
