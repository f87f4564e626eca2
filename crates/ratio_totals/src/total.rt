//! The struct `Total`, a total of fractions over a type of at most 64 bits, which loses nothing: how it begins, counts, and moves to more
//! slots.
ghost use Rattle.std.specs.Prelude.{◌≡◌, ◌<◌, ◌≤◌, pos, length, IfErr, IfOk, OnErr, OnOk};
ghost use Rattle.ratio_slots.specs.Merging.{taken_of};
ghost use Rattle.ratio_slots.specs.Sums.{SameSum};
ghost use Rattle.ratio_slots.specs.TotalLaws.{SameNumerators};
ghost use Rattle.ratio_slots.specs.Totals.{HasNoFraction, IsKept};

use crate::short::Short;
use ratio_slots::{Refusal, Slot, Tally, clear, move_slots};
use std::marker::PhantomData;

/// A total of fractions over the type `T`, in slots that the caller gives. Each denominator has one slot.
///
/// Denominators that someone chose may collide in a table whose number of slots he knew. So a caller who takes denominators from others
/// chooses that number by chance, such as from twice the denominators up to an eighth more.
#[derive(Drop)]
pub struct Total<'a, T> {
    pub slots: &'a mut [Slot],
    pub tally: Tally,
    of: PhantomData<T>,
    pub ghost kept: { IsKept slots.now tally.weight tally.count },
}

impl<'a, T: Short> Total<'a, T> {
    ghost use Rattle.ratio_totals.specs.Values.{slots_of, value_of};

    /// The total of no fractions. It empties the slots.
    pub fn new(slots: &'a mut [Slot]) -> Total<'a, T>
        ensures same_slots { result.slots.ghost_name ≡ slots.entry.ghost_name }
        ensures room { length (slots_of result) ≡ length slots.old }
        ensures none { HasNoFraction (slots_of result) }
        ensures count { result.tally.count ≡ pos 0 }
        ensures weight { result.tally.weight ≡ 0 }
    {
        clear(slots);
        Total {
            slots,
            tally: Tally {
                weight: 0,
                count: 0,
            },
            of: PhantomData,
        }
    }

    /// This total moved to other slots, such as more of them. It empties these slots first. If they are fewer than the
    /// denominators, it returns `MoreRoom`.
    pub fn moved_to<'b>(&self, slots: &'b mut [Slot]) -> Result<Total<'b, T>, Refusal>
        ensures same_slots { IfOk result (λ total. total.slots.ghost_name ≡ slots.entry.ghost_name) }
        ensures sum { IfOk result (λ total. SameSum (value_of self.now) (value_of total)) }
        ensures numerators { IfOk result (λ total. SameNumerators (slots_of self.now) (slots_of total)) }
        ensures count { IfOk result (λ total. total.tally.count ≡ self.now.tally.count) }
        ensures weight { IfOk result (λ total. total.tally.weight ≡ self.now.tally.weight) }
        ensures room { OnOk result (taken_of (slots_of self.now) ≤ length slots.old) }
        ensures refused { OnErr result (length slots.old < taken_of (slots_of self.now)) }
        ensures more_room { IfErr result (λ why. why ≡ Refusal.MoreRoom) }
    {
        move_slots(self.slots, self.tally, slots)?;
        Ok(Total {
            slots,
            tally: self.tally,
            of: PhantomData,
        })
    }

    /// How many fractions went in, less those that went out.
    pub fn count(&self) -> i64
        ensures { result ≡ self.now.tally.count }
    {
        self.tally.count
    }
}
