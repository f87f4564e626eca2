//! What goes into slots and out of them: one fraction, those of another table, all of a table that moves, and one fraction where the slots
//! may hold anything.
ghost use Rattle.std.specs.Prelude.{◌≡◌, ◌≢◌, ◌<◌, ◌≤◌, ◌^◌, ◌+◌, ◌+ℤ◌, ◌↔◌, unsigned_abs, length, IfErr, IsTrue, MatchResult, OnErr, OnOk};
ghost use Rattle.ratio_slots.specs.Loose.{IsClean, IsLooseRefusedFor, TakesLoose};
ghost use Rattle.ratio_slots.specs.Merging.{CanMerge, IsMergeRefusedFor, IsMerged, free_of, taken_of};
ghost use Rattle.ratio_slots.specs.Slots.{slot_at};
ghost use Rattle.ratio_slots.specs.Sums.{GrowsAt, Has128Bits, Puts, SumGrows};
ghost use Rattle.ratio_slots.specs.TotalLaws.{SameDenominators, SameNumerators};
ghost use Rattle.ratio_slots.specs.Totals.{IsKept, IsRefusedFor, PutsOne};
ghost use Rattle.ratio_slots.specs.Turning.{turned};

use crate::slots::{Slot, clear, count_free, count_new, denom_at, find, grow_at, numer_at};
use crate::tally::{MOST_WEIGHT, Refusal, Tally};

/// The fraction `numer/denom` goes into its slot, and the count changes by `step`: 1, or -1 for the negative of a fraction that goes out.
pub fn put(
    slots: &mut [Slot],
    tally: &mut Tally,
    numer: i128,
    denom: u64,
    step: i64,
) -> Result<(), Refusal>
    requires kept { IsKept slots.old tally.old.weight tally.old.count }
    requires denom { denom ≢ 0 }
    requires small { unsigned_abs numer < 2 ^ 64 }
    requires step { unsigned_abs step ≤ 1 }
    ensures kept { IsKept slots.new tally.new.weight tally.new.count }
    ensures exact { MatchResult result (λ _. PutsOne denom numer step slots.old slots.new tally.old.weight tally.new.weight tally.old.count tally.new.count) (λ why. IsRefusedFor slots.old tally.old.weight denom why) }
    ensures numerators { OnOk result (GrowsAt denom numer slots.old slots.new) }
    ensures sum { OnOk result (SumGrows denom numer slots.old slots.new) }
    ensures slots_unchanged { OnErr result (slots.new ≡ slots.old) }
    ensures tally_unchanged { OnErr result (tally.new ≡ tally.old) }
{
    if tally.weight == MOST_WEIGHT {
        return Err(Refusal::TooMany);
    }
    match find(slots, denom) {
        Some(place) => {
            grow_at(slots, place, denom, numer);
            tally.weight += 1;
            tally.count += step;
            Ok(())
        }
        None => Err(Refusal::MoreRoom),
    }
}

/// Adds each fraction of the other table, or takes it out. It counts first, so that a refusal changes nothing. The other table may have
/// fractions that this one does not: 1/28 taken out of 1/36 leaves 1/36 and -1/28, and so a slot for each of both.
pub fn merge_slots(
    slots: &mut [Slot],
    tally: &mut Tally,
    other: &[Slot],
    more: Tally,
    out: bool,
) -> Result<(), Refusal>
    requires kept { IsKept slots.old tally.old.weight tally.old.count }
    requires other { IsKept other.now more.weight more.count }
    ensures kept { IsKept slots.new tally.new.weight tally.new.count }
    ensures merged { OnOk result (IsMerged out slots.old other.now slots.new) }
    ensures count { OnOk result (tally.new.count ≡ tally.old.count +ℤ turned out more.count) }
    ensures weight { OnOk result (tally.new.weight ≡ tally.old.weight + more.weight) }
    ensures accepted { OnOk result (CanMerge slots.old tally.old.weight other.now more.weight) }
    ensures refused { IfErr result (IsMergeRefusedFor slots.old tally.old.weight other.now more.weight) }
    ensures slots_unchanged { OnErr result (slots.new ≡ slots.old) }
    ensures tally_unchanged { OnErr result (tally.new ≡ tally.old) }
{
    if MOST_WEIGHT - more.weight < tally.weight {
        return Err(Refusal::TooMany);
    }
    if count_free(slots) < count_new(slots, other) {
        return Err(Refusal::MoreRoom);
    }
    pour(slots, *tally, other, more, out);
    tally.weight += more.weight;
    tally.count += turned_count(more.count, out);
    Ok(())
}

/// Moves a table with its tally to other slots, such as more of them, which it empties first. If they are fewer than the denominators, it
/// returns `MoreRoom`.
pub fn move_slots(from: &[Slot], tally: Tally, slots: &mut [Slot]) -> Result<(), Refusal>
    requires { IsKept from.now tally.weight tally.count }
    ensures kept { OnOk result (IsKept slots.new tally.weight tally.count) }
    ensures numerators { OnOk result (SameNumerators from.now slots.new) }
    ensures held { OnOk result (SameDenominators from.now slots.new) }
    ensures free { OnOk result (free_of slots.new + taken_of from.now ≡ length slots.old) }
    ensures room { OnOk result (taken_of from.now ≤ length slots.old) }
    ensures refused { OnErr result (length slots.old < taken_of from.now) }
    ensures more_room { IfErr result (λ why. why ≡ Refusal.MoreRoom) }
{
    clear(slots);
    let mut moved = Tally {
        weight: 0,
        count: 0,
    };
    merge_slots(slots, &mut moved, from, tally, false)
}

// The count, or the negative one if it goes out.
fn turned_count(count: i64, out: bool) -> i64
    requires { unsigned_abs count < 2 ^ 63 }
    ensures { result ≡ turned out count }
{
    if out { -count } else { count }
}

// Adds each numerator of the other table, or takes it out. The tallies are those of both tables before.
fn pour(slots: &mut [Slot], tally: Tally, other: &[Slot], more: Tally, out: bool)
    requires kept { IsKept slots.old tally.weight tally.count }
    requires other { IsKept other.now more.weight more.count }
    requires room { CanMerge slots.old tally.weight other.now more.weight }
    ensures kept { IsKept slots.new (tally.weight + more.weight) (tally.count +ℤ turned out more.count) }
    ensures merged { IsMerged out slots.old other.now slots.new }
{
    'pouring: for i in 0..other.len() {
        let denom = denom_at(other, i);
        let part = turned_at(other, i, out);
        if denom == 0 {
            continue;
        }
        let Some(place) = find(slots, denom) else {
            continue;
        };
        grow_at(slots, place, denom, part);
    }
}

// The numerator of the slot at this index, or the negative one if it goes out.
#[inline(always)]
fn turned_at(slots: &[Slot], i: usize, out: bool) -> i128
    requires within { i < length slots.now }
    requires held { Has128Bits (turned out (slot_at slots.now i).numer) }
    ensures { result ≡ turned out (slot_at slots.now i).numer }
{
    let numer = numer_at(slots, i);
    if out { -numer } else { numer }
}

/// Why a step changed nothing.
#[derive(Clone, Copy, PartialEq, Eq, Debug)]
pub enum LooseRefusal {
    /// All slots are taken by other denominators.
    MoreRoom,
    /// The slot has the denominator 0, and a numerator that is not 0.
    NotEmpty,
    /// The sum of the numerators is no number of 128 bits.
    TooGreat,
}

/// Adds the fraction `numer/denom`. If it is refused, nothing has changed.
#[inline(always)]
pub fn put_loose(slots: &mut [Slot], numer: i128, denom: u64) -> Result<(), LooseRefusal>
    requires { denom ≢ 0 }
    ensures slot { OnOk result (Puts denom numer slots.old slots.new) }
    ensures numerators { OnOk result (GrowsAt denom numer slots.old slots.new) }
    ensures sum { OnOk result (SumGrows denom numer slots.old slots.new) }
    ensures taken { OnOk result (TakesLoose slots.old denom numer) }
    ensures refused { IfErr result (IsLooseRefusedFor slots.old denom numer) }
    ensures unchanged { OnErr result (slots.new ≡ slots.old) }
{
    let Some(place) = find(slots, denom) else {
        return Err(LooseRefusal::MoreRoom);
    };
    if !is_clean(slots, place) {
        return Err(LooseRefusal::NotEmpty);
    }
    if numer_at(slots, place).checked_add(numer).is_none() {
        return Err(LooseRefusal::TooGreat);
    }
    grow_at(slots, place, denom, numer);
    Ok(())
}

/// Whether the slot at this index has the numerator 0 if it is empty.
#[inline(always)]
fn is_clean(slots: &[Slot], i: usize) -> bool
    requires { i < length slots.now }
    ensures { IsTrue result ↔ IsClean (slot_at slots.now i) }
{
    denom_at(slots, i) != 0 || numer_at(slots, i) == 0
}
