//! Fractions, products of two, lists of both and all of another total that go into a total and out of it.
ghost use Rattle.std.specs.Prelude.{◌≡◌, ◌+◌, ◌<◌, ◌≤◌, ◌+ℤ◌, ◌-ℤ◌, ◌*◌, ◌^◌, ◌*ℤ◌, pos, length, unsigned_abs, IfErr, IfOk, MatchOption, OnErr, OnOk};
ghost use Rattle.ratio_integer.specs.Fraction.{IsLowestTerms};
ghost use Rattle.ratio_slots.specs.LowestSum.{ChecksShortPair};
ghost use Rattle.ratio_slots.specs.Merging.{AddsEach, CanMerge, HoldsBoth, IsMergeRefusedFor, taken_of};
ghost use Rattle.ratio_slots.specs.Sums.{GrowsAt, Puts, SameSum};
ghost use Rattle.ratio_slots.specs.Totals.{IsAccepted, IsRefusedFor};
ghost use Rattle.ratio_slots.specs.Turning.{negated};
ghost use Rattle.ratio_totals.specs.Dots.{AreShortProducts, HasProductSlots, IsDotRefusedFor, sum_of_products};
ghost use Rattle.ratio_totals.specs.Items.{AreRefusedFor, HoldsItems, denominators_of};
ghost use Rattle.ratio_totals.specs.Products.{IsProductRefusedFor, PutsProduct, product_of_pairs};
ghost use Rattle.ratio_totals.specs.Values.{GrowsBy, opposite_of, pair_of, slots_of, sum_of_items, value_of};

use crate::numbers::{parts, size, wide};
use crate::short::Short;
use crate::total::Total;
use num_rational::Reduced;
use ratio_integer::lowest_terms;
use ratio_slots::{Refusal, Slot, merge_slots, put};

/// Why a product did not go in.
#[derive(Clone, Copy, PartialEq, Eq, Debug)]
pub enum ProductRefusal {
    /// All slots are taken by other denominators. A larger room takes the total: see `Total::moved_to`.
    MoreRoom,
    /// The total has its greatest weight, 2^63 - 1.
    TooMany,
    /// One of the product's lowest terms is 2^64 or more, the numerator without its sign.
    TooGreat,
}

/// Why the products of two lists did not go in.
#[derive(Clone, Copy, PartialEq, Eq, Debug)]
pub enum DotRefusal {
    /// The lists have different lengths.
    UnlikeLengths,
    /// The slots are fewer than the denominators of the products in lowest terms.
    MoreRoom,
    /// The lists have more than 2^63 - 1 items.
    TooMany,
    /// One of a product's lowest terms is 2^64 or more, the numerator without its sign.
    TooGreat,
}

impl<'a, T: Short> Total<'a, T> {
    /// Adds the fraction. If the total refuses it, nothing has changed.
    pub fn add(&mut self, x: &Reduced<T>) -> Result<(), Refusal>
        ensures same_slots { self.new.slots.ghost_name ≡ self.old.slots.ghost_name }
        ensures room { length (slots_of self.new) ≡ length (slots_of self.old) }
        ensures sum { OnOk result (GrowsBy (pair_of x.now) (value_of self.old) (value_of self.new)) }
        ensures slot { OnOk result (Puts (pair_of x.now).1 (pair_of x.now).0 (slots_of self.old) (slots_of self.new)) }
        ensures numerators { OnOk result (GrowsAt (pair_of x.now).1 (pair_of x.now).0 (slots_of self.old) (slots_of self.new)) }
        ensures count { OnOk result (self.new.tally.count ≡ self.old.tally.count +ℤ pos 1) }
        ensures weight { OnOk result (self.new.tally.weight ≡ self.old.tally.weight + 1) }
        ensures accepted { OnOk result (IsAccepted (slots_of self.old) self.old.tally.weight (pair_of x.now).1) }
        ensures refused { IfErr result (IsRefusedFor (slots_of self.old) self.old.tally.weight (pair_of x.now).1) }
        ensures slots_unchanged { OnErr result (slots_of self.new ≡ slots_of self.old) }
        ensures tally_unchanged { OnErr result (self.new.tally ≡ self.old.tally) }
    {
        let (numer, denom) = parts(x);
        put(self.slots, &mut self.tally, numer, denom, 1)
    }

    /// Takes the fraction out again. If the total refuses it, nothing has changed.
    pub fn subtract(&mut self, x: &Reduced<T>) -> Result<(), Refusal>
        ensures same_slots { self.new.slots.ghost_name ≡ self.old.slots.ghost_name }
        ensures room { length (slots_of self.new) ≡ length (slots_of self.old) }
        ensures sum { OnOk result (GrowsBy (opposite_of (pair_of x.now)) (value_of self.old) (value_of self.new)) }
        ensures slot { OnOk result (Puts (pair_of x.now).1 (opposite_of (pair_of x.now)).0 (slots_of self.old) (slots_of self.new)) }
        ensures numerators { OnOk result (GrowsAt (pair_of x.now).1 (opposite_of (pair_of x.now)).0 (slots_of self.old) (slots_of self.new)) }
        ensures count { OnOk result (self.new.tally.count ≡ self.old.tally.count -ℤ pos 1) }
        ensures weight { OnOk result (self.new.tally.weight ≡ self.old.tally.weight + 1) }
        ensures accepted { OnOk result (IsAccepted (slots_of self.old) self.old.tally.weight (pair_of x.now).1) }
        ensures refused { IfErr result (IsRefusedFor (slots_of self.old) self.old.tally.weight (pair_of x.now).1) }
        ensures slots_unchanged { OnErr result (slots_of self.new ≡ slots_of self.old) }
        ensures tally_unchanged { OnErr result (self.new.tally ≡ self.old.tally) }
    {
        let (numer, denom) = parts(x);
        put(self.slots, &mut self.tally, -numer, denom, -1)
    }

    /// Adds each fraction of the other total. If the total refuses it, nothing has changed.
    pub fn merge(&mut self, other: &Total<'_, T>) -> Result<(), Refusal>
        ensures same_slots { self.new.slots.ghost_name ≡ self.old.slots.ghost_name }
        ensures room { length (slots_of self.new) ≡ length (slots_of self.old) }
        ensures sum { OnOk result (GrowsBy (value_of other.now) (value_of self.old) (value_of self.new)) }
        ensures numerators { OnOk result (AddsEach (slots_of self.old) (slots_of other.now) (slots_of self.new)) }
        ensures held { OnOk result (HoldsBoth (slots_of self.old) (slots_of other.now) (slots_of self.new)) }
        ensures count { OnOk result (self.new.tally.count ≡ self.old.tally.count +ℤ other.now.tally.count) }
        ensures weight { OnOk result (self.new.tally.weight ≡ self.old.tally.weight + other.now.tally.weight) }
        ensures accepted { OnOk result (CanMerge (slots_of self.old) self.old.tally.weight (slots_of other.now) other.now.tally.weight) }
        ensures refused { IfErr result (IsMergeRefusedFor (slots_of self.old) self.old.tally.weight (slots_of other.now) other.now.tally.weight) }
        ensures slots_unchanged { OnErr result (slots_of self.new ≡ slots_of self.old) }
        ensures tally_unchanged { OnErr result (self.new.tally ≡ self.old.tally) }
    {
        merge_slots(self.slots, &mut self.tally, other.slots, other.tally, false)
    }

    /// Takes out each fraction of the other total, whether it was added or not. If the total refuses it, nothing has changed.
    pub fn take_out(&mut self, other: &Total<'_, T>) -> Result<(), Refusal>
        ensures same_slots { self.new.slots.ghost_name ≡ self.old.slots.ghost_name }
        ensures room { length (slots_of self.new) ≡ length (slots_of self.old) }
        ensures sum { OnOk result (GrowsBy (opposite_of (value_of other.now)) (value_of self.old) (value_of self.new)) }
        ensures numerators { OnOk result (AddsEach (slots_of self.old) (negated (slots_of other.now)) (slots_of self.new)) }
        ensures held { OnOk result (HoldsBoth (slots_of self.old) (slots_of other.now) (slots_of self.new)) }
        ensures count { OnOk result (self.new.tally.count ≡ self.old.tally.count -ℤ other.now.tally.count) }
        ensures weight { OnOk result (self.new.tally.weight ≡ self.old.tally.weight + other.now.tally.weight) }
        ensures accepted { OnOk result (CanMerge (slots_of self.old) self.old.tally.weight (slots_of other.now) other.now.tally.weight) }
        ensures refused { IfErr result (IsMergeRefusedFor (slots_of self.old) self.old.tally.weight (slots_of other.now) other.now.tally.weight) }
        ensures slots_unchanged { OnErr result (slots_of self.new ≡ slots_of self.old) }
        ensures tally_unchanged { OnErr result (self.new.tally ≡ self.old.tally) }
    {
        merge_slots(self.slots, &mut self.tally, other.slots, other.tally, true)
    }

    /// Adds the product of the two fractions, which need not fit the type: over `i8`, 100/1 times 100/1 is 10000/1. If the total
    /// refuses it, nothing has changed.
    pub fn add_product(&mut self, x: &Reduced<T>, y: &Reduced<T>) -> Result<(), ProductRefusal>
        ensures same_slots { self.new.slots.ghost_name ≡ self.old.slots.ghost_name }
        ensures room { length (slots_of self.new) ≡ length (slots_of self.old) }
        ensures sum { OnOk result (GrowsBy (product_of_pairs (pair_of x.now) (pair_of y.now)) (value_of self.old) (value_of self.new)) }
        ensures numerators { OnOk result (PutsProduct (product_of_pairs (pair_of x.now) (pair_of y.now)) (slots_of self.old) (slots_of self.new) self.old.tally.weight) }
        ensures count { OnOk result (self.new.tally.count ≡ self.old.tally.count +ℤ pos 1) }
        ensures weight { OnOk result (self.new.tally.weight ≡ self.old.tally.weight + 1) }
        ensures refused { IfErr result (IsProductRefusedFor (product_of_pairs (pair_of x.now) (pair_of y.now)) (slots_of self.old) self.old.tally.weight) }
        ensures slots_unchanged { OnErr result (slots_of self.new ≡ slots_of self.old) }
        ensures tally_unchanged { OnErr result (self.new.tally ≡ self.old.tally) }
    {
        let Some((numer, denom)) = short_product(x, y) else {
            return Err(ProductRefusal::TooGreat);
        };
        match put(self.slots, &mut self.tally, numer, denom, 1) {
            Ok(()) => Ok(()),
            Err(Refusal::MoreRoom) => Err(ProductRefusal::MoreRoom),
            Err(Refusal::TooMany) => Err(ProductRefusal::TooMany),
        }
    }
}

/// The total of the items, in slots that it empties first. There must be as many slots as the items have denominators. Its
/// `sum` is exact, and `None` only where the sum itself does not fit the type: no partial sum has to.
pub fn total_of<'a, T: Short>(
    items: &[Reduced<T>],
    slots: &'a mut [Slot],
) -> Result<Total<'a, T>, Refusal>
    ensures same_slots { IfOk result (λ total. total.slots.ghost_name ≡ slots.entry.ghost_name) }
    ensures sum { IfOk result (λ total. SameSum (sum_of_items pair_of items.now) (value_of total)) }
    ensures count { IfOk result (λ total. total.tally.count ≡ pos (length items.now)) }
    ensures weight { IfOk result (λ total. total.tally.weight ≡ length items.now) }
    ensures held { IfOk result (λ total. HoldsItems pair_of items.now (slots_of total)) }
    ensures taken { IfOk result (λ total. taken_of (slots_of total) ≡ denominators_of pair_of items.now) }
    ensures room { OnOk result (denominators_of pair_of items.now ≤ length slots.old) }
    ensures refused { IfErr result (AreRefusedFor pair_of items.now (length slots.old)) }
{
    let mut total = Total::new(slots);
    'adding: for x in items {
        total.add(x)?;
    }
    Ok(total)
}

/// The total of the products of two lists, item by item, in slots that it empties first: 1/2 times 2/1 and 1/3 times 3/1 are 2/1
/// together. The products need not fit the type, and no partial sum has to.
pub fn dot<'a, T: Short>(
    xs: &[Reduced<T>],
    ys: &[Reduced<T>],
    slots: &'a mut [Slot],
) -> Result<Total<'a, T>, DotRefusal>
    ensures same_slots { IfOk result (λ total. total.slots.ghost_name ≡ slots.entry.ghost_name) }
    ensures alike { OnOk result (length xs.now ≡ length ys.now) }
    ensures sum { IfOk result (λ total. SameSum (sum_of_products pair_of xs.now ys.now) (value_of total)) }
    ensures count { IfOk result (λ total. total.tally.count ≡ pos (length xs.now)) }
    ensures weight { IfOk result (λ total. total.tally.weight ≡ length xs.now) }
    ensures short { OnOk result (AreShortProducts pair_of xs.now ys.now) }
    ensures room { OnOk result (HasProductSlots pair_of xs.now ys.now (length slots.old)) }
    ensures refused { IfErr result (IsDotRefusedFor pair_of xs.now ys.now (length slots.old)) }
{
    if xs.len() != ys.len() {
        return Err(DotRefusal::UnlikeLengths);
    }
    let mut total = Total::new(slots);
    'adding: for i in 0..xs.len() {
        match total.add_product(&xs[i], &ys[i]) {
            Ok(()) => {}
            Err(ProductRefusal::MoreRoom) => return Err(DotRefusal::MoreRoom),
            Err(ProductRefusal::TooMany) => return Err(DotRefusal::TooMany),
            Err(ProductRefusal::TooGreat) => return Err(DotRefusal::TooGreat),
        }
    }
    Ok(total)
}

// The product in lowest terms, cancelled across before it is multiplied: 2/3 times 3/4 becomes 1/1 times 1/2. It is
// `None` exactly if one of its numbers is 2^64 or more, the numerator without its sign.
fn short_product<T: Short>(x: &Reduced<T>, y: &Reduced<T>) -> Option<(i128, u64)>
    ensures { ChecksShortPair (product_of_pairs (pair_of x.now) (pair_of y.now)) result }
{
    let (p, t) = lowest_terms(*x.numer(), *y.denom());
    let (s, q) = lowest_terms(*y.numer(), *x.denom());
    short_crossed(wide(p), size(q), wide(s), size(t))
}

// `p/q * s/t`, if its products are already in lowest terms.
fn short_crossed(p: i128, q: u64, s: i128, t: u64) -> Option<(i128, u64)>
    requires left { unsigned_abs p < 2 ^ 64 }
    requires right { unsigned_abs s < 2 ^ 64 }
    requires lowest { IsLowestTerms (p *ℤ s) (pos (q * t)) }
    ensures { ChecksShortPair (p *ℤ s, q * t) result }
{
    let _ = short_times(p.unsigned_abs() as u64, s.unsigned_abs() as u64)?;
    let denom = short_times(q, t)?;
    Some((p * s, denom))
}

// The product, or `None` if it is 2^64 or more.
fn short_times(a: u64, b: u64) -> Option<u64>
    ensures { MatchOption result (2 ^ 64 ≤ a * b) (λ product. product ≡ a * b) }
{
    let product = a as u128 * b as u128;
    if product < 1 << 64 {
        Some(product as u64)
    } else {
        None
    }
}
