//! The struct `Total64`, the header of a total, and how items, or the slots of another total, go into its slots one after another, until one is stopped.
ghost use Rattle.std.specs.Prelude.{◌≡◌, ◌+ℤ◌, Option, IfErr, IfOk, MatchOption, OnErr};
ghost use Rattle.ratio_integer.specs.SignedBits.{IsHeld64};
ghost use Rattle.ratio_slots.specs.Sums.{Has128Bits};
ghost use Rattle.ratio_c.specs.Totals.{AddsCount, ChangesOne, GoesOver, GoUntil, IsStoppedFor, Merges, code_of_stop, piece_of_fraction, piece_of_slot, directed};

use crate::code::{ANSWERED, DENOMINATOR_NOT_POSITIVE, MORE_ROOM, NO_TOTAL, NOT_HELD};
use crate::each::{BAD_LENGTH, DONE};
use crate::numbers64::Fraction64;
use ratio_integer::Integer;
use ratio_slots::{LooseRefusal, Slot, put_loose};

/// What the last call did to a total, and how many fractions are in it. Its fractions are in its slots.
#[repr(C)]
#[derive(Drop)]
pub struct Total64 {
    pub code: u32,
    pub done: u64,
    pub count: i64,
}

/// Whether items go into a total, or out of it.
#[derive(Clone, Copy)]
pub enum Way {
    In,
    Out,
}

/// What an item brings: `numer/denom`, and how many fractions that is. If `denom` is 0, it brings nothing.
#[derive(Clone, Copy)]
pub struct Piece {
    pub numer: i128,
    pub denom: u64,
    pub count: i64,
}

/// Why an item did not go in or out.
#[derive(Clone, Copy)]
pub enum Stop {
    /// Its denominator is not positive.
    NotPositive,
    /// Each slot holds another denominator.
    MoreRoom,
    /// The empty slot where it goes has a numerator that is not 0.
    NotEmpty,
    /// The numerator does not fit in 128 bits, or the count does not fit in 64.
    NotHeld,
}

/// An item of a call on totals: a fraction, or a slot of another total.
pub trait Brings {
    ghost use Rattle.ratio_c.specs.declared.totals.Piece.{Piece};

    // What it brings; none if its denominator is not positive.
    ghost brings: { Self → Option Piece };

    /// What it brings, or `None` if its denominator is not positive.
    fn brings(&self) -> Option<Piece>
        ensures { result ≡ brings self.now };
}

impl Brings for Fraction64 {
    ghost brings = { piece_of_fraction };

    #[inline(always)]
    fn brings(&self) -> Option<Piece> {
        if self.denom <= 0 {
            return None;
        }
        Some(Piece {
            numer: self.numer as i128,
            denom: self.denom as u64,
            count: 1,
        })
    }
}

impl Brings for Slot {
    ghost brings = { piece_of_slot };

    #[inline(always)]
    fn brings(&self) -> Option<Piece> {
        Some(Piece {
            numer: self.numer(),
            denom: self.denom(),
            count: 0,
        })
    }
}

/// The number as it goes in, or its negative as it goes out; `None` if that does not fit.
#[inline(always)]
fn way_of(way: Way, n: i128) -> Option<i128>
    ensures { MatchOption result (¬ (Has128Bits (directed way n))) (λ m. m ≡ directed way n) }
{
    match way {
        Way::In => Some(n),
        Way::Out => 0i128.checked_sub(n),
    }
}

/// The count after so many more fractions went in, or went out; `None` if it does not fit.
#[inline(always)]
fn counted(way: Way, count: i64, more: i64) -> Option<i64>
    ensures { MatchOption result (¬ (IsHeld64 (count +ℤ directed way more))) (λ new. new ≡ count +ℤ directed way more) }
{
    let sum = match way {
        Way::In => count as i128 + more as i128,
        Way::Out => count as i128 - more as i128,
    };
    i64::from_i128(sum)
}

/// One item goes into the slots, or out of them. The result is the new count.
#[inline(always)]
fn step<I: Brings>(way: Way, item: &I, count: i64, slots: &mut [Slot]) -> Result<i64, Stop>
    ensures goes { IfOk result (λ new. GoesOver way (I.brings item.now) (slots.old, count) (slots.new, new)) }
    ensures stopped { IfErr result (IsStoppedFor way (I.brings item.now) (slots.old, count)) }
    ensures unchanged { OnErr result (slots.new ≡ slots.old) }
{
    let Some(piece) = item.brings() else {
        return Err(Stop::NotPositive);
    };
    if piece.denom == 0 {
        return Ok(count);
    }
    let Some(numer) = way_of(way, piece.numer) else {
        return Err(Stop::NotHeld);
    };
    let Some(next) = counted(way, count, piece.count) else {
        return Err(Stop::NotHeld);
    };
    match put_loose(slots, numer, piece.denom) {
        Ok(()) => Ok(next),
        Err(LooseRefusal::MoreRoom) => Err(Stop::MoreRoom),
        Err(LooseRefusal::NotEmpty) => Err(Stop::NotEmpty),
        Err(LooseRefusal::TooGreat) => Err(Stop::NotHeld),
    }
}

/// The code of a stop.
fn code_of(why: Stop) -> u32
    ensures { result ≡ code_of_stop why }
{
    match why {
        Stop::NotPositive => DENOMINATOR_NOT_POSITIVE,
        Stop::MoreRoom => MORE_ROOM,
        Stop::NotEmpty => NO_TOTAL,
        Stop::NotHeld => NOT_HELD,
    }
}

/// The items go one after another, until one is stopped. The result is the new header.
#[inline(always)]
fn go<I: Brings>(way: Way, asked: &[I], count: i64, slots: &mut [Slot]) -> Total64
    ensures { GoUntil I.brings way asked.now (slots.old, count) slots.new result }
{
    let mut count = count;
    for i in 0..asked.len() {
        match step(way, &asked[i], count, slots) {
            Ok(next) => {
                count = next;
            }
            Err(why) => {
                return Total64 {
                    code: code_of(why),
                    done: i as u64,
                    count,
                };
            }
        }
    }
    Total64 {
        code: ANSWERED,
        done: asked.len() as u64,
        count,
    }
}

/// The header with the count of another total, if all its slots are done.
fn with_count(way: Way, total: Total64, more: i64) -> Total64
    ensures { AddsCount way more total result }
{
    if total.code != ANSWERED {
        return total;
    }
    match counted(way, total.count, more) {
        Some(count) => Total64 {
            code: ANSWERED,
            done: total.done,
            count,
        },
        None => Total64 {
            code: NOT_HELD,
            done: total.done,
            count: total.count,
        },
    }
}

/// The items go into the one total of the slice, or out of it. If the slice has not just one, it returns `BAD_LENGTH` and writes nothing.
#[inline(always)]
pub fn gather<I: Brings>(way: Way, asked: &[I], total: &mut [Total64], slots: &mut [Slot]) -> u32
    ensures { ChangesOne (GoUntil I.brings way asked.now) total.old total.new slots.old slots.new result }
{
    if total.len() != 1 {
        return BAD_LENGTH;
    }
    total[0] = go(way, asked, total[0].count, slots);
    DONE
}

/// The slots of another total, and then its count, go into the one total of the slice, or out of it.
#[inline(always)]
pub fn pour(way: Way, asked: &[Slot], more: i64, total: &mut [Total64], slots: &mut [Slot]) -> u32
    ensures { ChangesOne (Merges way asked.now more) total.old total.new slots.old slots.new result }
{
    if total.len() != 1 {
        return BAD_LENGTH;
    }
    total[0] = with_count(way, go(way, asked, total[0].count, slots), more);
    DONE
}
