//! The struct `Joined64`, the header of a read in steps, and the call for C that joins some slots of a total at a time.
ghost use Rattle.std.specs.Prelude.{◌≡◌, IfErr, IfOk, MatchOption};
ghost use Rattle.ratio_c.specs.Joining.{HasBegun, IsShortToBegin, IsJoinStep, IsStepStoppedFor, Joins, code_of_join_stop};
ghost use Rattle.ratio_c.specs.TotalReads.{WritesOne};

use crate::code::{ANSWERED, MORE_ROOM, NO_TOTAL, TOO_LONG};
use crate::each::{BAD_LENGTH, DONE};
use ratio_slots::{JoinRefusal, Joined, Slot};

/// How far a read in steps has come, and what the last step said. If no slot is joined and there are no digits, the read has not begun.
#[repr(C)]
#[derive(Drop)]
pub struct Joined64 {
    pub code: u32,
    pub done: u64,
    pub digits: u64,
}

/// Why a step was stopped.
#[derive(Clone, Copy)]
pub enum JoinStop {
    /// The room is too short to begin.
    MoreRoom,
    /// The room does not look as the last step left it.
    NotJoined,
    /// The common denominator is not below 2^(2^20), if nothing changed the room.
    TooLong,
}

/// The read, which begins here if it has not begun. It is `None` if the room is too short to begin.
fn begun(slots: &[Slot], from: Joined, room: &mut [u64]) -> Option<Joined>
    ensures { MatchOption result (IsShortToBegin slots.now from room.old) (HasBegun slots.now from room.old room.new) }
{
    if from.done == 0 && from.digits == 0 {
        Joined::begin(slots, room)
    } else {
        Some(from)
    }
}

/// At most so many more slots are joined, after the read has begun.
fn step(slots: &[Slot], most: usize, from: Joined, room: &mut [u64]) -> Result<Joined, JoinStop>
    ensures joins { IfOk result (Joins slots.now most from room.old room.new) }
    ensures stopped { IfErr result (IsStepStoppedFor slots.now from room.old) }
{
    let Some(read) = begun(slots, from, room) else {
        return Err(JoinStop::MoreRoom);
    };
    match read.go_on(slots, most, room) {
        Ok(next) => Ok(next),
        Err(JoinRefusal::NotJoined) => Err(JoinStop::NotJoined),
        Err(JoinRefusal::TooLong) => Err(JoinStop::TooLong),
    }
}

/// The code of a stop.
fn code_of(why: JoinStop) -> u32
    ensures { result ≡ code_of_join_stop why }
{
    match why {
        JoinStop::MoreRoom => MORE_ROOM,
        JoinStop::NotJoined => NO_TOTAL,
        JoinStop::TooLong => TOO_LONG,
    }
}

/// The header after a step. Where that was stopped, only its code is new.
fn join_answer(slots: &[Slot], most: u64, old: &Joined64, room: &mut [u64]) -> Joined64
    ensures { IsJoinStep slots.now most room.old room.new old.now result }
{
    let from = Joined {
        done: old.done as usize,
        digits: old.digits as usize,
    };
    match step(slots, most as usize, from, room) {
        Ok(next) => Joined64 {
            code: ANSWERED,
            done: next.done as u64,
            digits: next.digits as u64,
        },
        Err(why) => Joined64 {
            code: code_of(why),
            done: old.done,
            digits: old.digits,
        },
    }
}

/// Joins further slots of the total in the room, at most so many. A header with no slot joined and no digits begins the read.
#[unsafe(no_mangle)]
pub extern "C" fn ratio_total_join_i64(
    slots: &[Slot],
    most: u64,
    joined: &mut [Joined64],
    room: &mut [u64],
) -> u32
    ensures { WritesOne (IsJoinStep slots.now most room.old room.new) room.old room.new joined.old joined.new result }
{
    if joined.len() != 1 {
        return BAD_LENGTH;
    }
    joined[0] = join_answer(slots, most, &joined[0], room);
    DONE
}
