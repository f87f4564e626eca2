//! The calls for C that compare two totals, and the room that this needs.
ghost use Rattle.std.specs.Prelude.{◌≡◌, ◌++◌, length};
ghost use Rattle.ratio_slots.specs.Common.{read_digits};
ghost use Rattle.ratio_c.specs.TotalOrders.{IsOrderOfTotals, OrdersOne, code_of_order};

use crate::code::{ANSWERED, MORE_ROOM, NOT_HELD, TOO_LONG};
use crate::compare::{Order, number_of};
use crate::each::{BAD_LENGTH, DONE};
use ratio_slots::{OrderRefusal, Slot, digits_of_order, order_of};

/// The code of a comparison that was refused.
fn code_of(why: OrderRefusal) -> u32
    ensures { result ≡ code_of_order why }
{
    match why {
        OrderRefusal::MoreSlots => MORE_ROOM,
        OrderRefusal::TooGreat => NOT_HELD,
        OrderRefusal::MoreRoom => MORE_ROOM,
        OrderRefusal::TooLong => TOO_LONG,
    }
}

/// The order of the sums of both.
fn order_answer(left: &[Slot], right: &[Slot], slots: &mut [Slot], room: &mut [u64]) -> Order
    ensures { IsOrderOfTotals left.now right.now (length slots.old) (length room.old) result }
{
    match order_of(left, right, slots, room) {
        Ok(order) => Order {
            code: ANSWERED,
            order: number_of(order),
        },
        Err(why) => Order {
            code: code_of(why),
            order: 0,
        },
    }
}

/// How many digits of room the order of two totals needs.
#[unsafe(no_mangle)]
pub extern "C" fn ratio_total_compare_digits_i64(left: &[Slot], right: &[Slot]) -> u64
    ensures { result ≡ read_digits (left.now ++ right.now) }
{
    digits_of_order(left, right) as u64
}

/// The order of the sum of the first slots and that of the second ones. The slots are for their difference.
#[unsafe(no_mangle)]
pub extern "C" fn ratio_total_compare_i64(
    left: &[Slot],
    right: &[Slot],
    slots: &mut [Slot],
    room: &mut [u64],
    answers: &mut [Order],
) -> u32
    ensures { OrdersOne (IsOrderOfTotals left.now right.now (length slots.old) (length room.old)) slots.old slots.new room.old room.new answers.old answers.new result }
{
    if answers.len() != 1 {
        return BAD_LENGTH;
    }
    answers[0] = order_answer(left, right, slots, room);
    DONE
}
