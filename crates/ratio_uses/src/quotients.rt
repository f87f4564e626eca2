//! Whole quotients and rests of numbers over one denominator, from one to the next, and of their sums, without a division.
ghost use Rattle.std.specs.Prelude.{◌+◌, ◌*◌, ◌<◌, ◌^◌};
ghost use Rattle.ratio_uses.specs.Gears.{IsQuotient};

// The number over the denominator: the whole quotient, and the rest.
pub(crate) fn divided(number: u128, denom: u64) -> (u128, u128)
    requires denom { 0 < denom }
    ensures { IsQuotient number denom result.0 result.1 }
{
    (number / denom as u128, number % denom as u128)
}

// The sum of two numbers over the denominator, from their whole quotients and their rests.
pub(crate) fn sum_of(one: (u128, u128), other: (u128, u128), denom: u64) -> (u128, u128)
    requires one_small { one.0 < 2 ^ 100 }
    requires one_rest { one.1 < denom }
    requires other_small { other.0 < 2 ^ 100 }
    requires other_rest { other.1 < denom }
    ensures { IsQuotient (one.0 * denom + one.1 + (other.0 * denom + other.1)) denom result.0 result.1 }
{
    let whole = one.0 + other.0;
    let rest = one.1 + other.1;
    if rest >= denom as u128 {
        (whole + 1, rest - denom as u128)
    } else {
        (whole, rest)
    }
}
