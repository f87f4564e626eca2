//! How many bits a number has, up to a limit.
ghost use Rattle.std.specs.Prelude.{◌≡◌, ◌≢◌, ◌+◌};
ghost use Rattle.ratio_natural.specs.Number.{natural_of};
ghost use Rattle.ratio_expressions.specs.Limits.{IsSizeOf};

use ratio_natural::{bits, is_zero, subtract_digit, used};

/// How many bits the numbers of an operator or of a call may have together, and the numbers of a power.
pub(crate) const MOST_BITS: u64 = 1_000_000;

/// The least number of bits with the number at most 2 to this power, or one more than the limit if there is none up to it. The digits are
/// then those of one less, unless they are all 0.
pub(crate) fn size_in_bits(digits: &mut [u64]) -> u64
    ensures { IsSizeOf (natural_of digits.old) result }
{
    if is_zero(digits) {
        return 0;
    }
    take_one(digits);
    let count = used(digits);
    if count as u64 > MOST_BITS / 64 {
        return MOST_BITS + 1;
    }
    bits(&digits[..count]) as u64
}

/// Takes 1 from a number that is not 0.
pub(crate) fn take_one(digits: &mut [u64])
    requires { natural_of digits.old ≢ 0 }
    ensures { natural_of digits.new + 1 ≡ natural_of digits.old }
{
    subtract_digit(digits, 1);
}
