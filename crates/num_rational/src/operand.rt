//! The traits `Operand` and `ReducedOperand`: the right operand of a symbol or of a checked call, a fraction or a whole number.
ghost use Rattle.std.specs.Prelude.{◌≡◌, ℤ};
ghost use Rattle.num_rational.specs.Operators.{numbers, whole};
ghost use Rattle.num_rational.specs.Reduced.{ratio_of};

use crate::ratio::Ratio;
use crate::reduced::Reduced;
use ratio_integer::Integer;

/// What an operator's symbol takes on its right: a fraction, or a whole number over 1. It may be a
/// value or a reference.
pub trait Operand<T: Copy + Integer> {
    ghost two_numbers: { Self → ℤ × ℤ };

    /// The operand as a fraction, its fields as they are.
    fn ratio(self) -> Ratio<T>
        ensures { numbers result ≡ two_numbers self };
}

impl<T: Copy + Integer> Operand<T> for Ratio<T> {
    ghost two_numbers = { numbers };

    fn ratio(self) -> Ratio<T> {
        self
    }
}

impl<T: Copy + Integer> Operand<T> for &Ratio<T> {
    ghost two_numbers = { λ x. numbers x.now };

    fn ratio(self) -> Ratio<T> {
        *self
    }
}

impl<T: Copy + Integer> Operand<T> for T {
    ghost two_numbers = { λ c. whole (T.value c) };

    fn ratio(self) -> Ratio<T> {
        Ratio::from_integer(self)
    }
}

impl<T: Copy + Integer> Operand<T> for &T {
    ghost two_numbers = { λ c. whole (T.value c.now) };

    fn ratio(self) -> Ratio<T> {
        Ratio::from_integer(*self)
    }
}

/// What a checked call of `Reduced` takes on its right: a fraction in lowest terms, or a whole number
/// over 1. It may be a value or a reference.
pub trait ReducedOperand<T: Copy + Integer> {
    ghost two_numbers: { Self → ℤ × ℤ };

    /// The operand as a fraction.
    fn reduced(self) -> Reduced<T>
        ensures { numbers (ratio_of result) ≡ two_numbers self };
}

impl<T: Copy + Integer> ReducedOperand<T> for Reduced<T> {
    ghost two_numbers = { λ x. numbers (ratio_of x) };

    fn reduced(self) -> Reduced<T> {
        self
    }
}

impl<T: Copy + Integer> ReducedOperand<T> for &Reduced<T> {
    ghost two_numbers = { λ x. numbers (ratio_of x.now) };

    fn reduced(self) -> Reduced<T> {
        *self
    }
}

impl<T: Copy + Integer> ReducedOperand<T> for T {
    ghost two_numbers = { λ c. whole (T.value c) };

    fn reduced(self) -> Reduced<T> {
        Reduced::from_integer(self)
    }
}

impl<T: Copy + Integer> ReducedOperand<T> for &T {
    ghost two_numbers = { λ c. whole (T.value c.now) };

    fn reduced(self) -> Reduced<T> {
        Reduced::from_integer(*self)
    }
}
