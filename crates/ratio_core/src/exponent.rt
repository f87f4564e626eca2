// Written by templates/write from templates/exponent.rt.txt: change that file, and write this one anew.
//! The trait `Exponent`: whole numbers of any primitive type that may be an exponent, by sign and magnitude.
ghost use Rattle.std.specs.Prelude.{◌≡◌, ◌↔◌, ◌<ℤ◌, ℤ, pos, unsigned_abs, IsTrue};

/// A whole number that may be an exponent, of a magnitude below 2^128. The
/// twelve primitive integer types and references to them implement it.
pub trait Exponent: Copy {
    // The number of a value.
    ghost number: { Self → ℤ };

    /// Whether the exponent is below 0.
    fn is_below_zero(&self) -> bool
        ensures { IsTrue result ↔ (number self.now <ℤ pos 0) };

    /// The exponent without its sign, also for the least value of a type: 2^31 for `i32::MIN`.
    fn magnitude(&self) -> u128
        ensures { result ≡ unsigned_abs (number self.now) };
}

impl Exponent for i8 {
    ghost number = { λ x. x };

    fn is_below_zero(&self) -> bool {
        *self < 0
    }

    fn magnitude(&self) -> u128 {
        self.unsigned_abs() as u128
    }
}

impl Exponent for i16 {
    ghost number = { λ x. x };

    fn is_below_zero(&self) -> bool {
        *self < 0
    }

    fn magnitude(&self) -> u128 {
        self.unsigned_abs() as u128
    }
}

impl Exponent for i32 {
    ghost number = { λ x. x };

    fn is_below_zero(&self) -> bool {
        *self < 0
    }

    fn magnitude(&self) -> u128 {
        self.unsigned_abs() as u128
    }
}

impl Exponent for i64 {
    ghost number = { λ x. x };

    fn is_below_zero(&self) -> bool {
        *self < 0
    }

    fn magnitude(&self) -> u128 {
        self.unsigned_abs() as u128
    }
}

impl Exponent for i128 {
    ghost number = { λ x. x };

    fn is_below_zero(&self) -> bool {
        *self < 0
    }

    fn magnitude(&self) -> u128 {
        self.unsigned_abs()
    }
}

impl Exponent for isize {
    ghost number = { λ x. x };

    fn is_below_zero(&self) -> bool {
        *self < 0
    }

    fn magnitude(&self) -> u128 {
        self.unsigned_abs() as u128
    }
}

impl Exponent for u8 {
    ghost number = { λ x. pos x };

    fn is_below_zero(&self) -> bool {
        false
    }

    fn magnitude(&self) -> u128 {
        *self as u128
    }
}

impl Exponent for u16 {
    ghost number = { λ x. pos x };

    fn is_below_zero(&self) -> bool {
        false
    }

    fn magnitude(&self) -> u128 {
        *self as u128
    }
}

impl Exponent for u32 {
    ghost number = { λ x. pos x };

    fn is_below_zero(&self) -> bool {
        false
    }

    fn magnitude(&self) -> u128 {
        *self as u128
    }
}

impl Exponent for u64 {
    ghost number = { λ x. pos x };

    fn is_below_zero(&self) -> bool {
        false
    }

    fn magnitude(&self) -> u128 {
        *self as u128
    }
}

impl Exponent for u128 {
    ghost number = { λ x. pos x };

    fn is_below_zero(&self) -> bool {
        false
    }

    fn magnitude(&self) -> u128 {
        *self
    }
}

impl Exponent for usize {
    ghost number = { λ x. pos x };

    fn is_below_zero(&self) -> bool {
        false
    }

    fn magnitude(&self) -> u128 {
        *self as u128
    }
}

impl<E: Exponent> Exponent for &E {
    ghost number = { λ x. E.number x.now };

    fn is_below_zero(&self) -> bool {
        (**self).is_below_zero()
    }

    fn magnitude(&self) -> u128 {
        (**self).magnitude()
    }
}
