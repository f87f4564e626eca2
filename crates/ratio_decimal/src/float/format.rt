//! The trait `FloatType`: the bits, the limits and the quotients of `f64` and `f32`, as the rounding needs them.
ghost use Rattle.std.specs.Prelude.{◌≡◌, ◌*◌, ◌^◌, ◌<◌, ◌≤◌, ◌<ℤ◌, ℕ, T, false, from_bits, is_nan, pos, to_bits, unsigned_abs};
ghost use Rattle.std.specs.Float.{Float, Format, binary32, binary64, float_with_sign};
ghost use Rattle.std.specs.Float.Ieee.{fits, hid, low, ones, prec, top};
ghost use Rattle.std.proofs.Common.{refl};
ghost use Rattle.ratio_decimal.specs.Floats.{nearest_float};

/// A type of floats: `f64` or `f32`.
pub trait FloatType: Copy {
    ghost format: { Format };

    ghost value: { Self → Float };

    ghost DIGITS: { ℕ };

    ghost LEAST: { ℕ };

    ghost INFINITY: { ℕ };

    ghost SIGN: { ℕ };

    /// How many binary digits a float has, with the leading one.
    const DIGITS: u64;

    /// The least float above 0 is 1 over 2 to this power.
    const LEAST: u64;

    /// The bits of infinity. Those of a finite float without a sign are less.
    const INFINITY: u64;

    /// The bit of the sign, above all others.
    const SIGN: u64;

    /// Whether the float is no number.
    fn is_no_number(self) -> bool
        ensures { result ≡ is_nan (value self) };

    /// The bits of the float.
    fn bits(self) -> u64
        requires { is_nan (value self) ≡ false }
        ensures bits { result ≡ to_bits format (value self) }
        ensures fits { T (fits format (value self)) };

    /// The float of these bits and of this sign.
    fn of_bits(bits: u64, is_negative: bool) -> Self
        requires { bits ≤ ones format * hid format }
        ensures { value result ≡ float_with_sign is_negative (from_bits format bits) };

    /// The quotient, rounded once. Both numbers are floats, so that their conversion is exact.
    fn quotient(n: i64, d: i64) -> Self
        requires n_exact { unsigned_abs n < 2 ^ DIGITS }
        requires d_exact { unsigned_abs d < 2 ^ DIGITS }
        requires d_positive { pos 0 <ℤ d }
        ensures { value result ≡ nearest_float format n d };

    ghost digits_law: { DIGITS ≡ prec format };

    ghost least_law: { LEAST ≡ low format };

    ghost infinity_law: { INFINITY ≡ ones format * hid format };

    ghost sign_law: { SIGN ≡ top format };
}

impl FloatType for f64 {
    ghost format = { binary64 };

    ghost value = { λ x. x };

    ghost DIGITS = { 53 };

    ghost LEAST = { 1074 };

    ghost INFINITY = { 0x7ff0_0000_0000_0000 };

    ghost SIGN = { 0x8000_0000_0000_0000 };

    const DIGITS: u64 = 53;

    const LEAST: u64 = 1074;

    const INFINITY: u64 = 0x7ff0_0000_0000_0000;

    const SIGN: u64 = 0x8000_0000_0000_0000;

    fn is_no_number(self) -> bool {
        self.is_nan()
    }

    fn bits(self) -> u64 {
        self.to_bits()
    }

    fn of_bits(bits: u64, is_negative: bool) -> f64 {
        f64::from_bits(bits + ((is_negative as u64) << 63))
    }

    fn quotient(n: i64, d: i64) -> f64 {
        n as f64 / d as f64
    }

    ghost digits_law = { refl };

    ghost least_law = { refl };

    ghost infinity_law = { refl };

    ghost sign_law = { refl };
}

impl FloatType for f32 {
    ghost format = { binary32 };

    ghost value = { λ x. x };

    ghost DIGITS = { 24 };

    ghost LEAST = { 149 };

    ghost INFINITY = { 0x7f80_0000 };

    ghost SIGN = { 0x8000_0000 };

    const DIGITS: u64 = 24;

    const LEAST: u64 = 149;

    const INFINITY: u64 = 0x7f80_0000;

    const SIGN: u64 = 0x8000_0000;

    fn is_no_number(self) -> bool {
        self.is_nan()
    }

    fn bits(self) -> u64 {
        self.to_bits() as u64
    }

    fn of_bits(bits: u64, is_negative: bool) -> f32 {
        f32::from_bits(bits as u32 + ((is_negative as u32) << 31))
    }

    fn quotient(n: i64, d: i64) -> f32 {
        n as f32 / d as f32
    }

    ghost digits_law = { refl };

    ghost least_law = { refl };

    ghost infinity_law = { refl };

    ghost sign_law = { refl };
}
