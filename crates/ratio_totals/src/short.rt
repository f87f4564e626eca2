//! The trait `Short`: primitive types of at most 64 bits.
ghost use Rattle.std.specs.Prelude.{◌≤◌};
ghost use Rattle.std.proofs.Common.{lit≤};

use ratio_integer::Primitive;

/// A primitive type of at most 64 bits. Each of its numbers is below 2^64 in magnitude, so a total takes its fractions.
pub trait Short: Primitive {
    ghost short_law: { Self.BITS ≤ 64 };
}

impl Short for i8 {
    ghost short_law = { lit≤ tt };
}

impl Short for i16 {
    ghost short_law = { lit≤ tt };
}

impl Short for i32 {
    ghost short_law = { lit≤ tt };
}

impl Short for i64 {
    ghost short_law = { lit≤ tt };
}

impl Short for isize {
    ghost short_law = { lit≤ tt };
}

impl Short for u8 {
    ghost short_law = { lit≤ tt };
}

impl Short for u16 {
    ghost short_law = { lit≤ tt };
}

impl Short for u32 {
    ghost short_law = { lit≤ tt };
}

impl Short for u64 {
    ghost short_law = { lit≤ tt };
}

impl Short for usize {
    ghost short_law = { lit≤ tt };
}
