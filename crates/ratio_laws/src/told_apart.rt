//! The law of the numbers of a primitive type before a hasher: no two feed it the same.
ghost use Rattle.std.specs.Hash as hash;
ghost use Rattle.ratio_laws.specs.ToldApart.{AreSignedToldApart, AreUnsignedToldApart};

/// The numbers of each primitive type are told apart, so that `reduced::hashes` applies to it.
pub fn told_apart()
    ensures i8 { AreSignedToldApart 8 hash.i8 }
    ensures i16 { AreSignedToldApart 16 hash.i16 }
    ensures i32 { AreSignedToldApart 32 hash.i32 }
    ensures i64 { AreSignedToldApart 64 hash.i64 }
    ensures i128 { AreSignedToldApart 128 hash.i128 }
    ensures isize { AreSignedToldApart 64 hash.isize }
    ensures u8 { AreUnsignedToldApart 8 hash.u8 }
    ensures u16 { AreUnsignedToldApart 16 hash.u16 }
    ensures u32 { AreUnsignedToldApart 32 hash.u32 }
    ensures u64 { AreUnsignedToldApart 64 hash.u64 }
    ensures u128 { AreUnsignedToldApart 128 hash.u128 }
    ensures usize { AreUnsignedToldApart 64 hash.usize }
{}
