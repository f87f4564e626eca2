//! `Wide`: an `i128` as it crosses, in two halves.
ghost use Rattle.std.specs.Prelude.{◌≡◌};
ghost use Rattle.ratio_c.specs.Crossing.{wide_number};

/// An `i128` as its two halves: the number is `high` times 2^64, plus `low`.
#[repr(C)]
#[derive(Drop)]
pub struct Wide {
    pub low: u64,
    pub high: i64,
}

impl Wide {
    /// The number.
    #[inline(always)]
    pub fn number(&self) -> i128
        ensures { result ≡ wide_number self.now }
    {
        self.high as i128 * (1 << 64) + self.low as i128
    }

    /// The halves of a number.
    #[inline(always)]
    pub fn of(n: i128) -> Wide
        ensures { wide_number result ≡ n }
    {
        let high = n.div_euclid(1 << 64);
        Wide {
            low: (n - high * (1 << 64)) as u64,
            high: high as i64,
        }
    }
}
