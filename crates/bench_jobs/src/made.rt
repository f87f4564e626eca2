//! Made inputs: numbers and fractions from a seed, the same at each run.
ghost use Rattle.std.specs.Prelude.{◌<◌, ◌≤◌, length};

use num_rational::{Reduced, Reduced64};

/// A source of numbers. Each seed gives other ones.
///
/// It is SplitMix64 (Steele, Lea and Flood, 2014): a counter, mixed.
#[derive(Drop)]
pub(crate) struct Made {
    state: u64,
}

impl Made {
    pub(crate) fn new(seed: u64) -> Made {
        Made { state: seed }
    }

    /// Any number of 64 bits.
    pub(crate) fn any(&mut self) -> u64 {
        self.state = self.state.wrapping_add(0x9e37_79b9_7f4a_7c15);
        let z = (self.state ^ (self.state >> 30)).wrapping_mul(0xbf58_476d_1ce4_e5b9);
        let z = (z ^ (z >> 27)).wrapping_mul(0x94d0_49bb_1331_11eb);
        z ^ (z >> 31)
    }

    /// A number below `end`.
    pub(crate) fn below(&mut self, end: u64) -> u64
        requires { 0 < end }
        ensures { result < end }
    {
        self.any() % end
    }

    /// A number of at most so many bits, from 1 on. Of each length there are about as many.
    pub(crate) fn any_length(&mut self, bits: u32) -> i64
        requires some { 0 < bits }
        requires most { bits ≤ 62 }
    {
        let length = self.below(bits as u64) as u32;
        self.of_length(length + 1)
    }

    /// A number of exactly so many bits.
    pub(crate) fn of_length(&mut self, bits: u32) -> i64
        requires some { 0 < bits }
        requires most { bits ≤ 62 }
    {
        let low = (self.any() % (1 << 61)) as i64;
        ((1 << 61) + low) >> (62 - bits)
    }

    /// The number, or its negative.
    pub(crate) fn signed(&mut self, n: i64) -> i64 {
        if self.any() % 2 == 0 {
            n
        } else {
            n.wrapping_neg()
        }
    }

    /// One of these numbers.
    pub(crate) fn one_of(&mut self, numbers: &[i64]) -> i64
        requires { 0 < length numbers.now }
    {
        numbers[(self.any() % numbers.len() as u64) as usize]
    }
}

/// Numbers in an order that looks like none, from a place that the seed gives. None comes twice before all have come.
#[derive(Drop)]
pub(crate) struct Turns {
    turn: u64,
}

impl Turns {
    pub(crate) fn new(made: &mut Made) -> Turns {
        Turns {
            turn: made.below(1 << 40),
        }
    }

    /// The next number below `end`. The step is a prime that divides no `end` here.
    pub(crate) fn next(&mut self, end: u64) -> u64
        requires { 0 < end }
        ensures { result < end }
    {
        self.turn = self.turn.wrapping_add(1_010_179);
        self.turn % end
    }
}

/// The lowest terms of `n/d`, or 0 if `d` is 0 or they do not fit.
pub(crate) fn fraction(n: i64, d: i64) -> Reduced64 {
    match Reduced::checked_new(n, d) {
        Some(x) => x,
        None => Reduced::zero(),
    }
}
