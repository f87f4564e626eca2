//! A digest of many results: one number that nearly any other result would change.
use num_rational::{Reduced, Reduced64};

/// The digest of the results so far, in their order.
#[derive(Drop)]
pub(crate) struct Digest {
    state: u64,
}

impl Digest {
    pub(crate) fn new() -> Digest {
        Digest { state: 0 }
    }

    /// The digest of all results.
    pub(crate) fn value(&self) -> u64 {
        self.state
    }

    pub(crate) fn add(&mut self, n: u64) {
        self.state = (self.state ^ n)
            .wrapping_mul(0x9e37_79b9_7f4a_7c15)
            .rotate_left(29);
    }

    pub(crate) fn add_signed(&mut self, n: i64) {
        self.add(n.unsigned_abs());
        self.add((n < 0) as u64);
    }

    pub(crate) fn add_wide(&mut self, n: i128) {
        let magnitude = n.unsigned_abs();
        self.add((magnitude % (1 << 64)) as u64);
        self.add((magnitude >> 64) as u64);
        self.add((n < 0) as u64);
    }

    pub(crate) fn add_fraction(&mut self, x: &Reduced64) {
        self.add_signed(*x.numer());
        self.add_signed(*x.denom());
    }

    /// A fraction, or that there is none.
    pub(crate) fn add_any(&mut self, x: &Option<Reduced64>) {
        match x {
            Some(x) => self.add_fraction(x),
            None => self.add(7),
        }
    }

    /// A fraction of 128 bits, or that there is none.
    pub(crate) fn add_any_wide(&mut self, x: &Option<Reduced<i128>>) {
        match x {
            Some(x) => {
                self.add_wide(*x.numer());
                self.add_wide(*x.denom());
            }
            None => self.add(7),
        }
    }

    /// A number, or that there is none.
    pub(crate) fn add_number(&mut self, n: Option<i64>) {
        match n {
            Some(n) => self.add_signed(n),
            None => self.add(7),
        }
    }

    /// Which refusal came: its place among those of its call.
    pub(crate) fn add_refusal(&mut self, place: u64) {
        self.add(u64::MAX - place);
    }

    /// The bytes, as one number.
    pub(crate) fn add_bytes(&mut self, bytes: &[u8]) {
        let mut word = bytes.len() as u64;
        for byte in bytes {
            word = word.wrapping_mul(0x0100_0000_01b3) ^ *byte as u64;
        }
        self.add(word);
    }
}
