//! What the calls must return, in plain whole numbers of 128 bits.
use std::cmp::Ordering;

/// The numerator and the denominator of a fraction.
#[derive(Clone, Copy)]
pub struct Plain {
    pub n: i8,
    pub d: i8,
}

/// The least and the greatest number of a type.
#[derive(Clone, Copy)]
pub struct Range {
    pub lo: i8,
    pub hi: i8,
}

/// The least common denominator of two fractions, and their numerators over it.
#[derive(Clone, Copy)]
struct Scaled {
    denom: i128,
    left: i128,
    right: i128,
}

/// The order of two fractions by their cross products. Denominators of unlike signs reverse it.
pub fn order(x: Plain, y: Plain) -> Ordering {
    let left = times(x.n as i128, y.d as i128);
    let right = times(y.n as i128, x.d as i128);
    if (x.d < 0) == (y.d < 0) {
        left.cmp(&right)
    } else {
        right.cmp(&left)
    }
}

/// The product of two small numbers.
pub fn times(a: i128, b: i128) -> i128 {
    a.wrapping_mul(b)
}

/// The difference of two small numbers.
pub fn minus(a: i128, b: i128) -> i128 {
    a.wrapping_sub(b)
}

/// The sign of a fraction: -1, 0 or 1.
pub fn sign(x: Plain) -> i8 {
    if x.n == 0 {
        0
    } else if (x.n < 0) == (x.d < 0) {
        1
    } else {
        -1
    }
}

/// Both fractions over one denominator: both numbers of the first times `k`, and of the second times
/// `j`. `None` if the denominators then differ.
fn over_common(x: Plain, k: i128, y: Plain, j: i128) -> Option<Scaled> {
    let denom = times(x.d as i128, k);
    if denom == times(y.d as i128, j) {
        Some(Scaled {
            denom,
            left: times(x.n as i128, k),
            right: times(y.n as i128, j),
        })
    } else {
        None
    }
}

impl Range {
    /// Whether the type has this number.
    pub fn holds(self, z: i128) -> bool {
        self.lo as i128 <= z && z <= self.hi as i128
    }

    /// The pair of numbers in range with the value `n/d` and the
    /// least positive denominator, if there is one.
    pub fn lowest(self, n: i128, d: i128) -> Option<Plain> {
        if d == 0 {
            return None;
        }
        for denom in 1..=self.hi {
            for numer in self.lo..=self.hi {
                if times(numer as i128, d) == times(n, denom as i128) {
                    return Some(Plain { n: numer, d: denom });
                }
            }
        }
        None
    }

    /// Both fractions over their least common denominator, if all three numbers are in range.
    fn scaled(self, x: Plain, y: Plain) -> Option<Scaled> {
        for k in 1..=self.hi {
            for j in 1..=self.hi {
                if let Some(scaled) = over_common(x, k as i128, y, j as i128) {
                    return if self.holds_all(scaled) {
                        Some(scaled)
                    } else {
                        None
                    };
                }
            }
        }
        None
    }

    fn holds_all(self, scaled: Scaled) -> bool {
        self.holds(scaled.denom) && self.holds(scaled.left) && self.holds(scaled.right)
    }

    /// The lowest terms of a number over another, if the first is in range.
    fn lowest_held(self, numer: i128, denom: i128) -> Option<Plain> {
        if self.holds(numer) {
            self.lowest(numer, denom)
        } else {
            None
        }
    }

    /// The sum in lowest terms, if the numbers on the way are in range.
    pub fn sum(self, x: Plain, y: Plain) -> Option<Plain> {
        let scaled = self.scaled(x, y)?;
        self.lowest_held(scaled.left.wrapping_add(scaled.right), scaled.denom)
    }

    /// The difference in lowest terms, if the numbers on the way are in range.
    pub fn difference(self, x: Plain, y: Plain) -> Option<Plain> {
        let scaled = self.scaled(x, y)?;
        self.lowest_held(minus(scaled.left, scaled.right), scaled.denom)
    }

    /// The remainder in lowest terms, if `y` is not 0 and the numbers on the way are in range.
    pub fn remainder(self, x: Plain, y: Plain) -> Option<Plain> {
        let scaled = self.scaled(x, y)?;
        self.lowest(scaled.left.checked_rem(scaled.right)?, scaled.denom)
    }

    /// The product in lowest terms, if these are in range.
    pub fn product(self, x: Plain, y: Plain) -> Option<Plain> {
        self.lowest(
            times(x.n as i128, y.n as i128),
            times(x.d as i128, y.d as i128),
        )
    }

    /// The quotient in lowest terms, if `y` is not 0 and these are in range.
    pub fn quotient(self, x: Plain, y: Plain) -> Option<Plain> {
        self.lowest(
            times(x.n as i128, y.d as i128),
            times(x.d as i128, y.n as i128),
        )
    }

    /// The greatest whole number of the range that is not
    /// above `x`. The denominator of `x` is positive.
    pub fn floor(self, x: Plain) -> Option<i8> {
        for z in self.lo..=self.hi {
            let rest = rest(x, z);
            if 0 <= rest && rest < x.d as i128 {
                return Some(z);
            }
        }
        None
    }

    /// The least whole number of the range that is not below `x`.
    pub fn ceiling(self, x: Plain) -> Option<i8> {
        for z in self.lo..=self.hi {
            let rest = rest(x, z);
            if minus(0, x.d as i128) < rest && rest <= 0 {
                return Some(z);
            }
        }
        None
    }

    /// The nearest whole number of the range. Of two that are
    /// equally near, it is the one further from 0.
    pub fn rounded(self, x: Plain) -> Option<i8> {
        for z in self.lo..=self.hi {
            let twice_off = times(2, rest(x, z));
            if is_nearest(twice_off, x.d as i128, x.n < 0) {
                return Some(z);
            }
        }
        None
    }

    /// The next whole number of the range towards 0.
    pub fn truncated(self, x: Plain) -> Option<i8> {
        if x.n < 0 {
            self.ceiling(x)
        } else {
            self.floor(x)
        }
    }
}

/// The numerator minus `z` times the denominator.
pub fn rest(x: Plain, z: i8) -> i128 {
    minus(x.n as i128, times(z as i128, x.d as i128))
}

/// Whether a whole number is the nearest one. `twice_off` is twice its `rest`.
fn is_nearest(twice_off: i128, d: i128, is_negative: bool) -> bool {
    if is_negative {
        minus(0, d) < twice_off && twice_off <= d
    } else {
        minus(0, d) <= twice_off && twice_off < d
    }
}

/// Euclid's algorithm on a fraction, one quotient a call.
#[derive(Clone, Copy)]
pub struct Euclid {
    n: i128,
    d: i128,
}

impl Euclid {
    /// The fraction, with the sign of its denominator moved to the numerator.
    pub fn of(x: Plain) -> Euclid {
        let sign = if x.d < 0 { -1 } else { 1 };
        Euclid {
            n: times(x.n as i128, sign),
            d: times(x.d as i128, sign),
        }
    }

    /// The next floored quotient, or `None` after the last.
    pub fn quotient(&mut self) -> Option<i128> {
        let quotient = self.n.checked_div_euclid(self.d)?;
        let rest = self.n.checked_rem_euclid(self.d)?;
        self.n = self.d;
        self.d = rest;
        Some(quotient)
    }
}
