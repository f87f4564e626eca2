// Written by templates/write from templates/negatives.rt.txt: change that file, and write this one anew.
//! The trait `SignedInteger` for the six signed types: negatives.
use crate::integer::SignedInteger;

impl SignedInteger for i8 {
    fn negate(self) -> i8 {
        -self
    }

    fn try_negate(self) -> Option<i8> {
        self.checked_neg()
    }

    ghost below_law = { record { lt = tt } };
}

impl SignedInteger for i16 {
    fn negate(self) -> i16 {
        -self
    }

    fn try_negate(self) -> Option<i16> {
        self.checked_neg()
    }

    ghost below_law = { record { lt = tt } };
}

impl SignedInteger for i32 {
    fn negate(self) -> i32 {
        -self
    }

    fn try_negate(self) -> Option<i32> {
        self.checked_neg()
    }

    ghost below_law = { record { lt = tt } };
}

impl SignedInteger for i64 {
    fn negate(self) -> i64 {
        -self
    }

    fn try_negate(self) -> Option<i64> {
        self.checked_neg()
    }

    ghost below_law = { record { lt = tt } };
}

impl SignedInteger for i128 {
    fn negate(self) -> i128 {
        -self
    }

    fn try_negate(self) -> Option<i128> {
        self.checked_neg()
    }

    ghost below_law = { record { lt = tt } };
}

impl SignedInteger for isize {
    fn negate(self) -> isize {
        -self
    }

    fn try_negate(self) -> Option<isize> {
        self.checked_neg()
    }

    ghost below_law = { record { lt = tt } };
}
