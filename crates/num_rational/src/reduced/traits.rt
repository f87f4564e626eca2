//! The impls of std's traits for `Reduced`: `Clone`, `From`, order, `Hash`, `FromStr`, `Display` and other formats.
//!
//! `printing.rt` says when the clauses of `Display`, and of the other traits that print, hold.
ghost use Rattle.std.specs.Prelude.{⊤, ◌≡◌, ◌↔◌, false, pos, refl, IsTrue, Some};
ghost use Rattle.std.specs.Cmp.{partial_equiv_from_equiv};
ghost use Rattle.std.specs.Fmt.{WritesOnOk, WritesStyledOnOk, formatter_spec, padded_integral, spec_alternate, spec_precision};
ghost use Rattle.std.specs.Ordering.{as_partial_cmp};
ghost use Rattle.ratio_core.proofs.EqualityLaws.{same_agrees, same_equivalence, same_partial};
ghost use Rattle.ratio_core.proofs.FieldLemmas.{same_writes_by_fields};
ghost use Rattle.ratio_core.proofs.OrderLaws.{cross_total};
ghost use Rattle.ratio_core.specs.Printing.{text_of};
ghost use Rattle.ratio_core.specs.declared.text.Form.TheVariants.{Decimal};
ghost use Rattle.num_rational.specs.Comparison.{AreEqual, HaveSameFields, order_of, same_value};
ghost use Rattle.num_rational.specs.Padding.{padded_base_ten, padded_in_base, text_under};
ghost use Rattle.num_rational.specs.Ratio.{IsWhole, denominator, numerator};
ghost use Rattle.num_rational.specs.Reduced.{ReadsReduced, ratio_of, writes_of_fields};

use super::Reduced;
use crate::printing::write_with_places;
use crate::ratio::Ratio;
use ratio_core::ParseRatioError;
use ratio_integer::{Integer, Primitive};
use std::alloc::AllocError;
use std::cmp::Ordering;
use std::fmt;
use std::fmt::{Binary, Display, Formatter, LowerHex, Octal, UpperHex, Write};
use std::hash::{Hash, Hasher};
use std::str::FromStr;

impl<T: Copy + Integer> Clone for Reduced<T> {
    ghost is_clone = { λ x y. y ≡ x };

    ghost is_infallible = { λ _. ⊤ };

    fn clone(&self) -> Result<Reduced<T>, AllocError> {
        Ok(*self)
    }
}

impl<T: Copy + Integer> Default for Reduced<T> {
    ghost is_default = { λ r. IsWhole (pos 0) (ratio_of r) };

    fn default() -> Reduced<T> {
        Reduced::zero()
    }
}

impl<T: Copy + Integer> From<T> for Reduced<T> {
    ghost from_gives = { λ t r. IsWhole (T.value t) (ratio_of r) };

    fn from(t: T) -> Reduced<T> {
        Reduced::from_integer(t)
    }
}

impl<T: Copy + Integer> From<Reduced<T>> for Ratio<T> {
    ghost from_gives = { λ x r. r ≡ ratio_of x };

    fn from(x: Reduced<T>) -> Ratio<T> {
        x.to_ratio()
    }
}

/// Whether the fields are equal.
fn same_fields<T: Copy + Integer>(x: &Reduced<T>, y: &Reduced<T>) -> bool
    ensures { IsTrue result ↔ HaveSameFields (ratio_of x.now) (ratio_of y.now) }
{
    *x.numer() == *y.numer() && *x.denom() == *y.denom()
}

impl<T: Copy + Integer> PartialEq for Reduced<T> {
    ghost eq = { λ x y. same_value (ratio_of x) (ratio_of y) };

    ghost laws = { partial_equiv_from_equiv (same_equivalence (λ x. numerator (ratio_of x)) (λ x. denominator (ratio_of x)) (λ x. x.ratio.nonzero)) };

    /// Whether the fields are equal. In lowest terms, that is whether the values are equal.
    fn eq(&self, other: &Reduced<T>) -> bool
        ensures answer { result ≡ same_value (ratio_of self.now) (ratio_of other.now) }
        ensures value { IsTrue result ↔ AreEqual (ratio_of self.now) (ratio_of other.now) }
        ensures fields { IsTrue result ↔ HaveSameFields (ratio_of self.now) (ratio_of other.now) }
    {
        same_fields(self, other)
    }
}

impl<T: Copy + Integer> Eq for Reduced<T> {
    ghost laws = { same_equivalence (λ x. numerator (ratio_of x)) (λ x. denominator (ratio_of x)) (λ x. x.ratio.nonzero) };
}

impl<T: Copy + Integer> PartialOrd for Reduced<T> {
    ghost partial_cmp = { as_partial_cmp (λ x y. order_of (ratio_of x) (ratio_of y)) };

    ghost laws = { same_partial (λ x. numerator (ratio_of x)) (λ x. denominator (ratio_of x)) (λ x. x.ratio.nonzero) };

    fn partial_cmp(&self, other: &Reduced<T>) -> Option<Ordering> {
        Some(self.cmp(other))
    }
}

impl<T: Copy + Integer> Ord for Reduced<T> {
    ghost cmp = { λ x y. order_of (ratio_of x) (ratio_of y) };

    ghost total = { cross_total (λ x. numerator (ratio_of x)) (λ x. denominator (ratio_of x)) (λ x. x.ratio.nonzero) };

    ghost matches_partial_cmp = { λ x y. refl };

    ghost matches_eq = { same_agrees (λ x. numerator (ratio_of x)) (λ x. denominator (ratio_of x)) (λ x. x.ratio.nonzero) };

    #[inline]
    fn cmp(&self, other: &Reduced<T>) -> Ordering {
        self.ratio.cmp(&other.ratio)
    }
}

impl<T: Copy + Integer> Hash for Reduced<T> {
    ghost hash_input = { writes_of_fields };

    ghost respects_eq = { λ x y h. same_writes_by_fields (λ r. numerator (ratio_of r)) (λ r. denominator (ratio_of r)) (λ r. r.lowest) T.number_hash_input x y h };

    /// Feeds the hasher with the two fields, each by the element's own hash.
    fn hash<H: Hasher>(&self, state: &mut H) {
        self.numer().hash(state);
        self.denom().hash(state);
    }
}

impl<T: Primitive> FromStr for Reduced<T> {
    type Err = ParseRatioError;

    ghost from_str_gives = { ReadsReduced };

    fn from_str(text: &str) -> Result<Reduced<T>, ParseRatioError> {
        Reduced::<T>::from_str(text)
    }
}

impl<T: Primitive> Display for Reduced<T> {
    ghost output = { λ x. Some (text_of T.BITS Decimal false (numerator (ratio_of x)) (denominator (ratio_of x))) };

    ghost styled_output = { λ x options. Some (padded_base_ten (padded_integral options)
        (text_under (spec_precision options) T.BITS (numerator (ratio_of x)) (denominator (ratio_of x)))) };

    fn fmt<W: Write>(&self, f: &mut Formatter<W>) -> fmt::Result {
        match f.precision() {
            None => Display::fmt(&self.ratio, f),
            Some(places) => write_with_places(*self.numer(), *self.denom(), places, f),
        }
    }
}

impl<T: Primitive> Binary for Reduced<T> {
    ghost use Rattle.ratio_core.specs.declared.text.Form.TheVariants.{Binary};

    fn fmt<W: Write>(&self, f: &mut Formatter<W>) -> fmt::Result
        ensures plain { WritesOnOk W.write_str_gives f.old result
            (text_of T.BITS Binary false (numerator (ratio_of self.now)) (denominator (ratio_of self.now))) f.new }
        ensures styled { WritesStyledOnOk W.write_str_gives f.old result
            (padded_in_base (padded_integral (formatter_spec f.old))
            (spec_alternate (formatter_spec f.old))
            T.BITS Binary (numerator (ratio_of self.now)) (denominator (ratio_of self.now))) f.new }
    {
        Binary::fmt(&self.ratio, f)
    }
}

impl<T: Primitive> Octal for Reduced<T> {
    ghost use Rattle.ratio_core.specs.declared.text.Form.TheVariants.{Octal};

    fn fmt<W: Write>(&self, f: &mut Formatter<W>) -> fmt::Result
        ensures plain { WritesOnOk W.write_str_gives f.old result
            (text_of T.BITS Octal false (numerator (ratio_of self.now)) (denominator (ratio_of self.now))) f.new }
        ensures styled { WritesStyledOnOk W.write_str_gives f.old result
            (padded_in_base (padded_integral (formatter_spec f.old))
            (spec_alternate (formatter_spec f.old))
            T.BITS Octal (numerator (ratio_of self.now)) (denominator (ratio_of self.now))) f.new }
    {
        Octal::fmt(&self.ratio, f)
    }
}

impl<T: Primitive> LowerHex for Reduced<T> {
    ghost use Rattle.ratio_core.specs.declared.text.Form.TheVariants.{LowerHex};

    fn fmt<W: Write>(&self, f: &mut Formatter<W>) -> fmt::Result
        ensures plain { WritesOnOk W.write_str_gives f.old result
            (text_of T.BITS LowerHex false (numerator (ratio_of self.now)) (denominator (ratio_of self.now))) f.new }
        ensures styled { WritesStyledOnOk W.write_str_gives f.old result
            (padded_in_base (padded_integral (formatter_spec f.old))
            (spec_alternate (formatter_spec f.old))
            T.BITS LowerHex (numerator (ratio_of self.now)) (denominator (ratio_of self.now))) f.new }
    {
        LowerHex::fmt(&self.ratio, f)
    }
}

impl<T: Primitive> UpperHex for Reduced<T> {
    ghost use Rattle.ratio_core.specs.declared.text.Form.TheVariants.{UpperHex};

    fn fmt<W: Write>(&self, f: &mut Formatter<W>) -> fmt::Result
        ensures plain { WritesOnOk W.write_str_gives f.old result
            (text_of T.BITS UpperHex false (numerator (ratio_of self.now)) (denominator (ratio_of self.now))) f.new }
        ensures styled { WritesStyledOnOk W.write_str_gives f.old result
            (padded_in_base (padded_integral (formatter_spec f.old))
            (spec_alternate (formatter_spec f.old))
            T.BITS UpperHex (numerator (ratio_of self.now)) (denominator (ratio_of self.now))) f.new }
    {
        UpperHex::fmt(&self.ratio, f)
    }
}
