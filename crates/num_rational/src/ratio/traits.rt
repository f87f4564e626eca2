//! The impls of std's traits for `Ratio` (`Clone`, `From`, order, `Hash`, `Neg`, `FromStr`, `Display` and other formats), and of `Inv` of
//! `num_traits`.
//!
//! `printing.rt` says when the clauses of `Display`, and of the other traits that print, hold.
ghost use Rattle.std.specs.Prelude.{⊤, ◌≡◌, ◌↔◌, [], ◌∷◌, ◌++◌, false, fold, neg_ℤ, pos, refl, IsTrue, List, Some, ℤ};
ghost use Rattle.std.specs.Cmp.{partial_equiv_from_equiv};
ghost use Rattle.std.specs.Fmt.{WritesOnOk, WritesStyledOnOk, formatter_spec, padded_integral, spec_alternate};
ghost use Rattle.std.specs.List.{flat_map};
ghost use Rattle.std.specs.Ordering.{as_partial_cmp};
ghost use Rattle.ratio_integer.specs.Range.{IsHeld};
ghost use Rattle.ratio_core.proofs.EqualityLaws.{same_agrees, same_equivalence, same_partial, same_writes_by_value};
ghost use Rattle.ratio_core.proofs.OrderLaws.{cross_total};
ghost use Rattle.ratio_core.specs.ContinuedFraction.{IsCodesOf};
ghost use Rattle.ratio_core.specs.Printing.{text_of};
ghost use Rattle.ratio_core.specs.declared.text.Form.TheVariants.{Decimal};
ghost use Rattle.num_rational.specs.Comparison.{AreEqual, HaveSameFields, IsInLowestTerms, order_of, same_value};
ghost use Rattle.num_rational.specs.Hashing.{writes_of};
ghost use Rattle.num_rational.specs.Negation.{IsNegated};
ghost use Rattle.num_rational.specs.Padding.{padded_base_ten, padded_in_base};
ghost use Rattle.num_rational.specs.Powers.{CanInvert, GivesReciprocal};
ghost use Rattle.num_rational.specs.Ratio.{IsWhole, ReadsRatio, denominator, fields, numerator};

use super::Ratio;
use crate::printing::{write_base_ten, write_in_base};
use num_traits::Inv;
use ratio_core::{BaseTenText, CodeList, Form, ParseRatioError, Steps, Taken, cross_order};
use ratio_integer::{Integer, Primitive, SignedInteger};
use std::alloc::AllocError;
use std::cmp::Ordering;
use std::fmt;
use std::fmt::{Binary, Display, Formatter, LowerHex, Octal, UpperHex, Write};
use std::hash::{Hash, Hasher};
use std::ops::Neg;
use std::str::FromStr;

impl<T: Copy + Integer> Clone for Ratio<T> {
    ghost is_clone = { λ x y. y ≡ x };

    ghost is_infallible = { λ _. ⊤ };

    fn clone(&self) -> Result<Ratio<T>, AllocError> {
        Ok(*self)
    }
}

impl<T: Copy + Integer> Default for Ratio<T> {
    ghost is_default = { IsWhole (pos 0) };

    fn default() -> Ratio<T> {
        Ratio::zero()
    }
}

impl<T: Copy + Integer> From<T> for Ratio<T> {
    ghost from_gives = { λ t r. IsWhole (T.value t) r };

    fn from(t: T) -> Ratio<T> {
        Ratio::from_integer(t)
    }
}

impl<T: Copy + Integer> From<Ratio<T>> for (T, T) {
    ghost from_gives = { λ x pair. pair ≡ fields x };

    fn from(x: Ratio<T>) -> (T, T) {
        x.into_raw()
    }
}

impl<T: Copy + Integer> PartialEq for Ratio<T> {
    ghost eq = { same_value };

    ghost laws = { partial_equiv_from_equiv (same_equivalence numerator denominator (λ x. x.nonzero)) };

    /// Whether the values are equal: 1/2 and 2/4 are. In lowest terms that is whether the fields are
    /// equal.
    fn eq(&self, other: &Ratio<T>) -> bool
        ensures answer { result ≡ same_value self.now other.now }
        ensures value { IsTrue result ↔ AreEqual self.now other.now }
        ensures lowest { IsInLowestTerms self.now → IsInLowestTerms other.now → IsTrue result ↔ HaveSameFields self.now other.now }
    {
        self.cmp(other).is_eq()
    }
}

impl<T: Copy + Integer> Eq for Ratio<T> {
    ghost laws = { same_equivalence numerator denominator (λ x. x.nonzero) };
}

impl<T: Copy + Integer> PartialOrd for Ratio<T> {
    ghost partial_cmp = { as_partial_cmp order_of };

    ghost laws = { same_partial numerator denominator (λ x. x.nonzero) };

    fn partial_cmp(&self, other: &Ratio<T>) -> Option<Ordering> {
        Some(self.cmp(other))
    }
}

impl<T: Copy + Integer> Ord for Ratio<T> {
    ghost cmp = { order_of };

    ghost total = { cross_total numerator denominator (λ x. x.nonzero) };

    ghost matches_partial_cmp = { λ x y. refl };

    ghost matches_eq = { same_agrees numerator denominator (λ x. x.nonzero) };

    /// The order, by `cross_order`, which counts its divisions and divides only if it must.
    #[inline]
    fn cmp(&self, other: &Ratio<T>) -> Ordering {
        let (n, d) = (self.numer, self.denom);
        let (m, e) = (other.numer, other.denom);
        cross_order(n, d, m, e, &mut Steps::new())
    }
}

/// A hasher as a list of codes. It takes each code by the element's own `hash`.
struct HashedCodes<'a, H> {
    state: &'a mut H,
    taken: Taken,
}

impl<'a, T: Integer, H: Hasher> CodeList<T> for HashedCodes<'a, H> {
    ghost taken = { λ list. list.taken.codes };

    ghost after = { λ list z. record list {
      state = record list.state { now = fold H.write list.state.now (T.number_hash_input z) };
      taken = record { codes = list.taken.codes ++ z ∷ [] };
    } };

    fn take(&mut self, t: T) {
        t.hash(self.state);
        self.taken.note(&t);
    }

    ghost end_law = { λ list z. refl };
}

/// Hands the codes of `x` to the hasher behind `list`.
fn hash_codes<T: Copy + Integer, H: Hasher>(x: &Ratio<T>, list: &mut HashedCodes<'_, H>)
    ensures same_reference { list.new.state.ghost_name ≡ list.old.state.ghost_name }
    ensures writes { list.new.state.now ≡ fold H.write list.old.state.now (writes_of x.now) }
{
    x.hash_counted(list, &mut Steps::new());
}

impl<T: Copy + Integer> Hash for Ratio<T> {
    ghost hash_input = { writes_of };

    ghost respects_eq = { λ x y h. same_writes_by_value numerator denominator (λ r. r.nonzero) T.number_hash_input T.lo T.hi x y h };

    /// Feeds the hasher with the codes of `hash_counted`, in their order, each by the element's own
    /// `hash`.
    fn hash<H: Hasher>(&self, state: &mut H)
        ensures writes { state.new ≡ fold H.write state.old (writes_of self.now) }
        ensures codes { (codes : List ℤ) × IsCodesOf T.lo T.hi (numerator self.now) (denominator self.now) codes
            × (state.new ≡ fold H.write state.old (flat_map T.number_hash_input codes)) }
    {
        let mut list = HashedCodes {
            state,
            taken: Taken::none(),
        };
        hash_codes(self, &mut list);
        let HashedCodes { state: _, taken: _ } = list;
    }
}

impl<T: Copy + SignedInteger> Neg for Ratio<T> {
    type Output = Ratio<T>;

    ghost can_neg = { λ x. IsHeld T.lo T.hi (neg_ℤ (numerator x)) };

    ghost neg_gives = { IsNegated };

    fn neg(self) -> Ratio<T> {
        self.neg()
    }
}

impl<T: Copy + SignedInteger> Neg for &Ratio<T> {
    type Output = Ratio<T>;

    ghost can_neg = { λ x. IsHeld T.lo T.hi (neg_ℤ (numerator x.now)) };

    ghost neg_gives = { λ x. IsNegated x.now };

    fn neg(self) -> Ratio<T> {
        (*self).neg()
    }
}

impl<T: Copy + Integer> Inv for Ratio<T> {
    type Output = Ratio<T>;

    ghost can_inv = { CanInvert };

    ghost inv_gives = { GivesReciprocal };

    fn inv(self) -> Ratio<T> {
        self.recip()
    }
}

impl<T: Copy + Integer> Inv for &Ratio<T> {
    type Output = Ratio<T>;

    ghost can_inv = { λ x. CanInvert x.now };

    ghost inv_gives = { λ x. GivesReciprocal x.now };

    fn inv(self) -> Ratio<T> {
        self.recip()
    }
}

impl<T: Primitive> FromStr for Ratio<T> {
    type Err = ParseRatioError;

    ghost from_str_gives = { ReadsRatio };

    fn from_str(text: &str) -> Result<Ratio<T>, ParseRatioError> {
        Ratio::<T>::from_str(text)
    }
}

impl<T: Primitive> Display for Ratio<T> {
    ghost output = { λ x. Some (text_of T.BITS Decimal false (numerator x) (denominator x)) };

    ghost styled_output = { λ x options. Some (padded_base_ten (padded_integral options)
        (text_of T.BITS Decimal false (numerator x) (denominator x))) };

    fn fmt<W: Write>(&self, f: &mut Formatter<W>) -> fmt::Result {
        let mut text = BaseTenText::empty();
        self.put_base_ten_text(&mut text);
        write_base_ten(text.as_str(), f)
    }
}

impl<T: Primitive> Binary for Ratio<T> {
    ghost use Rattle.ratio_core.specs.declared.text.Form.TheVariants.{Binary};

    fn fmt<W: Write>(&self, f: &mut Formatter<W>) -> fmt::Result
        ensures plain { WritesOnOk W.write_str_gives f.old result
            (text_of T.BITS Binary false (numerator self.now) (denominator self.now)) f.new }
        ensures styled { WritesStyledOnOk W.write_str_gives f.old result
            (padded_in_base (padded_integral (formatter_spec f.old))
            (spec_alternate (formatter_spec f.old))
            T.BITS Binary (numerator self.now) (denominator self.now)) f.new }
    {
        write_in_base(self, Form::Binary, "0b", f)
    }
}

impl<T: Primitive> Octal for Ratio<T> {
    ghost use Rattle.ratio_core.specs.declared.text.Form.TheVariants.{Octal};

    fn fmt<W: Write>(&self, f: &mut Formatter<W>) -> fmt::Result
        ensures plain { WritesOnOk W.write_str_gives f.old result
            (text_of T.BITS Octal false (numerator self.now) (denominator self.now)) f.new }
        ensures styled { WritesStyledOnOk W.write_str_gives f.old result
            (padded_in_base (padded_integral (formatter_spec f.old))
            (spec_alternate (formatter_spec f.old))
            T.BITS Octal (numerator self.now) (denominator self.now)) f.new }
    {
        write_in_base(self, Form::Octal, "0o", f)
    }
}

impl<T: Primitive> LowerHex for Ratio<T> {
    ghost use Rattle.ratio_core.specs.declared.text.Form.TheVariants.{LowerHex};

    fn fmt<W: Write>(&self, f: &mut Formatter<W>) -> fmt::Result
        ensures plain { WritesOnOk W.write_str_gives f.old result
            (text_of T.BITS LowerHex false (numerator self.now) (denominator self.now)) f.new }
        ensures styled { WritesStyledOnOk W.write_str_gives f.old result
            (padded_in_base (padded_integral (formatter_spec f.old))
            (spec_alternate (formatter_spec f.old))
            T.BITS LowerHex (numerator self.now) (denominator self.now)) f.new }
    {
        write_in_base(self, Form::LowerHex, "0x", f)
    }
}

impl<T: Primitive> UpperHex for Ratio<T> {
    ghost use Rattle.ratio_core.specs.declared.text.Form.TheVariants.{UpperHex};

    fn fmt<W: Write>(&self, f: &mut Formatter<W>) -> fmt::Result
        ensures plain { WritesOnOk W.write_str_gives f.old result
            (text_of T.BITS UpperHex false (numerator self.now) (denominator self.now)) f.new }
        ensures styled { WritesStyledOnOk W.write_str_gives f.old result
            (padded_in_base (padded_integral (formatter_spec f.old))
            (spec_alternate (formatter_spec f.old))
            T.BITS UpperHex (numerator self.now) (denominator self.now)) f.new }
    {
        write_in_base(self, Form::UpperHex, "0x", f)
    }
}
