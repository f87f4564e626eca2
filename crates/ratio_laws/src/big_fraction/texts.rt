//! The law that the text of a `BigFraction` reads back as it.
ghost use Rattle.ratio_big.specs.Fractions.{big_numbers};
ghost use Rattle.ratio_big.specs.Texts.{fraction_text};
ghost use Rattle.ratio_laws.specs.BigTextLaws.{ReadsOnlyAs};

use ratio_big::BigFraction;

/// `from_str` returns `Ok` of x for the text that `to_text` returns of x.
pub fn texts(x: &BigFraction)
    ensures { ReadsOnlyAs (fraction_text (big_numbers x.now)) (big_numbers x.now) }
{}
