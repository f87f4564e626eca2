//! The methods of `Reduced` for texts, decimals and floats.
ghost use Rattle.std.specs.Prelude.{◌≡◌, ◌≢◌, ◌⊎◌, ◌≤◌, ◌<◌, ◌≤ℤ◌, false, length, pos, Err};
ghost use Rattle.std.specs.Float.{binary32, binary64};
ghost use Rattle.ratio_core.specs.Printing.{ReadsBack, base_of, base_ten_room, text_of};
ghost use Rattle.ratio_core.specs.Reading.{AnswersText, IsFractionText, IsSlashedText};
ghost use Rattle.ratio_core.specs.declared.parse_error.RatioErrorKind.TheVariants.{ParseError};
ghost use Rattle.ratio_core.specs.declared.text.Form.TheVariants.{Decimal};
ghost use Rattle.ratio_decimal.specs.Floats.{fraction_of_float, nearest_float};
ghost use Rattle.ratio_decimal.specs.Rationalize.{ChecksRationalized};
ghost use Rattle.ratio_decimal.specs.Decimal.{ChecksExactDecimal, IsDecimalOf};
ghost use Rattle.ratio_decimal.specs.DecimalReading.{AnswersDecimal};
ghost use Rattle.ratio_decimal.specs.TypedText.{AnswersTyped};
ghost use Rattle.num_rational.specs.Ratio.{ChecksRatio, denominator, numerator};
ghost use Rattle.num_rational.specs.Rationalized.{fields_in};
ghost use Rattle.num_rational.specs.Reduced.{ReadsReduced, ratio_in, ratio_of};

use super::Reduced;
use crate::ratio::Ratio;
use ratio_core::{BaseTenText, DecimalText, Form, ParseRatioError, RatioErrorKind, RatioText};
use ratio_decimal::float::{exact, rationalize};
use ratio_decimal::rounding_rule::Rounding;
use ratio_decimal::{DecimalRefusal, TextRefusal};
use ratio_integer::{Integer, Primitive};

impl<T: Primitive> Reduced<T> {
    /// The fraction of a text in base 10, with the rules and refusals of `from_str` of `Ratio`.
    pub fn from_str(text: &str) -> Result<Reduced<T>, ParseRatioError>
        ensures { ReadsReduced text.now result }
    {
        match Ratio::<T>::from_str(text) {
            Ok(ratio) => Ok(Reduced { ratio }),
            Err(refusal) => Err(refusal),
        }
    }

    /// The fraction of a text `N/D` in the radix, with the rules and refusals of `from_str_radix` of
    /// `Ratio`. A radix outside 2 to 36 is a parse error.
    pub fn from_str_radix(text: &str, radix: u32) -> Result<Reduced<T>, ParseRatioError>
        ensures read { 2 ≤ radix → radix ≤ 36 → AnswersText (λ x. numerator (ratio_of x))
            (λ x. denominator (ratio_of x)) T.lo T.hi (IsSlashedText T.lo T.hi radix text.now) result }
        ensures no_radix { (radix < 2) ⊎ (36 < radix) → result ≡ Err ParseError }
    {
        if radix < 2 || 36 < radix {
            return Err(ParseRatioError::new(RatioErrorKind::ParseError));
        }
        match Ratio::<T>::from_str_radix(text, radix) {
            Ok(ratio) => Ok(Reduced { ratio }),
            Err(refusal) => Err(refusal),
        }
    }

    /// The text of the fields, as `text` of `Ratio` writes it. Reading the text in base 10 gives the
    /// fraction back.
    pub fn text(&self, form: Form, alternate: bool) -> RatioText
        ensures bytes { result
            ≡ text_of T.BITS form alternate (numerator (ratio_of self.now)) (denominator (ratio_of self.now)) }
        ensures reads_back { form ≡ Decimal → ReadsBack T.lo T.hi (IsFractionText T.lo T.hi result)
            (numerator (ratio_of self.now)) (denominator (ratio_of self.now)) }
        ensures reads_back_in_base { alternate ≡ false
            → pos 0 ≤ℤ numerator (ratio_of self.now) → denominator (ratio_of self.now) ≢ pos 1
            → ReadsBack T.lo T.hi (IsSlashedText T.lo T.hi (base_of form) result)
            (numerator (ratio_of self.now)) (denominator (ratio_of self.now)) }
    {
        self.ratio.text(form, alternate)
    }

    /// Writes that text into `text`, in place of what was there. So no array is moved.
    pub fn put_text(&self, form: Form, alternate: bool, text: &mut RatioText)
        ensures { text.new
            ≡ text_of T.BITS form alternate (numerator (ratio_of self.now)) (denominator (ratio_of self.now)) }
    {
        self.ratio.put_text(form, alternate, text);
    }

    /// The text in base 10, in a smaller array, which takes less time to make.
    pub fn base_ten_text(&self) -> BaseTenText
        ensures bytes { result
            ≡ text_of T.BITS Decimal false (numerator (ratio_of self.now)) (denominator (ratio_of self.now)) }
        ensures short { length result ≤ base_ten_room T.lo T.hi }
        ensures reads_back { ReadsBack T.lo T.hi (IsFractionText T.lo T.hi result)
            (numerator (ratio_of self.now)) (denominator (ratio_of self.now)) }
    {
        self.ratio.base_ten_text()
    }

    /// Writes the text in base 10 into `text`, in place of what was there.
    pub fn put_base_ten_text(&self, text: &mut BaseTenText)
        ensures { text.new
            ≡ text_of T.BITS Decimal false (numerator (ratio_of self.now)) (denominator (ratio_of self.now)) }
    {
        self.ratio.put_base_ten_text(text);
    }

    // Decimals, and what a person types.

    /// The fraction of a decimal: 99/8 for `12.375`, and 3/2000 for `1.5e-3`. The text is a sign or none, digits with at
    /// most one point, and an exponent or none. At least one digit comes before the exponent, so `.5` and `5.` are
    /// decimals, and `.` is none. There are no spaces, and `-0` is 0 for unsigned types, too.
    ///
    /// The value is exact for texts of any length: `0.500000000000000000000000000` is 1/2. The call takes no memory. It
    /// returns `NotDecimal` exactly if the text is no decimal, and `NotHeld` exactly if it is one whose lowest terms do not fit the type.
    pub fn from_decimal(text: &str) -> Result<Reduced<T>, DecimalRefusal>
        ensures { AnswersDecimal (λ x. numerator (ratio_of x)) (λ x. denominator (ratio_of x)) T.lo T.hi text.now result }
    {
        match ratio_decimal::from_decimal::<T>(text) {
            Ok((numer, denom)) => Ok(Reduced {
                ratio: Ratio::new_raw(numer, denom),
            }),
            Err(refusal) => Err(refusal),
        }
    }

    /// The fraction of what a person types into one field. The text is one of these:
    ///
    /// - a decimal, as `from_decimal` reads it: `-0.5` is -1/2;
    /// - a fraction of two whole numbers, which may have signs: `3/4`, and `1/-2` is -1/2;
    /// - a mixed number with one space, whose sign counts for the whole: `-1 1/2` is -3/2, and `1 3/2` is 5/2;
    /// - a decimal or a fraction with a percent sign right behind it: `12.5%` is 1/8, and `1/2%` is 1/200.
    ///
    /// `NotNumber` means that the text is none of these, `ZeroDenominator` that a fraction or a mixed number is over 0, and
    /// `NotHeld` that the lowest terms do not fit the type. A fraction is read by its value: `200/400` over `i8` is 1/2. The
    /// whole numbers in a fraction or a mixed number must be below 2^128, else the call returns `NotHeld`, too.
    pub fn from_text(text: &str) -> Result<Reduced<T>, TextRefusal>
        ensures { AnswersTyped (λ x. numerator (ratio_of x)) (λ x. denominator (ratio_of x)) T.lo T.hi text.now result }
    {
        match ratio_decimal::from_text::<T>(text) {
            Ok((numer, denom)) => Ok(Reduced {
                ratio: Ratio::new_raw(numer, denom),
            }),
            Err(refusal) => Err(refusal),
        }
    }

    /// The fraction as a decimal with so many places, rounded by the rule: `0.12` for 1/8 at 2 places by `HalfEven`.
    /// There are always as many digits behind the point, and without places no point. A fraction that is rounded to 0
    /// has no minus. The call requires at most 38 places.
    pub fn decimal(&self, places: u32, rule: Rounding) -> DecimalText
        requires { places ≤ 38 }
        ensures { IsDecimalOf rule places (numerator (ratio_of self.now)) (denominator (ratio_of self.now)) result }
    {
        ratio_decimal::decimal(*self.numer(), *self.denom(), places, rule)
    }

    /// All of the fraction as a decimal: `12.375` for 99/8, and `5` for 5/1. It is `None` exactly if the digits do not
    /// end, as those of 1/3. They end if the denominator has no prime factor but 2 and 5.
    pub fn exact_decimal(&self) -> Option<DecimalText>
        ensures { ChecksExactDecimal (numerator (ratio_of self.now)) (denominator (ratio_of self.now)) result }
    {
        ratio_decimal::exact_decimal(*self.numer(), *self.denom())
    }

    // Floats.

    /// The float nearest to this fraction: 0.3333333333333333 for 1/3. If two are equally near, it is
    /// the one whose last bit is 0. 0/1 gives 0.0.
    pub fn to_f64(&self) -> f64
        ensures { result ≡ nearest_float binary64 (numerator (ratio_of self.now)) (denominator (ratio_of self.now)) }
    {
        self.ratio.to_f64()
    }

    /// The float of 32 bits nearest to this fraction, with ties as in `to_f64`: 0.33333334 for 1/3. It is
    /// infinite if the size of the fraction is at least 2^128-2^103.
    pub fn to_f32(&self) -> f32
        ensures { result ≡ nearest_float binary32 (numerator (ratio_of self.now)) (denominator (ratio_of self.now)) }
    {
        self.ratio.to_f32()
    }

    /// The simplest fraction that rounds to the float: 1/10 for 0.1, and 1/3 for 0.3333333333333333. A whole
    /// float gives itself. For any other one it is the simplest fraction strictly between the two points
    /// that are halfway to its neighbours. Both 0.0 and -0.0 give 0/1. `None` exactly if the float is
    /// infinite or no number, or if that fraction does not fit the type.
    ///
    /// For money, read the text by `from_decimal`: from some 10^11 on, a float may have a simpler fraction than
    /// its cents.
    pub fn rationalize(x: f64) -> Option<Reduced<T>>
        ensures { ChecksRationalized T.value T.lo T.hi binary64 x (fields_in result) }
    {
        let (numer, denom) = rationalize::rationalize(x)?;
        Some(Reduced {
            ratio: Ratio::new_raw(numer, denom),
        })
    }

    /// The simplest fraction that rounds to the float of 32 bits, as `rationalize` finds it. Its neighbours are
    /// further away: 1/3 for 0.33333334.
    pub fn rationalize32(x: f32) -> Option<Reduced<T>>
        ensures { ChecksRationalized T.value T.lo T.hi binary32 x (fields_in result) }
    {
        let (numer, denom) = rationalize::rationalize32(x)?;
        Some(Reduced {
            ratio: Ratio::new_raw(numer, denom),
        })
    }
}

impl<T: Copy + Integer> Reduced<T> {
    /// The fraction with exactly the value of the float: 3/4 for 0.75, and
    /// 3602879701896397/36028797018963968 for 0.1. Both 0.0 and -0.0 give 0/1. `None` if the float is
    /// infinite or no number, or if its lowest terms do not fit the type.
    pub fn from_float(x: f64) -> Option<Reduced<T>>
        ensures { ChecksRatio (fraction_of_float x) (ratio_in result) }
    {
        match exact::from_float(x) {
            Some((numer, denom)) => Some(Reduced {
                ratio: Ratio::new_raw(numer, denom),
            }),
            None => None,
        }
    }

    /// The fraction with exactly the value of the float of 32 bits, or `None` as in `from_float`:
    /// 13421773/134217728 for 0.1.
    pub fn from_float32(x: f32) -> Option<Reduced<T>>
        ensures { ChecksRatio (fraction_of_float x) (ratio_in result) }
    {
        Reduced::from_float(f64::from(x))
    }
}
