//! The laws of digits, of decimals and of typed texts: what the words for texts mean. Each function does nothing: its contract is
//! the law.
ghost use Rattle.std.specs.Prelude.{◌≡◌, ◌⊎◌, ◌+◌, ◌/◌, ◌%◌, ◌^◌, ◌<◌, ◌≤◌, ◌∷◌, ◌++◌, [], ℕ, ℤ, List, decimal};
ghost use Rattle.std.specs.Char.{digit_value};
ghost use Rattle.std.specs.Int.{IsInRange};
ghost use Rattle.ratio_laws.specs.DecimalLaws.{ReadDecimalsAreNear};
ghost use Rattle.ratio_decimal.specs.DecimalReading.{DecimalsHaveOneReading, PrintedDecimalsRead};
ghost use Rattle.ratio_core.specs.Reading.{IsFractionText, IsNumberText, IsSlashedText};
ghost use Rattle.ratio_laws.specs.TypedLaws.{DecimalsAreTyped, FractionsAreTyped, TypedTextsHaveOneReading, WideDecimalsAreTyped};

/// What a byte is worth as a digit: 0 to 9 for `0` to `9`, and 10 to 35 for the letters in either case. The
/// value of any other byte is not below 36. No radix is above 36, so such a byte is no digit.
pub fn digits()
    ensures decimal { (k : ℕ) → k < 10 → digit_value (48 + k) ≡ k }
    ensures upper { (k : ℕ) → k < 26 → digit_value (65 + k) ≡ k + 10 }
    ensures lower { (k : ℕ) → k < 26 → digit_value (97 + k) ≡ k + 10 }
    ensures others { (c : ℕ) → digit_value c < 36
        → IsInRange 48 57 c ⊎ (IsInRange 65 90 c ⊎ IsInRange 97 122 c) }
{}

/// The decimal text of a natural number, as std prints it. Below 10 it is one byte. For a greater number it is the
/// text of its tenth part, and then its last digit. The law goes up to 64 digits; no number here has more than 39.
pub fn decimal_digits()
    ensures one { (n : ℕ) → n < 10 → decimal n ≡ (48 + n) ∷ [] }
    ensures more { (n : ℕ) → 10 ≤ n → n < 10 ^ 64
        → decimal n ≡ decimal (n / 10) ++ (48 + n % 10) ∷ [] }
{}

/// A text reads as at most one number, and as at most one pair of numbers.
pub fn one_reading()
    ensures number { (lo : ℤ) (radix : ℕ) (text : List ℕ) (z y : ℤ) → radix ≤ 36
        → IsNumberText lo radix text z → IsNumberText lo radix text y → z ≡ y }
    ensures slashed { (lo hi : ℤ) (radix : ℕ) (text : List ℕ) (n d m e : ℤ) → radix ≤ 36
        → IsSlashedText lo hi radix text n d → IsSlashedText lo hi radix text m e
        → (n ≡ m) × (d ≡ e) }
    ensures fraction { (lo hi : ℤ) (text : List ℕ) (n d m e : ℤ)
        → IsFractionText lo hi text n d → IsFractionText lo hi text m e → (n ≡ m) × (d ≡ e) }
{}

/// A text is a decimal in at most one way. A printed decimal reads as the multiple that it shows: `0.67` as 67/100. So what
/// is read is as near to the fraction that was printed as the rule says: 67/100 is 1/300 away from 2/3.
pub fn decimals()
    ensures one { DecimalsHaveOneReading }
    ensures printed { PrintedDecimalsRead }
    ensures near { ReadDecimalsAreNear }
{}

/// A typed text is read in at most one way. `from_text` agrees with `from_decimal` on every decimal, and with `from_str` on
/// every text from which this returns a fraction.
pub fn typed_texts()
    ensures one { TypedTextsHaveOneReading }
    ensures decimals { DecimalsAreTyped }
    ensures wide_decimals { WideDecimalsAreTyped }
    ensures fractions { FractionsAreTyped }
{}
