//! The law that what is written reads back as the same fraction.
ghost use Rattle.std.specs.Prelude.{◌≡◌, Result, Ok};
ghost use Rattle.num_rational.specs.declared.json.JsonRatioError.{JsonRatioError};
ghost use Rattle.ratio_big.specs.Fractions.{big_numbers};
ghost use Rattle.ratio_big.specs.declared.fraction.BigFraction.{BigFraction};
ghost use Rattle.ratio_json.specs.BigJson.{AnswersBigJson, ratio_json};

/// Reading what is written of a fraction gives that fraction, and nothing else.
pub fn reads_back()
    ensures { (x : BigFraction) (answer : Result BigFraction JsonRatioError)
        → AnswersBigJson (ratio_json (big_numbers x)) answer
        → (r : BigFraction) × (answer ≡ Ok r) × (big_numbers r ≡ big_numbers x) }
{}
