//! The laws of decimals. The function does nothing: its contract is the law.
ghost use Rattle.ratio_decimal.specs.DecimalLaws.{DecimalsAgree, DecimalsExist};

/// By each rule, a fraction has exactly one decimal with so many places, and it depends only on the fraction's value.
pub fn decimals()
    ensures some { DecimalsExist }
    ensures one { DecimalsAgree }
{}
