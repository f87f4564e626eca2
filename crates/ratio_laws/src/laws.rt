//! The laws of fractions by their two numbers: of sums, what these require, products, rounding, decimals, powers, fractions near others and
//! floats. Each function does nothing: its contract is the law. If `checked_add` or `checked_mul` returns `Some`, that is a sum or a
//! product as the laws mean it.
ghost use Rattle.ratio_laws.specs.DecimalLaws.{DecimalsAreMonotone, DecimalsAreNear};
ghost use Rattle.ratio_decimal.specs.FloatLaws.{EndsHaveGreaterDenominators, FloatsAreMonotone, FloatsComeBack, FloatsLieBetweenEnds, NearestOfZero, RationalizedComesBack, SameValueSameFloat};
ghost use Rattle.ratio_approximation.specs.FromQuotients.{FractionsAreLowest, QuotientsGiveBack};
ghost use Rattle.ratio_core.specs.Laws.{FormedDifferencesFit, FormedSumsFit, ProductsAssociate, ProductsCommute, ProductsDistribute, SumConditionsCommute, SumsAssociate, SumsCommute};
ghost use Rattle.ratio_laws.specs.NearestLaws.{LowestIsNearest, NearestIsLowest, OneIsNearest, SameValueSameNearest};
ghost use Rattle.ratio_decimal.specs.Precision.{HalfEvenIsDecimal};
ghost use Rattle.ratio_core.specs.PowerLaws.{PartsAddUp, PartsAreAnswered, PowersAdd, PowersAreProducts, ReciprocalsInvert};
ghost use Rattle.ratio_core.specs.Rounding.{IsCeiling, IsFloor, IsRounded, IsTruncation};
ghost use Rattle.ratio_core.specs.RoundingLaws.{CeilingsAreNextToFloors, EachHasOne, IsByValue};
ghost use Rattle.ratio_decimal.specs.RoundingRules.{HalvesDifferAtTies, IsRoundedBy, RoundedIsMonotone, RoundedIsNear};
ghost use Rattle.ratio_approximation.specs.SearchCount.{OneSearchCount};
ghost use Rattle.ratio_laws.specs.SimplestLaws.{OneIsSimplest, SameValuesSameSimplest, SimplestIsLowest};
ghost use Rattle.ratio_approximation.specs.SimplestWithinLaws.{ExcludedIsBetween, OneIsSimplestWithin, SameBoundsSameSimplest, SimplestWithinIsLowest};
ghost use Rattle.ratio_decimal.specs.declared.rounding_rule.Rounding.{Rounding};

pub mod texts;

/// Laws of sums in lowest terms.
pub fn sums()
    ensures commute { SumsCommute }
    ensures associate { SumsAssociate }
{}

/// Laws of products in lowest terms.
pub fn products()
    ensures commute { ProductsCommute }
    ensures associate { ProductsAssociate }
    ensures distribute { ProductsDistribute }
{}

/// Laws of what sums and differences require.
pub fn conditions()
    ensures commute { SumConditionsCommute }
    ensures formed_sums_fit { FormedSumsFit }
    ensures formed_differences_fit { FormedDifferencesFit }
{}

/// Each fraction has exactly one floor, one ceiling, one truncation and one rounded value. The ceiling is the floor or
/// one more.
pub fn roundings()
    ensures floors { EachHasOne IsFloor }
    ensures ceilings { EachHasOne IsCeiling }
    ensures truncations { EachHasOne IsTruncation }
    ensures rounded { EachHasOne IsRounded }
    ensures next { CeilingsAreNextToFloors }
{}

/// These depend only on the value of a fraction, reduced or not: the floor of 7/2 and of 14/4 is 3.
pub fn roundings_by_value()
    ensures floors { IsByValue IsFloor }
    ensures ceilings { IsByValue IsCeiling }
    ensures truncations { IsByValue IsTruncation }
    ensures rounded { IsByValue IsRounded }
{}

/// By each rule, a fraction has exactly one rounded value. It depends only on the fraction's value, is less than 1
/// away, and never falls as the fraction grows. `HalfAway` and `HalfEven` differ only at a tie, such as 5/2.
pub fn rounding_rules()
    ensures one { (rule : Rounding) → EachHasOne (IsRoundedBy rule) }
    ensures value { (rule : Rounding) → IsByValue (IsRoundedBy rule) }
    ensures halves { HalvesDifferAtTies }
    ensures near { RoundedIsNear }
    ensures monotone { RoundedIsMonotone }
{}

/// To as many places by one rule, the decimal of a greater fraction is never smaller. It is less than one unit of its
/// last place away from the fraction, and at most half a unit by `HalfAway` and `HalfEven`. The text under a precision
/// is the decimal by `HalfEven`.
pub fn decimals()
    ensures monotone { DecimalsAreMonotone }
    ensures near { DecimalsAreNear }
    ensures printed { HalfEvenIsDecimal }
{}

/// Laws of reciprocals and powers.
pub fn powers()
    ensures products { PowersAreProducts }
    ensures add { PowersAdd }
    ensures invert { ReciprocalsInvert }
{}

/// A fraction is the sum of its two parts, and this sum is always `Some`.
pub fn parts()
    ensures add_up { PartsAddUp }
    ensures answered { PartsAreAnswered }
{}

/// Laws of the nearest fraction with a bounded denominator, which `nearest` returns.
pub fn nearest_fractions()
    ensures one { OneIsNearest }
    ensures lowest { NearestIsLowest }
    ensures own { LowestIsNearest }
    ensures value { SameValueSameNearest }
{}

/// Laws of the fraction with given quotients, which `from_quotients` returns. It is in lowest terms, and the
/// quotients of a fraction in lowest terms give it back: those of 415/93 are 4, 2, 6 and 7.
pub fn fractions_of_quotients()
    ensures lowest { FractionsAreLowest }
    ensures give_back { QuotientsGiveBack }
{}

/// Laws of the simplest fraction strictly between two others, which `simplest_between` returns, and of how often
/// `simplest_between_counted` divides.
pub fn simplest_fractions()
    ensures one { OneIsSimplest }
    ensures lowest { SimplestIsLowest }
    ensures value { SameValuesSameSimplest }
    ensures counts { OneSearchCount }
{}

/// Laws of the simplest fraction within two bounds, which `simplest_within` returns. Within two excluded bounds
/// it is the fraction that `simplest_between` returns.
pub fn simplest_fractions_within()
    ensures one { OneIsSimplestWithin }
    ensures lowest { SimplestWithinIsLowest }
    ensures value { SameBoundsSameSimplest }
    ensures between { ExcludedIsBetween }
{}

/// Laws of the nearest float, which `to_f64` and `to_f32` return. It depends only on the value of a fraction, and never
/// falls as the fraction grows. The fraction with exactly the value of a float gives this float back.
pub fn nearest_floats()
    ensures zero { NearestOfZero }
    ensures value { SameValueSameFloat }
    ensures monotone { FloatsAreMonotone }
    ensures back { FloatsComeBack }
{}

/// Laws of the fraction that `rationalize` returns. Its nearest float is the one that it was found for, or 0.0 for
/// -0.0. A float that is not whole lies between the two points halfway to its neighbours, and both have greater
/// denominators. So neither of them is the simplest fraction there.
pub fn rationalized_floats()
    ensures back { RationalizedComesBack }
    ensures ends { EndsHaveGreaterDenominators }
    ensures between { FloatsLieBetweenEnds }
{}
