//! The laws of the calls on two numbers, and of integers.
use ratio_integer::laws as integers;
use ratio_laws::{json_pairs, laws};

#[test]
fn each_law_is_called(_rt: HostRuntime) {
    integers::quotients();
    integers::divisors();
    laws::sums();
    laws::products();
    laws::conditions();
    laws::roundings();
    laws::roundings_by_value();
    laws::rounding_rules();
    laws::decimals();
    laws::powers();
    laws::parts();
    laws::nearest_fractions();
    laws::nearest_floats();
    laws::rationalized_floats();
    laws::simplest_fractions();
    laws::simplest_fractions_within();
    laws::fractions_of_quotients();
    laws::texts::digits();
    laws::texts::decimal_digits();
    laws::texts::decimals();
    laws::texts::typed_texts();
    laws::texts::one_reading();
    json_pairs();
}
