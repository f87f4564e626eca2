//! How a fraction is written into a formatter of std: in base 10, in a form with a prefix, or with a precision as a decimal.
//!
//! The clauses hold for a call that returns `Ok`, with a formatter that indents nothing (`IsFlush`): inside a `{:#?}` of
//! another value nothing is promised.
ghost use Rattle.std.specs.Prelude.{◌≡◌, ◌++◌, [], ◌<ℤ◌, false, if◌then◌else◌, pos, List, ℕ};
ghost use Rattle.std.specs.Fmt.{WritesOnOk, WritesStyledOnOk, formatter_spec, padded_integral, spec_alternate};
ghost use Rattle.ratio_core.specs.Printing.{prefix_of, text_of};
ghost use Rattle.ratio_decimal.specs.Precision.{half_even_text};
ghost use Rattle.num_rational.specs.Padding.{padded_base_ten, padded_in_base};
ghost use Rattle.num_rational.specs.Ratio.{denominator, numerator};

use crate::ratio::Ratio;
use ratio_core::{Form, RatioText};
use ratio_decimal::rounding_rule::Rounding;
use ratio_integer::{Primitive, both_held};
use std::fmt;
use std::fmt::{Formatter, Write};

// Writes a text in base 10. A minus at its beginning is its sign.
pub(crate) fn write_base_ten<W: Write>(text: &str, f: &mut Formatter<W>) -> fmt::Result
    ensures plain { WritesOnOk W.write_str_gives f.old result text.now f.new }
    ensures styled { WritesStyledOnOk W.write_str_gives f.old result
        (padded_base_ten (padded_integral (formatter_spec f.old)) text.now) f.new }
{
    match text.strip_prefix('-') {
        Some(digits) => f.pad_integral(false, "", digits),
        None => f.pad_integral(true, "", text),
    }
}

// Writes a fraction in a form with a prefix.
pub(crate) fn write_in_base<T: Primitive, W: Write>(
    x: &Ratio<T>,
    form: Form,
    prefix: &str,
    f: &mut Formatter<W>,
) -> fmt::Result
    requires { prefix.now ≡ prefix_of form }
    ensures plain { WritesOnOk W.write_str_gives f.old result
        (text_of T.BITS form false (numerator x.now) (denominator x.now)) f.new }
    ensures styled { WritesStyledOnOk W.write_str_gives f.old result
        (padded_in_base (padded_integral (formatter_spec f.old)) (spec_alternate (formatter_spec f.old))
        T.BITS form (numerator x.now) (denominator x.now)) f.new }
{
    let alternate = f.alternate();
    let mut text = RatioText::empty();
    x.put_text(form, alternate, &mut text);
    let text = text.as_str();
    f.pad_integral(true, prefix, after_prefix(text, prefix, alternate))
}

// The text without its prefix, if it has one.
fn after_prefix<'a>(text: &'a str, prefix: &str, is_there: bool) -> &'a str
    ensures { (body : List ℕ) → text.now ≡ (if is_there then prefix.now else []) ++ body
        → result.now ≡ body }
{
    if !is_there {
        return text;
    }
    match text.strip_prefix(prefix) {
        Some(body) => body,
        None => text,
    }
}

// Writes a fraction with so many places, a half to the even digit. A minus at its beginning is its sign.
pub(crate) fn write_with_places<T: Primitive, W: Write>(
    numer: T,
    denom: T,
    places: usize,
    f: &mut Formatter<W>,
) -> fmt::Result
    requires { pos 0 <ℤ T.value denom }
    ensures { WritesStyledOnOk W.write_str_gives f.old result
        (padded_base_ten (padded_integral (formatter_spec f.old))
        (half_even_text places (T.value numer) (T.value denom))) f.new }
{
    both_held(numer, denom);
    if places < 39 {
        let text = ratio_decimal::decimal(numer, denom, places as u32, Rounding::HalfEven);
        write_base_ten(text.as_str(), f)
    } else {
        ratio_decimal::write_places(numer, denom, places, f)
    }
}
