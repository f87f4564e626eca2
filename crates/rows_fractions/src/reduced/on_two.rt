//! Calls on two fractions, in each form: the right operand by value and by reference, and as a number if it is whole. Where the
//! order says nothing, as for a product, the call is made from the right, too.
use super::two_lowest;
use num_rational::{Reduced, ReducedOperand};
use ratio_integer::Integer;
use rows::answer::{Answer, of_reduced};

/// The answer, or `None` if no call here has this name, or the words are not two fractions.
pub fn answer<T: Copy + Integer>(call: &str, words: &str) -> Option<Answer<T>> {
    let (x, y) = two_lowest(words)?;
    if call == "simplest_between" {
        return Some(of_reduced(Reduced::simplest_between(&x, &y)));
    }
    let outcome = outcome_of(call, x, y)?;
    Some(if is_same_in_each_form(call, x, y, outcome) {
        of_reduced(outcome)
    } else {
        Answer::FormsDiffer
    })
}

// What the call returns, or `None` if no call has this name.
fn outcome_of<T: Copy + Integer, O: ReducedOperand<T> + Drop>(
    call: &str,
    x: Reduced<T>,
    other: O,
) -> Option<Option<Reduced<T>>> {
    match call {
        "checked_add" => Some(x.checked_add(other)),
        "checked_sub" => Some(x.checked_sub(other)),
        "checked_mul" => Some(x.checked_mul(other)),
        "checked_div" => Some(x.checked_div(other)),
        "checked_rem" => Some(x.checked_rem(other)),
        "checked_gcd" => Some(x.checked_gcd(other)),
        "checked_lcm" => Some(x.checked_lcm(other)),
        _ => None,
    }
}

// Whether the other forms return this, too.
fn is_same_in_each_form<T: Copy + Integer>(
    call: &str,
    x: Reduced<T>,
    y: Reduced<T>,
    outcome: Option<Reduced<T>>,
) -> bool {
    let same = Some(outcome);
    let number = *y.numer();
    let by_number = !y.is_integer()
        || (outcome_of(call, x, number) == same && outcome_of(call, x, &number) == same);
    let from_right = match call {
        "checked_sub" | "checked_div" | "checked_rem" => true,
        _ => outcome_of(call, y, &x) == same,
    };
    outcome_of(call, x, &y) == same && by_number && from_right
}
