//! What the tests assert. Each function holds one assertion. If it fails, its message says what was given.
use std::process::Abort;

/// All rows hold, so no row is the first wrong one.
pub(crate) fn all_hold(rt: &impl Abort, what: &str, first_wrong: Option<usize>) {
    assert!(rt; first_wrong.is_none(), "{what}: row {first_wrong:?}");
}

fn first_false(facts: &[bool]) -> Option<usize> {
    for (i, &fact) in facts.iter().enumerate() {
        if !fact {
            return Some(i);
        }
    }
    None
}

/// All of these hold.
pub(crate) fn each_holds(rt: &impl Abort, facts: &[bool]) {
    all_hold(rt, "facts", first_false(facts));
}

/// The two texts are the same.
pub(crate) fn reads(rt: &impl Abort, text: &str, want: &str) {
    assert!(rt; text == want, "{text}, not {want}");
}
