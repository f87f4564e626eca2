//! The laws that a text is worth at most one value, that it has at most one refusal, and never both.
ghost use Rattle.std.specs.Prelude.{◌≡◌, ℕ, List, Option};
ghost use Rattle.ratio_expressions.specs.Answers.{HasTextRefusal, IsTextWorth};
ghost use Rattle.ratio_expressions.specs.Worths.{Worth};
ghost use Rattle.ratio_expressions.specs.declared.refusal.Refusal.{Refusal};

/// A text is worth at most one value.
pub fn one_worth()
    ensures { (text : List ℕ) (named : List ℕ → Option Worth) (v w : Worth) → IsTextWorth text named v → IsTextWorth text named w → v ≡ w }
{}

/// A text that is worth something has no refusal.
pub fn worth_or_refusal()
    ensures { (text : List ℕ) (named : List ℕ → Option Worth) (w : Worth) (r : Refusal) → IsTextWorth text named w → ¬ HasTextRefusal text named r }
{}

/// A text has at most one refusal.
pub fn one_refusal()
    ensures { (text : List ℕ) (named : List ℕ → Option Worth) (r q : Refusal) → HasTextRefusal text named r → HasTextRefusal text named q → r ≡ q }
{}
