//! The laws that a text has at most one tree or is refused at one place, and not both, and that its slashes are read in one way, and where none of
//! their chains is taken whole, from the left.
ghost use Rattle.std.specs.Prelude.{◌≡◌, ℕ, List, Option, length};
ghost use Rattle.ratio_expressions.specs.declared.token.Token.{Token};
ghost use Rattle.ratio_expressions.specs.Grammar.{Tree, HasTree, postfix};
ghost use Rattle.ratio_expressions.specs.Expression.{IsExpression, IsRefusal};
ghost use Rattle.ratio_expressions.specs.Nesting.{IsShallow, IsTooDeep};
ghost use Rattle.ratio_expressions.specs.Slashes.{IsShownAs};
ghost use Rattle.ratio_expressions.specs.Tokens.{IsCutInto, BeginsNone};
ghost use Rattle.ratio_expressions.specs.Usual.{IsUsualWithoutChains};

/// A list of tokens has at most one tree.
pub fn one_tree()
    ensures { (tokens : List Token) (t u : Tree) → HasTree tokens t → HasTree tokens u → t ≡ u }
{}

/// No two trees have the same steps.
pub fn one_tree_of_steps()
    ensures { (t u : Tree) → postfix t ≡ postfix u → t ≡ u }
{}

/// A text is cut into tokens in one way.
pub fn one_cut()
    ensures { (text : List ℕ) (ts us : List Token) → IsCutInto text 0 (length text) ts → IsCutInto text 0 (length text) us → ts ≡ us }
{}

/// A text in which a place begins no token is cut in none.
pub fn no_cut()
    ensures { (text : List ℕ) (at : ℕ) (ts : List Token) → IsCutInto text 0 at ts → BeginsNone text at
        → (us : List Token) → ¬ IsCutInto text 0 (length text) us }
{}

/// A text has at most one tree.
pub fn one_tree_of_text()
    ensures { (text : List ℕ) (t u : Tree) → IsExpression text t → IsExpression text u → t ≡ u }
{}

/// A text is refused at one place at most.
pub fn one_refusal()
    ensures { (text : List ℕ) (at other : ℕ) → IsRefusal text at → IsRefusal text other → at ≡ other }
{}

/// A text that is refused has no tree.
pub fn refused_has_no_tree()
    ensures { (text : List ℕ) (at : ℕ) (t : Tree) → IsRefusal text at → ¬ IsExpression text t }
{}

/// A text is too deep at one place at most.
pub fn one_too_deep()
    ensures { (text : List ℕ) (at other : ℕ) → IsTooDeep text at → IsTooDeep text other → at ≡ other }
{}

/// A text with a tree shows in one way how its slashes are read.
pub fn one_reading()
    ensures { (text : List ℕ) (t : Tree) (shown other : Option (List ℕ)) → IsExpression text t → IsShallow text → IsShownAs text shown → IsShownAs text other
        → shown ≡ other }
{}

/// Where no chain of slashes is taken whole, a text is read as elsewhere: powers first, then signs, then `*`, `/` and `%` from the left.
pub fn read_from_the_left()
    ensures { IsUsualWithoutChains }
{}
