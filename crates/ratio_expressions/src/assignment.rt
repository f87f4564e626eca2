//! The name that a line gives its value, and the expression of this value.
ghost use Rattle.std.specs.Prelude.{◌≡◌, ◌↔◌, IsTrue};
ghost use Rattle.ratio_expressions.specs.Grammar.{Tree, postfix};
ghost use Rattle.ratio_expressions.specs.Lines.{target, valued};
ghost use Rattle.ratio_expressions.specs.Stacks.{MakeOneTree, operands};

use crate::step::Step;
use crate::token::{Operator, Span};

/// The name that a line with these steps gives its value, if it gives one, and the steps of the expression of this value.
pub(crate) fn assignment(steps: &[Step]) -> (Option<Span>, &[Step])
    ensures { (t : Tree) → steps.now ≡ postfix t → (target t ≡ result.0) × (result.1.now ≡ postfix (valued t)) }
{
    match steps {
        [
            Step::Name(name),
            expression @ ..,
            Step::Apply(Operator::Equal, _),
        ] if is_whole(expression) => (Some(*name), expression),
        _ => (None, steps),
    }
}

// Whether the steps make one tree. A call takes its arguments with the commas between them as one.
fn is_whole(steps: &[Step]) -> bool
    ensures { IsTrue result ↔ MakeOneTree steps.now }
{
    let mut trees: usize = 0;
    for step in steps {
        let taken = operands_of(*step);
        if trees < taken {
            return false;
        }
        trees = trees - taken + 1;
    }
    trees == 1
}

// How many trees a step takes.
fn operands_of(step: Step) -> usize
    ensures { result ≡ operands step }
{
    match step {
        Step::Number(_) | Step::Name(_) => 0,
        Step::Sign(_, _) | Step::Group(_, _) | Step::Call(_) => 1,
        Step::Apply(_, _) | Step::Comma(_) => 2,
    }
}
