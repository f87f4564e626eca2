//! The tree of a text, or its refusal, and the column of a place.
ghost use Rattle.std.specs.Prelude.{◌≡◌, ◌+◌, ◌≤◌, length, take, count_by, IfOk, IsOk, IsErrOf};
ghost use Rattle.ratio_expressions.specs.Answers.{IsUnread};
ghost use Rattle.ratio_expressions.specs.Expression.{IsExpression, begins_character};
ghost use Rattle.ratio_expressions.specs.Grammar.{Tree, postfix};
ghost use Rattle.ratio_expressions.specs.Nesting.{IsShallow};
ghost use Rattle.ratio_expressions.specs.Tokens.{BeginsWithToken};
ghost use Rattle.ratio_expressions.specs.declared.refusal.Refusal.{Refusal};

use crate::depth::first_too_deep;
use crate::lexer::tokens;
use crate::parser::{ParseError, parse};
use crate::refusal::{Reason, ValueError, refused};
use crate::step::Step;
use std::alloc::Global;

/// The tree of a text, in postfix order, or its refusal: `2 + 3 * 4` is 2, 3, 4, `*`, `+`, and `2 + )` is refused at 4. Whatever else a
/// text has, it is refused where more than 1,000 parentheses are open: who walks a tree may call itself for each.
pub fn tree_of(alloc: Global, text: &[u8]) -> Result<Vec<Step>, ValueError>
    // What is returned is the tree of the text.
    ensures found { IfOk result (λ steps. (t : Tree) × IsExpression text.now t × (steps.items ≡ postfix t)) }
    // No parenthesis of it is too deep.
    ensures shallow { IsOk result → IsShallow text.now }
    // Before the place the text begins an expression, and with what is there it does not, or more than 1,000 parentheses are open there.
    ensures refusal { (r : Refusal) → IsErrOf result (ValueError.Refused r) → IsUnread text.now r }
    // A caret has room at the place.
    ensures within { (r : Refusal) → IsErrOf result (ValueError.Refused r) → r.place ≤ length text.now }
    // A text that begins with no token takes no memory.
    ensures memory { IsErrOf result ValueError.Memory → BeginsWithToken text.now }
{
    let cut = tokens(alloc, text)?;
    if let Some(deep) = first_too_deep(&cut.tokens) {
        return Err(refused(Reason::TooDeep, cut.tokens[deep].span.start));
    }
    match parse(alloc, &cut.tokens) {
        Ok(steps) => {
            if cut.end == text.len() {
                Ok(steps)
            } else {
                Err(refused(Reason::NoExpression, cut.end))
            }
        }
        Err(ParseError::RefusedToken(at)) => {
            if at < cut.tokens.len() {
                Err(refused(Reason::NoExpression, cut.tokens[at].span.start))
            } else {
                Err(refused(Reason::NoExpression, cut.end))
            }
        }
        Err(ParseError::Memory) => Err(ValueError::Memory),
    }
}

/// The column of a place in a text in UTF-8, for a caret: 1 and the number of characters before the place.
pub fn column(text: &[u8], place: usize) -> usize
    requires { place ≤ length text.now }
    ensures { result ≡ count_by begins_character (take place text.now) + 1 }
{
    let before = text[..place]
        .iter()
        .filter(|byte| **byte < 0x80 || **byte >= 0xC0);
    before.count() + 1
}
